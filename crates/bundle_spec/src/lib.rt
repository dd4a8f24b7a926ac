// Glyph bundles by definition (order W1): what a writer makes of a name and rows, what bytes are as a bundle, and that the two are the same.
// There is no code; the calls that meet the definitions are in the crates bundle_read and bundling.
#![tactic(auto)]
