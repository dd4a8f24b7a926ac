// What a stretch is found to be, in document 01's order: definitions, and what follows from them.
// There is no code; the call that meets them is in the crate read_call.
#![tactic(auto)]
