// Order W11 as theorems, in specs/: `in_order` over the definitions, and from the promises of `read` and `write` alone `request-as-read`, `given-in-order`,
// `drained`, `replay-given-written` and `replay-resync`. No code stands here.
#![tactic(auto)]
