// Order W10 as theorems over the promises of `update`, of the look-ups and of `read`, in specs/: `fresh-as-read`, `updated-as-fresh`, `kept-and-added`,
// `update-again`, `kth-line`, and `ten-exactly` and `nineteen-exactly`. No code stands here.
#![tactic(auto)]
