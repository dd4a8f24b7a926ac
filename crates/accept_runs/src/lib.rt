// Accepting a bureau's stream (order W12) beside whole runs of `read`, as theorems over the promises of the calls, in specs/: `yes-exactly`,
// `first-fault`, `frames-accepted`, and of the nonce call `nonce-of-line`. No code stands here.
#![tactic(auto)]
