// Order W11 over the promises of `request`, `replay` and `stood`, in specs/: `call-as-read`, `first-decides`, `differs-exactly`, with the same as `stood` shows
// it, `received-kept`, `shown-in-order` and `shown-written`; that these are the calls' contracts, and that a trace is bytes by its type. No code stands here.
#![tactic(auto)]
