// Order W11 as theorems over the contracts of `lubdhvani_replay` and `lubdhvani_stood` themselves, in specs/, in the numbers that C sees: `c-first-decides`,
// `c-differs-exactly`, with the same as `lubdhvani_stood` shows it, `c-received-kept`, `c-shown-in-order` and `c-shown-written`; and that a trace is bytes by
// its type. No code stands here.
#![tactic(auto)]
