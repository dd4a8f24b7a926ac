// Order W14 as theorems over the contract of `lubdhvani_desk_copy` itself, in specs/, in the numbers that C sees: `c-desk-done`, `c-desk-fault`,
// `c-desk-reads` and `c-desk-from-stream`; and that a stream is bytes by its type. No code stands here.
#![tactic(auto)]
