// Order W14 as theorems over the promises of `desk`, `read` and `update`, in specs/: `desk-done`, `desk-fault`, `desk-reads`, `desk-from-stream`,
// `desk-entry-twice`, `desk-empty`, `desk-keeps`, `line-chosen` and `built-fault`. No code stands here.
#![tactic(auto)]
