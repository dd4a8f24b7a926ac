// The buyer's demand 3 as theorems over the promises of the reader and the writer, in specs/: `resync` and `given-written`, and for a
// press that reads from the stream's start, `resync-from-start` and `every-frame-given`; that there is such a run and only one, `whole_run`
// and `whole-run-single`; that a walker's steps are one, `walk-run`; and that what the calls are passed is bytes, `read-bytes`, `open-bytes`.
// No code stands here.
#![tactic(auto)]
