// Order W13 as theorems over the promises of the writers and the reader, in specs/: `no-shared-frame`, and what a whole run of `read` sees of
// joined streams: `stretches-read`, `joined-read`, `joined-read-apart`, `frames-read`; `run-readings` has that what a whole run sees is the
// readings of the stream and the end. No code stands here.
#![tactic(auto)]
