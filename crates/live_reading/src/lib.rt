// Live reading as theorems over the promise of a step, in specs/: `live-prompt`, `live-as-whole`, `live-ends`, and that a run of steps over every cutting
// exists and is the only one (`live-run`, `live-run-single`); `live-as-read` has that within document 01's limit it is what `read` gives. No code stands
// here.
#![tactic(auto)]
