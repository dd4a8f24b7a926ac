// A whole frame of each edition as bytes that are known: specs/Frames.antt. There is no code. It stands apart from the crate frame_spec, whose every
// edit would work them out again.
#![tactic(auto)]
