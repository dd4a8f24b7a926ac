// The readings of a stream from a place to its end: that they depend on nothing before a mark, what they are where a stream grows at its end, and
// of streams that are joined; the seam for every call over many stretches. There is no code; what one stretch is found to be is in read_spec.
#![tactic(auto)]
