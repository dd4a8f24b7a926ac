// A state as eight planes: plane a has the leftmost bit of every byte, plane h the rightmost, and digit i of a plane is its bit of byte i. A number of 64
// digits has more of them than most states have bytes: a plane goes around, byte 0 following the last, for as many digits as are held. The definitions
// of what is done to planes (specs/Planes.antt) and the laws that tie them to substitution, shuffle and permutation; there is no code.
#![tactic(auto)]

#[derive(Clone, Copy)]
pub struct Planes {
    pub a: u64,
    pub b: u64,
    pub c: u64,
    pub d: u64,
    pub e: u64,
    pub f: u64,
    pub g: u64,
    pub h: u64,
}

// A state of at most 72 bytes: the planes of its first 64, and the bytes behind them woven into one number, in which digit 8 j + i is digit j of byte 64 + i.
#[derive(Clone, Copy)]
pub struct State {
    pub low: Planes,
    pub rest: u64,
}

// A state that is wider than a number, as two windows: the planes that begin at its first byte, and those that begin at its middle.
#[derive(Clone, Copy)]
pub struct Windows {
    pub first: Planes,
    pub second: Planes,
}
