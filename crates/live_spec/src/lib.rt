// Reading a link that never ends, by definition: numbers and a window of an unfinished stretch's first bytes, what a step over a piece takes in and
// answers, and what was cut off at the link's ends. There is no code; the calls are in the crate live_call.
#![tactic(auto)]

use frame_body::NONCE_LENGTH;

// What is counted of a link, all zero before its first byte: the bytes received, whether a mark came (0 or 1), the place of the first mark, and the
// place of the unfinished stretch's first byte.
#[derive(Clone, Copy)]
pub struct Numbers {
    pub received: u64,
    pub marked: u32,
    pub mark: u64,
    pub first: u64,
}

// Why a step is refused. One that is taken closes a stretch, with what `read` answers for it, or none.
#[derive(Clone, Copy)]
pub enum LiveRefusal {
    // Nothing is taken: numbers that no taking-in gives, key or font digest not of their sizes, a piece that takes the
    // count past 64 bits, line buffer too short.
    Numbers,
    Sizes,
    TooLong,
    NoRoom,
}

// With the numbers behind it, how many bytes of the piece it took, the places of the stretch's first byte and of its closing mark, and the edition,
// the job and the nonce of a line that is given; all zero unless one is. Where no stretch is closed both places are the bytes received.
#[derive(Clone, Copy)]
pub struct Step {
    pub numbers: Numbers,
    pub took: usize,
    pub first: u64,
    pub closing: u64,
    pub answer: Result<Option<read_call::Answer>, LiveRefusal>,
    pub edition: usize,
    pub job: usize,
    pub nonce: [u8; NONCE_LENGTH],
}

// What was cut off at the ends of a link.
#[derive(Clone, Copy)]
pub struct Cut {
    // How many bytes stand before the first mark, all where none came, and how many behind the last, none where none came.
    pub before: u64,
    pub behind: u64,
}
