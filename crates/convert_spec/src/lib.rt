// The converter (orders W6 and W7) by definition: what a call answers and leaves, and what a stretch is found to be. There is no code; the line of a
// stretch is found in the crate convert_find, the calls are in convert_call.
#![tactic(auto)]

// Why a stretch is not converted.
#[derive(Clone, Copy)]
pub enum ConvertFault {
    // Key, font digest, nonce or, for edition two, job not of its size.
    Sizes,
    // A buffer with too little room for a frame.
    NoRoom,
    // A stretch that is too long, or whose fields are not as they must be.
    Shape,
    // Bad stuffing.
    Stuffing,
    // A frame that is not of the edition named.
    Edition,
    // Sealed to another font.
    Font,
    // The seal is not the one worked out.
    Seal,
    // The line holds a byte that is not listed.
    Unlisted,
    // The line's bytes are listed, but it is not the trade's line.
    Trade,
    // It is the trade's line, but not of the layout named.
    Layout,
}

// What the line of a stretch comes to: an answer, the outcome, which is that of a reading (1 where a line was given), and its length.
#[derive(Clone, Copy)]
pub struct Found {
    pub answer: Result<usize, ConvertFault>,
    pub outcome: u32,
    pub length: usize,
}
