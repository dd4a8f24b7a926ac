// Accepting a bureau's stream (order W12) by definition: what the call answers, the first stretch at fault, and a yes. There is no code; the call is in
// the crate accept_call.
#![tactic(auto)]

// Why a stream is not accepted: not each stretch reads as a line, or a nonce occurs in two of them.
#[derive(Clone, Copy)]
pub enum AcceptFault {
    // The call is refused: key or font digest not of its size, stream too long, over 512 stretches.
    Sizes,
    TooLong,
    TooMany,
    // The stretch at the places does not read as a line: the reader's number.
    Refused(u32),
    // It reads as a line, and a stretch before it has the same nonce.
    Repeated,
}

// With the places of the stretch at fault, of its first byte and of its closing mark. Both are the stream's length with yes, and 0 where the call is
// refused.
#[derive(Clone, Copy)]
pub struct Accepted {
    pub first: usize,
    pub closing: usize,
    pub answer: Result<(), AcceptFault>,
}
