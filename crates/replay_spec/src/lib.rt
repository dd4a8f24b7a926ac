// Replay of a press trace (order W11) by definition: the events of a trace, what each does to the press, and what the calls answer and leave.
// There is no code; an event is found in the crate replay_event, a request is made in replay_request, the calls are in replay_call.
#![tactic(auto)]

use frame_body::LONGEST_LINE;

// What an event of a trace is, by its tag: stream bytes received, a line asked for, a line printed; or no event at all.
#[derive(Clone, Copy)]
pub enum Kind {
    Received,
    Asked,
    Printed,
    Bad,
}

// An event, and where its bytes stand in the trace: from start on, up to end, where the next event begins. A bad one has all that is left.
#[derive(Clone, Copy)]
pub struct Event {
    pub kind: Kind,
    pub start: usize,
    pub end: usize,
}

// Why a replay stops.
#[derive(Clone, Copy)]
pub enum ReplayFault {
    // Key or font digest not of its size.
    Sizes,
    // A buffer with too little room for a stream.
    NoRoom,
    // An event at fault: a bad field, or a request that carries bytes.
    Field,
    // A print with no line given and unprinted.
    NoLine,
    // Bytes that take the stream past its limit.
    TooLong,
}

// What `replay` answers: the event at fault, or where there is none the first that differs, 0 where none does; and how many bytes of the stream the
// buffer holds.
#[derive(Clone, Copy)]
pub struct Replayed {
    pub answer: Result<(), ReplayFault>,
    pub event: usize,
    pub received: usize,
}

// What `stood` answers: the line given, its length and its bytes with zeros behind them, and where in the trace the printed bytes stand and how many
// they are; all zero where no print stood there. And how many bytes of the stream the buffer holds.
#[derive(Clone, Copy)]
pub struct Stood {
    pub answer: Result<(), ReplayFault>,
    pub length: usize,
    pub line: [u8; LONGEST_LINE],
    pub place: usize,
    pub printed: usize,
    pub received: usize,
}
