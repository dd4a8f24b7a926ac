// An index beside the stream (order W10) by definition: an entry, the entries of a stream from a place on, and what bringing a table up to date
// answers and leaves. There is no code; the look-ups are in the crate index_entry, the call in index_call.
#![tactic(auto)]

// The most entries that a table keeps (order W10).
pub const MOST_ENTRIES: usize = 512;

// How many numbers a place is told apart by: an entry is its place times this, plus its number.
pub const NUMBERS: u32 = 256;

// Why a table is not brought up to date.
#[derive(Clone, Copy)]
pub enum IndexRefusal {
    // Key or font digest not of their sizes.
    Sizes,
    // A stream that is too long.
    TooLong,
    // A table of too few entries.
    NoRoom,
    // A count handed in of more entries than a table keeps.
    Count,
    // The last place recorded is beyond the stream's end.
    Beyond,
    // There would be more entries than a table keeps.
    Full,
}

// That, and the count of the table's entries then; on a refusal as it was handed in.
#[derive(Clone, Copy)]
pub struct Updated {
    pub answer: Result<(), IndexRefusal>,
    pub count: usize,
}
