// The rework desk (order W14) by definition: the stretch that an entry number chooses, the new stream, and what the desk answers. There is no code;
// the call is in the crate desk_call.
#![tactic(auto)]

// Why the desk gives no stream.
#[derive(Clone, Copy)]
pub enum DeskRefusal {
    // Key or font digest not of their sizes.
    Sizes,
    // A stream that is too long.
    TooLong,
    // A table of too few entries.
    NoTable,
    // A count of more entries than a table keeps.
    Count,
    // An entry number past the index: the item of the list, counted from 1.
    Past(usize),
    // An entry whose place doesn't start a stretch that reads as a line: the item of the list, counted from 1.
    NoLine(usize),
    // A new stream that is too long.
    NewTooLong,
    // An output shorter than the new stream.
    NoRoom,
}
