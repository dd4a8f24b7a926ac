// The frame of a line by definition, what a writer and a reader are told, and what follows from it: how long a frame is, what it counts,
// where its marks stand. The only code is what writing and reading both ask of a frame; the call that writes one is in the crate frame_write.
// The promises cite specs/Lengths.antt.
#![tactic(auto)]

ghost use Rattle.std.specs.Prelude.{◌≡◌};
ghost use Rattle.frame_spec.specs.Lengths.{beside_line, frame_room};

use frame_body::{Edition, job_field_length};

// The length of a key in bytes (document 01, number 2).
pub const KEY_LENGTH: usize = 16;

// The instance of InGAGE by which frames are sealed (document 01, 'What is supplied').
pub const INSTANCE: usize = 1;

// The room that a frame asks for, whatever its own length (document 01, number 4); in edition two twice what field 05 has is added (order W6).
pub const FRAME_ROOM: usize = 276;

pub const FRAME_ROOM_TWO: usize = FRAME_ROOM
    + 2 * (frame_body::HEAD_LENGTH + frame_body::JOB_LENGTH);

// What the writer counts beside one call for each byte of the line (document 01, 'Numbers returned'); in edition two as many as field 05 has
// bytes are added (order W6).
pub const BESIDE_LINE: usize = 39;

// The room that a frame of an edition asks for, whatever its own length.
pub fn frame_room(edition: Edition) -> usize
    ensures { result ≡ frame_room edition }
{
    FRAME_ROOM + 2 * job_field_length(edition)
}

// What is counted beside one call for each byte of the line.
pub fn beside_line(edition: Edition) -> usize
    ensures { result ≡ beside_line edition }
{
    BESIDE_LINE + job_field_length(edition)
}
