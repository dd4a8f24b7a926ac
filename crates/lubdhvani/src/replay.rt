// Replay of a press trace (order W11), and what stood at one of its events. The promises cite specs/Replaying.antt and the definitions of `replay_spec`.
ghost use Rattle.std.specs.Prelude.{◌≡◌};
ghost use Rattle.line_layout.specs.Layouts.{layout_of};
ghost use Rattle.frame_spec.specs.Told.{told};
ghost use Rattle.replay_spec.specs.Answers.{replay_answer, replay_out, stood_answer, stood_out};
ghost use Rattle.lubdhvani.specs.Replaying.{replayed_out, stood_as};

use crate::answers::field;
use frame_body::LONGEST_LINE;
use line_layout::layout_of;
use replay_call::{replay, replay_number, stood};

// What a replay comes to: the event at fault, or where there is none the first that differs, 0 where none does; and how many bytes of the stream the
// buffer holds.
#[repr(C)]
#[derive(Clone, Copy)]
pub struct Replayed {
    pub number: usize,
    pub event: usize,
    pub received: usize,
}

// As many bytes as make a line's whole numbers of the machine.
const BEHIND_LINE: usize = 7;

// What stood at an event: the line given, where the printed bytes stand in the trace and how many they are. The zeros behind the line leave no padding.
#[repr(C)]
#[derive(Clone, Copy)]
pub struct Stood {
    pub number: usize,
    pub length: usize,
    pub place: usize,
    pub printed: usize,
    pub received: usize,
    pub line: [u8; LONGEST_LINE],
    pub zeros: [u8; BEHIND_LINE],
}

// What a replay answers, for C.
fn replayed_of(replayed: replay_spec::Replayed) -> Replayed
    ensures { result ≡ replayed_out replayed }
{
    let answer = replayed.answer;
    Replayed {
        number: field(replay_number(answer)),
        event: replayed.event,
        received: replayed.received,
    }
}

// What stood at an event, for C.
fn stood_of(found: replay_spec::Stood) -> Stood
    ensures { result ≡ stood_as found }
{
    let answer = found.answer;
    let line = found.line;
    Stood {
        number: field(replay_number(answer)),
        length: found.length,
        place: found.place,
        printed: found.printed,
        received: found.received,
        line,
        zeros: [0u8; BEHIND_LINE],
    }
}

// Runs a trace from an empty stream, gathered in the buffer: the first event at fault with its number, else the first whose printed bytes differ.
pub fn lubdhvani_replay(
    trace: &[u8],
    key: &[u8],
    font: &[u8],
    editions: usize,
    layout: usize,
    stream: &mut [u8],
) -> Replayed
    ensures value { result ≡ replayed_out (replay_answer (told key.now font.now (layout_of layout)) editions trace.now
        stream.old) }
    ensures stream_after { stream.new ≡ replay_out (told key.now font.now (layout_of layout)) editions trace.now
        stream.old }
{
    replayed_of(replay(trace, key, font, editions, layout_of(layout), stream))
}

// The line that was given when an event of a trace printed, and where the printed bytes stand.
pub fn lubdhvani_stood(
    trace: &[u8],
    event: usize,
    key: &[u8],
    font: &[u8],
    editions: usize,
    layout: usize,
    stream: &mut [u8],
) -> Stood
    ensures value { result ≡ stood_as (stood_answer (told key.now font.now (layout_of layout)) editions trace.now event
        stream.old) }
    ensures stream_after { stream.new ≡ stood_out (told key.now font.now (layout_of layout)) editions trace.now event
        stream.old }
{
    stood_of(stood(trace, event, key, font, editions, layout_of(layout), stream))
}
