// Replay of a press trace (order W11), and what stood at one of its events.
ghost use Rattle.std.specs.Prelude.{◌≡◌};
ghost use Rattle.line_layout.specs.Layouts.{layout_of};
ghost use Rattle.frame_spec.specs.Told.{told};
ghost use Rattle.replay_spec.specs.Answers.{replay_answer, replay_out, stood_answer, stood_out};
ghost use Rattle.lubdhvani.specs.Replaying.{replayed_out, stood_as};

use lubdhvani::replay::{Replayed, Stood};

// Runs a trace from an empty stream, gathered in the buffer: the first event at fault with its number, else the first whose printed bytes differ.
#[unsafe(no_mangle)]
pub extern "C" fn lubdhvani_replay(
    trace: &[u8],
    key: &[u8],
    font: &[u8],
    editions: usize,
    layout: usize,
    stream: &mut [u8],
) -> Replayed
    ensures value { result ≡ replayed_out (replay_answer (told key.now font.now (layout_of layout)) editions trace.now
        stream.old) }
    ensures stream_after { stream.new ≡ replay_out (told key.now font.now (layout_of layout)) editions trace.now
        stream.old }
{
    lubdhvani::replay::lubdhvani_replay(trace, key, font, editions, layout, stream)
}

// The line that was given when an event of a trace printed, and where the printed bytes stand.
#[unsafe(no_mangle)]
pub extern "C" fn lubdhvani_stood(
    trace: &[u8],
    event: usize,
    key: &[u8],
    font: &[u8],
    editions: usize,
    layout: usize,
    stream: &mut [u8],
) -> Stood
    ensures value { result ≡ stood_as (stood_answer (told key.now font.now (layout_of layout)) editions trace.now event
        stream.old) }
    ensures stream_after { stream.new ≡ stood_out (told key.now font.now (layout_of layout)) editions trace.now event
        stream.old }
{
    lubdhvani::replay::lubdhvani_stood(trace, event, key, font, editions, layout, stream)
}
