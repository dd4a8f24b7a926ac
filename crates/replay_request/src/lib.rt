// A request (order W11): read calls from a place of the stream received so far, each from where the one before closed, over refused stretches to the
// first line. The promises cite specs/Requests.antt and replay_spec/specs/Press.antt.
#![tactic(auto)]

ghost use Rattle.std.specs.Prelude.{◌≡◌, true, ◌≤◌, length};
ghost use Rattle.frame_spec.specs.Told.{told};
ghost use Rattle.read_call.specs.Answers.{longest_stream, sized_told};
ghost use Rattle.replay_spec.specs.Press.{nothing, met, request};
ghost use Rattle.replay_spec.specs.Answers.{judging};
ghost use Rattle.replay_request.specs.Requests.{looked, reached_of, requested};

use frame_body::{DIGEST_LENGTH, LONGEST_LINE};
use frame_spec::KEY_LENGTH;
use line_layout::Layout;
use read_call::{ALL_WORK, Asked, LONGEST_STREAM, read};
use read_numbers::{LINE, numbers};

// What a request comes to: whether a line is given, the place where its reading ended, and the line's length and bytes, with zeros behind them.
#[derive(Clone, Copy)]
pub struct Reached {
    pub found: bool,
    pub place: usize,
    pub length: usize,
    pub line: [u8; LONGEST_LINE],
}

// What one read call tells: the places of the next stretch, which are one where there is none; which of its outcomes it is, and the line where one is
// given.
#[derive(Clone, Copy)]
struct Look {
    first: usize,
    closing: usize,
    outcome: u32,
    length: usize,
    line: [u8; LONGEST_LINE],
}

// One read call, all the work allowed.
fn look_at(
    stream: &[u8],
    at: usize,
    key: &[u8],
    font: &[u8],
    editions: usize,
    layout: Layout,
) -> Look
    ensures { result ≡ looked (told key.now font.now layout) editions stream.now at }
{
    let mut line = [0u8; LONGEST_LINE];
    let asked = Asked {
        editions,
        allowed: ALL_WORK,
        layout,
    };
    let reading = read(stream, at, key, font, asked, &mut line);
    let answer = reading.answer;
    let report = numbers(answer);
    Look {
        first: reading.first,
        closing: reading.closing,
        outcome: report.outcome,
        length: report.length,
        line,
    }
}

// Nothing is given, and the reading ended at this place.
fn nothing_at(place: usize) -> Reached
    ensures { result ≡ reached_of (met nothing place) }
{
    Reached {
        found: false,
        place,
        length: 0,
        line: [0u8; LONGEST_LINE],
    }
}

// Reads on from a place to the first line, or to the end: the place is then the last closing mark passed, or where it was.
fn read_on(
    stream: &[u8],
    from: usize,
    key: &[u8],
    font: &[u8],
    editions: usize,
    layout: Layout,
) -> Reached
    requires layout_value { sized_told (told key.now font.now layout) ≡ true }
    requires stream_len_bound { length stream.now ≤ longest_stream }
    ensures { result ≡ reached_of (request (judging (told key.now font.now layout) editions) stream.now from) }
{
    let mut at = from;
    // A `while`: where a stretch closes decides where the next one is looked for, so no range and no part of the stream is gone through in order.
    while at < stream.len() {
        let seen = look_at(stream, at, key, font, editions, layout);
        if seen.outcome == LINE {
            let line = seen.line;
            return Reached {
                found: true,
                place: seen.closing,
                length: seen.length,
                line,
            };
        }
        if seen.first == seen.closing {
            return nothing_at(at);
        }
        at = seen.closing;
    }
    nothing_at(at)
}

// A request of a stream from a place. Where key or font digest have not their sizes, or the stream is too long, nothing is given.
pub fn request(
    stream: &[u8],
    from: usize,
    key: &[u8],
    font: &[u8],
    editions: usize,
    layout: Layout,
) -> Reached
    ensures { result ≡ reached_of (requested (told key.now font.now layout) editions stream.now from) }
{
    if key.len() != KEY_LENGTH {
        return nothing_at(from);
    }
    if font.len() != DIGEST_LENGTH {
        return nothing_at(from);
    }
    if stream.len() > LONGEST_STREAM {
        return nothing_at(from);
    }
    read_on(stream, from, key, font, editions, layout)
}
