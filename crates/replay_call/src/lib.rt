// Replay of a press trace (order W11): the press's state by value, one step for each event, the loop over a trace, and the two calls over it. The
// promises cite replay_spec/specs/Answers.antt; how the state stands for the press, with the stream in the lent buffer, is in specs/Holding.antt.
#![tactic(auto)]

ghost use Rattle.std.specs.Prelude.{◌≡◌, true, ◌+◌, ◌<◌, ◌≤◌, length, take};
ghost use Rattle.base_lists.specs.Buffers.{same};
ghost use Rattle.frame_spec.specs.Told.{told};
ghost use Rattle.read_call.specs.Answers.{longest_stream, sized_told};
ghost use Rattle.replay_spec.specs.Events.{event_at};
ghost use Rattle.replay_spec.specs.Press.{receive, ask, step, is_done};
ghost use Rattle.replay_spec.specs.Answers.{judging, replayed_as, replay_answer, replay_out, none_stood, stood_answer, stood_out, replay_number};
ghost use Rattle.replay_call.specs.Holding.{are_sized, refusal_of, held, begun, failed, printed_by, Sound, Kept, Ran, stood_next};

use frame_body::{DIGEST_LENGTH, LONGEST_LINE};
use frame_spec::KEY_LENGTH;
use line_layout::Layout;
use read_call::LONGEST_STREAM;
use replay_event::event_at;
use replay_request::request;
use replay_spec::{Kind, ReplayFault, Replayed, Stood};

// The state: the place reached in the trace, events so far, bytes of the stream in the buffer, the place where the last reading ended, whether a line
// is given and unprinted, the last line given, with zeros behind it, the first event that differs, and the fault, if any.
#[derive(Clone, Copy)]
struct State {
    at: usize,
    event: usize,
    received: usize,
    place: usize,
    unprinted: bool,
    length: usize,
    line: [u8; LONGEST_LINE],
    differs: usize,
    answer: Result<(), ReplayFault>,
}

// An empty stream, and nothing given.
fn begin() -> State
    ensures { result ≡ begun }
{
    State {
        at: 0,
        event: 0,
        received: 0,
        place: 0,
        unprinted: false,
        length: 0,
        line: [0u8; LONGEST_LINE],
        differs: 0,
        answer: Ok(()),
    }
}

// Whether no event was at fault.
fn is_done(answer: Result<(), ReplayFault>) -> bool
    ensures { result ≡ is_done answer }
{
    match answer {
        Ok(()) => true,
        Err(_) => false,
    }
}

// The event just counted is at fault.
fn fail(s: State, answer: Result<(), ReplayFault>) -> State
    ensures { result ≡ failed answer s }
{
    let line = s.line;
    State {
        at: s.at,
        event: s.event,
        received: s.received,
        place: s.place,
        unprinted: s.unprinted,
        length: s.length,
        line,
        differs: s.differs,
        answer,
    }
}

// 20: the bytes are gathered in the buffer, unless they take the stream past its limit.
fn take_in(mut s: State, value: &[u8], buf: &mut [u8]) -> State
    requires { Sound s buf.old }
    ensures { Kept (receive value.now (held s buf.old)) s s.at buf.old result buf.new }
{
    let at = s.received;
    if value.len() > LONGEST_STREAM - at {
        return fail(s, Err(ReplayFault::TooLong));
    }
    base_lent::copy(value, &mut buf[at..]);
    s.received = at + value.len();
    s
}

// 21: a line asked for, of what was received so far.
fn give(mut s: State, key: &[u8], font: &[u8], editions: usize, layout: Layout, buf: &[u8]) -> State
    requires sound { Sound s buf.now }
    requires layout_value { sized_told (told key.now font.now layout) ≡ true }
    ensures { Kept (ask (judging (told key.now font.now layout) editions) (held s buf.now)) s s.at
        buf.now result buf.now }
{
    let n = s.received;
    let reached = request(&buf[0..n], s.place, key, font, editions, layout);
    s.place = reached.place;
    s.unprinted = reached.found;
    s.length = reached.length;
    let line = reached.line;
    s.line = line;
    s
}

// Whether the bytes are the first n of a line, and as many.
fn front_is(line: &[u8], n: usize, value: &[u8]) -> bool
    requires { n ≤ length line.now }
    ensures { result ≡ same value.now (take n line.now) }
{
    base_lists::compare(value, &line[0..n])
}

// 22: bytes printed, compared with the line given, which is then printed.
fn print(mut s: State, value: &[u8]) -> State
    requires { s.length ≤ length s.line }
    ensures { result ≡ printed_by value.now s }
{
    if !s.unprinted {
        return fail(s, Err(ReplayFault::NoLine));
    }
    s.unprinted = false;
    let line = s.line;
    if front_is(&line, s.length, value) {
        return s;
    }
    if s.differs == 0 {
        s.differs = s.event;
    }
    s
}

// One event, by its kind.
fn step(
    trace: &[u8],
    key: &[u8],
    font: &[u8],
    editions: usize,
    layout: Layout,
    mut s: State,
    buf: &mut [u8],
) -> State
    requires sound { Sound s buf.old }
    requires event_bound { s.event + 1 < 18446744073709551616 }
    requires layout_value { sized_told (told key.now font.now layout) ≡ true }
    ensures { Kept (step (judging (told key.now font.now layout) editions) trace.now (held s buf.old)
        (event_at trace.now s.at)) s (event_at trace.now s.at).end buf.old result buf.new }
{
    let e = event_at(trace, s.at);
    let start = e.start;
    let end = e.end;
    let kind = e.kind;
    s.event += 1;
    s.at = end;
    match kind {
        Kind::Received => take_in(s, &trace[start..end], buf),
        Kind::Asked => give(s, key, font, editions, layout, buf),
        Kind::Printed => print(s, &trace[start..end]),
        Kind::Bad => fail(s, Err(ReplayFault::Field)),
    }
}

// The first events of a trace, so many, one after the other, up to the first at fault.
fn run(
    trace: &[u8],
    limit: usize,
    key: &[u8],
    font: &[u8],
    editions: usize,
    layout: Layout,
    buf: &mut [u8],
) -> State
    requires longest_stream_in_bounds { longest_stream ≤ length buf.old }
    requires layout_value { sized_told (told key.now font.now layout) ≡ true }
    ensures { Ran (judging (told key.now font.now layout) editions) trace.now limit buf.old result
        buf.new }
{
    let mut s = begin();
    // A `while`: the events done are counted in the state, and a range beside it would count them a second time.
    while s.event < limit {
        if s.at >= trace.len() {
            return s;
        }
        s = step(trace, key, font, editions, layout, s, buf);
        let answer = s.answer;
        if !is_done(answer) {
            return s;
        }
    }
    s
}

// Whether key and font digest have their sizes.
fn are_sized(key: usize, font: usize) -> bool
    ensures { result ≡ are_sized key font }
{
    if key != KEY_LENGTH {
        return false;
    }
    font == DIGEST_LENGTH
}

// What refuses a call before any event: 2 for the sizes of key and font digest, then 4 for a buffer with too little room for a stream.
fn refusal(key: usize, font: usize, room: usize) -> Result<(), ReplayFault>
    ensures { result ≡ refusal_of key font room }
{
    let sized = are_sized(key, font);
    let small = room < LONGEST_STREAM;
    if !sized {
        return Err(ReplayFault::Sizes);
    }
    if small {
        return Err(ReplayFault::NoRoom);
    }
    Ok(())
}

// The call is refused.
fn refused(answer: Result<(), ReplayFault>) -> Replayed
    ensures { result ≡ replayed_as answer 0 0 }
{
    Replayed {
        answer,
        event: 0,
        received: 0,
    }
}

// Runs a trace from an empty stream, gathered in buf, and says at which event, from 1, the printed bytes first differ from the line given. The first
// event at fault decides, even after a difference; buf keeps what was received before it.
pub fn replay(
    trace: &[u8],
    key: &[u8],
    font: &[u8],
    editions: usize,
    layout: Layout,
    buf: &mut [u8],
) -> Replayed
    ensures value { result ≡ replay_answer (told key.now font.now layout) editions trace.now buf.old }
    ensures buf_after { buf.new ≡ replay_out (told key.now font.now layout) editions trace.now buf.old }
{
    let first = refusal(key.len(), font.len(), buf.len());
    if !is_done(first) {
        return refused(first);
    }
    let s = run(trace, trace.len(), key, font, editions, layout, buf);
    let answer = s.answer;
    if is_done(answer) {
        return Replayed {
            answer,
            event: s.differs,
            received: s.received,
        };
    }
    let event = s.event;
    Replayed {
        answer,
        event,
        received: s.received,
    }
}

// Nothing stood at an event.
fn none_stood(answer: Result<(), ReplayFault>, received: usize) -> Stood
    ensures { result ≡ none_stood answer received }
{
    Stood {
        answer,
        length: 0,
        line: [0u8; LONGEST_LINE],
        place: 0,
        printed: 0,
        received,
    }
}

// What stands at the next event of a trace.
fn stood_next(s: State, trace: &[u8]) -> Stood
    ensures { result ≡ stood_next trace.now s }
{
    let answer = s.answer;
    if !is_done(answer) {
        return none_stood(Ok(()), s.received);
    }
    if s.at >= trace.len() {
        return none_stood(Ok(()), s.received);
    }
    if !s.unprinted {
        return none_stood(Ok(()), s.received);
    }
    let e = event_at(trace, s.at);
    let kind = e.kind;
    let line = s.line;
    match kind {
        Kind::Received => none_stood(Ok(()), s.received),
        Kind::Asked => none_stood(Ok(()), s.received),
        Kind::Printed => {
            let printed = e.end - e.start;
            Stood {
                answer: Ok(()),
                length: s.length,
                line,
                place: e.start,
                printed,
                received: s.received,
            }
        }
        Kind::Bad => none_stood(Ok(()), s.received),
    }
}

// What stood at an event of a trace, counted from 1: the line given, and where the printed bytes stand in the trace. buf holds what was received before
// that event.
pub fn stood(
    trace: &[u8],
    event: usize,
    key: &[u8],
    font: &[u8],
    editions: usize,
    layout: Layout,
    buf: &mut [u8],
) -> Stood
    ensures value { result ≡ stood_answer (told key.now font.now layout) editions trace.now event buf.old }
    ensures buf_after { buf.new ≡ stood_out (told key.now font.now layout) editions trace.now event buf.old }
{
    let first = refusal(key.len(), font.len(), buf.len());
    if !is_done(first) {
        return none_stood(first, 0);
    }
    if event == 0 {
        return none_stood(Ok(()), 0);
    }
    let s = run(trace, event - 1, key, font, editions, layout, buf);
    stood_next(s, trace)
}

// The number of what a replay comes to.
pub fn replay_number(answer: Result<(), ReplayFault>) -> u32
    ensures { result ≡ replay_number answer }
{
    match answer {
        Ok(()) => 0,
        Err(ReplayFault::Sizes) => 2,
        Err(ReplayFault::NoRoom) => 4,
        Err(ReplayFault::Field) => 20,
        Err(ReplayFault::NoLine) => 21,
        Err(ReplayFault::TooLong) => 3,
    }
}
