// Prints the rows that the second program makes of its own traces (tests/second, src/rows/replay.rs): for each case on standard input what a replay of its
// trace gives and leaves, or what stood at an event. A case is its head, its name, and the first and the last of its bytes, with one byte again and again
// between them.
#![tactic(auto)]

ghost use Rattle.std.specs.Prelude.{◌≡◌, length};

use line_layout::layout_of;
use replay_call::replay_number;
use rows_case::{MOST_CASES, cell, hex_cell, number_in, part, say};
use std::io::Read;

// The head of a case has so many bytes.
const HEAD: usize = 48;

// The longest buffer that a case lends, and what stands in it before a call.
const ROOM: usize = 65544;

const PAINT: u8 = 0xEE;

// The call that asks what stood at an event; the other replays.
const STOOD: usize = 1;

// The hash instance that tells what was received, that of the greatest rate.
const INSTANCE: usize = 10;

const DIGEST_LENGTH: usize = 32;

// The lengths of key and font digest, the editions, the layout and the event.
#[derive(Clone, Copy)]
struct Asked {
    key: usize,
    font: usize,
    editions: usize,
    layout: usize,
    event: usize,
}

fn asked_in(head: &[u8]) -> Asked {
    Asked {
        key: number_in(head, 5),
        font: number_in(head, 6),
        editions: number_in(head, 7),
        layout: number_in(head, 8),
        event: number_in(head, 11),
    }
}

// A buffer before a call.
fn painted() -> [u8; ROOM]
    ensures { 65544 ≡ length result }
{
    [PAINT; ROOM]
}

// What a call left in a buffer: the digest of what was received, and whether all behind it is as it was, 1 or 0.
fn left(rt: &impl Print, stream: &[u8], received: usize) {
    let paint = painted();
    let mut digest = [0u8; DIGEST_LENGTH];
    let n = stream.len();
    // Never refused: no stream is longer than a message may be.
    let _ = digest_call::digest(INSTANCE, part(stream, 0, received), &mut digest);
    hex_cell(rt, &digest);
    if base_lists::compare(part(stream, received, n), part(&paint, received, n)) {
        cell(rt, 1);
    } else {
        cell(rt, 0);
    }
}

fn replay_row(rt: &impl Print, asked: Asked, trace: &[u8], stream: &mut [u8]) {
    let key = rows_case::key();
    let font = rows_case::font();
    let replayed = replay_call::replay(
        trace,
        part(&key, 0, asked.key),
        part(&font, 0, asked.font),
        asked.editions,
        layout_of(asked.layout),
        stream,
    );
    let answer = replayed.answer;
    cell(rt, replay_number(answer) as usize);
    cell(rt, replayed.event);
    cell(rt, replayed.received);
    left(rt, stream, replayed.received);
}

fn stood_row(rt: &impl Print, asked: Asked, trace: &[u8], stream: &mut [u8]) {
    let key = rows_case::key();
    let font = rows_case::font();
    let stood = replay_call::stood(
        trace,
        asked.event,
        part(&key, 0, asked.key),
        part(&font, 0, asked.font),
        asked.editions,
        layout_of(asked.layout),
        stream,
    );
    let answer = stood.answer;
    let line = stood.line;
    cell(rt, replay_number(answer) as usize);
    cell(rt, stood.length);
    cell(rt, stood.place);
    cell(rt, stood.printed);
    cell(rt, stood.received);
    hex_cell(rt, &line);
    left(rt, stream, stood.received);
}

// The cells of a case with its trace and the buffer that it lends. Number 10 of a head says which call.
fn called(rt: &impl Print, head: &[u8], trace: &[u8], stream: &mut [u8]) {
    if number_in(head, 10) == STOOD {
        stood_row(rt, asked_in(head), trace, stream);
        return;
    }
    replay_row(rt, asked_in(head), trace, stream);
}

// The same with as much of a buffer as number 9 says; false where it has not as much.
fn lent(rt: &impl Print, head: &[u8], trace: &[u8], buffer: &mut [u8]) -> bool {
    let room = number_in(head, 9);
    if room > buffer.len() {
        return false;
    }
    called(rt, head, trace, &mut buffer[0..room]);
    say(rt, b"\n");
    true
}

// The row of a case behind its name, with a buffer of its bytes' length; false where they can't be read. Numbers 2 to 4 of a head say which bytes.
fn row(rt: &impl Print, input: &mut impl Read, head: &[u8], trace: &mut [u8]) -> bool {
    let mut stream = painted();
    if !rows_case::around_taken(
        input,
        trace,
        number_in(head, 2),
        number_in(head, 3),
        number_in(head, 4),
    ) {
        return false;
    }
    lent(rt, head, trace, &mut stream)
}

// One case from standard input; false where there is none left. Its head begins with the lengths of its name and of its bytes.
fn one(rt: &impl Print, input: &mut impl Read, buffer: &mut [u8]) -> bool {
    let mut head = [0u8; HEAD];
    if !rows_case::taken(input, &mut head) {
        return false;
    }
    let n = number_in(&head, 1);
    if n > buffer.len() {
        return false;
    }
    if !rows_case::name_passed(rt, input, number_in(&head, 0)) {
        return false;
    }
    row(rt, input, &head, &mut buffer[0..n])
}

fn main(rt: HostRuntime) {
    let mut input = rt.stdin();
    let mut buffer = rows_case::buffer();
    for _ in 0..MOST_CASES {
        if !one(&rt, &mut input, &mut buffer) {
            return;
        }
    }
}
