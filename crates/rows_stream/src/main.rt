// Prints the rows that the second program makes of its own streams (tests/second, src/rows/stream.rs): every reading of each case on
// standard input, good, damaged or at a limit, as a walker reads it from the case's place to the end of its stream. A case is its head, its
// name, and the first and the last bytes of its stream, with one byte again and again between them.
#![tactic(auto)]

use line_layout::layout_of;
use read_call::Asked;
use read_numbers::{END, Report, numbers};
use read_walk::Step;
use rows_case::{LONGEST_CASE, LONGEST_NAME, MOST_CASES, cell, number_in, part, say};
use std::io::Read;

// The head of a case has so many bytes; and the longest line buffer that a case has.
const HEAD: usize = 48;

const LONGEST_LINE: usize = 255;

// Each reading ends further on, so one more than the longest stream has bytes is enough.
const MOST_TURNS: usize = LONGEST_CASE + 1;

// What a reader is told: the place to read from, the lengths of line buffer, key and font digest, the work allowed, the editions and the layout.
#[derive(Clone, Copy)]
struct Case {
    place: usize,
    line: usize,
    key: usize,
    font: usize,
    allowed: usize,
    editions: usize,
    layout: usize,
}

// The line in square brackets, or a dash where none is given.
fn shown(rt: &impl Print, line: &[u8], length: usize) {
    if length == 0 {
        say(rt, b" -\n");
        return;
    }
    say(rt, b" [");
    say(rt, part(line, 0, length));
    say(rt, b"]\n");
}

// The number of an answer; the end of the stream has a word of its own.
fn number(rt: &impl Print, its: Report) {
    if its.outcome == END {
        say(rt, b" end");
        return;
    }
    cell(rt, its.number as usize);
}

// The next stretch itself: where its first byte stands, and its length.
fn span(rt: &impl Print, stream: &[u8], from: usize) {
    cell(rt, read_stretch::next_span(stream, from).first);
    cell(rt, read_stretch::next_stretch(stream, from).len());
}

// One step of a walker and its row.
fn row(
    rt: &impl Print,
    name: &[u8],
    stream: &[u8],
    from: usize,
    key: &[u8],
    font: &[u8],
    asked: Asked,
    line: &mut [u8],
) -> Step {
    let step = read_walk::walked(stream, from, key, font, asked, line);
    let reading = step.reading;
    let answer = reading.answer;
    let its = numbers(answer);
    say(rt, name);
    cell(rt, from);
    span(rt, stream, from);
    cell(rt, reading.first);
    cell(rt, reading.closing);
    number(rt, its);
    cell(rt, its.length);
    cell(rt, its.calls);
    cell(rt, reading.edition);
    cell(rt, reading.job);
    shown(rt, line, its.length);
    step
}

// All readings of a case, each from where the walker stands after the one before. The two places of a stretch differ; those of the end, and
// of a call that is refused, do not: nothing is read after these.
fn case_rows(
    rt: &impl Print,
    name: &[u8],
    stream: &[u8],
    place: usize,
    key: &[u8],
    font: &[u8],
    asked: Asked,
    line: &mut [u8],
) {
    let mut from = place;
    for _ in 0..MOST_TURNS {
        let step = row(rt, name, stream, from, key, font, asked, line);
        let reading = step.reading;
        from = step.at;
        if reading.first >= from {
            return;
        }
    }
}

// The readings with the rules' key and font digest, and a line buffer of the length that the case asks for.
fn told_rows(rt: &impl Print, c: Case, name: &[u8], stream: &[u8]) {
    let key = rows_case::key();
    let font = rows_case::font();
    let mut line = [0u8; LONGEST_LINE];
    let l = c.line;
    if l > LONGEST_LINE {
        return;
    }
    case_rows(
        rt,
        name,
        stream,
        c.place,
        part(&key, 0, c.key),
        part(&font, 0, c.font),
        Asked {
            editions: c.editions,
            allowed: c.allowed,
            layout: layout_of(c.layout),
        },
        &mut line[0..l],
    );
}

fn case_of(h: &[u8]) -> Case {
    Case {
        place: number_in(h, 5),
        line: number_in(h, 6),
        key: number_in(h, 7),
        font: number_in(h, 8),
        allowed: number_in(h, 9),
        editions: number_in(h, 10),
        layout: number_in(h, 11),
    }
}

// The case with its name and a buffer of its stream's length; false where either cannot be read. A head begins with the lengths of the name, of
// the stream, of its first and of its last bytes, and the byte between them.
fn named(rt: &impl Print, input: &mut impl Read, h: &[u8], stream: &mut [u8]) -> bool {
    let mut name = [0u8; LONGEST_NAME];
    let n = number_in(h, 0);
    if !rows_case::part_taken(input, &mut name, 0, n) {
        return false;
    }
    if !rows_case::around_taken(
        input,
        stream,
        number_in(h, 2),
        number_in(h, 3),
        number_in(h, 4),
    ) {
        return false;
    }
    told_rows(rt, case_of(h), part(&name, 0, n), stream);
    true
}

// One case from standard input; false where there is none left.
fn one(rt: &impl Print, input: &mut impl Read, buffer: &mut [u8]) -> bool {
    let mut head = [0u8; HEAD];
    if !rows_case::taken(input, &mut head) {
        return false;
    }
    let n = number_in(&head, 1);
    if n > buffer.len() {
        return false;
    }
    named(rt, input, &head, &mut buffer[0..n])
}

fn main(rt: HostRuntime) {
    let mut input = rt.stdin();
    let mut buffer = rows_case::buffer();
    for _ in 0..MOST_CASES {
        if !one(&rt, &mut input, &mut buffer) {
            return;
        }
    }
}
