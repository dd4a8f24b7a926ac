// Prints the rows that the second program makes of its own bundles (tests/second, src/rows/bundle.rs): what a call of a bundle gives for each
// case on standard input. A case is its head, its name and two parts: of the writer the bundle's name and the rows, of the other calls the
// bundle and, for rows, the character. The head has the lengths of those, the room for what comes out, and the call: 0 to write, 1 to
// read, 2 to digest, 3 for the name, 4 for the rows; four bytes each, the high byte first.
#![tactic(auto)]

use rows_case::{MOST_CASES, cell, end_in, number_in, part, say};
use std::io::Read;

// The head of a case has so many bytes; and the longest room that a case has.
const HEAD: usize = 20;

const LONGEST_ROOM: usize = 256;

// What a room holds before the call.
const BEFORE: u8 = 0xEE;

// The calls that are not to write.
const READS: usize = 1;

const DIGESTS: usize = 2;

const NAMES: usize = 3;

const ROWS: usize = 4;

// Where the name and the parts of a case end in its bytes, its room and its call.
#[derive(Clone, Copy)]
struct Case {
    name: usize,
    one: usize,
    two: usize,
    room: usize,
    call: usize,
}

// The row's last cell.
fn hex(rt: &impl Print, bytes: &[u8]) {
    rows_case::hex_cell(rt, bytes);
    say(rt, b"\n");
}

fn written(rt: &impl Print, name: &[u8], rows: &[u8], out: &mut [u8]) {
    let answer = bundle_write::write(name, rows, out);
    cell(rt, bundle_write::write_number(answer) as usize);
    cell(rt, bundle_write::write_length(answer));
    hex(rt, out);
}

fn read(rt: &impl Print, bundle: &[u8]) {
    let answer = bundle_read::read(bundle);
    cell(rt, bundle_write::read_number(answer) as usize);
    cell(rt, bundle_write::read_length(answer));
    hex(rt, b"");
}

fn digested(rt: &impl Print, bundle: &[u8], out: &mut [u8]) {
    let answer = bundle_write::digest_of(bundle, out);
    cell(rt, bundle_write::digest_number(answer) as usize);
    cell(rt, 0);
    hex(rt, out);
}

// Where a part stands, how long it is, and its bytes.
fn placed(rt: &impl Print, first: usize, bytes: &[u8]) {
    cell(rt, first);
    cell(rt, bytes.len());
    hex(rt, bytes);
}

fn character(bytes: &[u8]) -> u8 {
    if bytes.len() == 0 {
        return 0;
    }
    bytes[0]
}

fn called(rt: &impl Print, call: usize, one: &[u8], two: &[u8], out: &mut [u8]) {
    if call == READS {
        read(rt, one);
    } else if call == DIGESTS {
        digested(rt, one, out);
    } else if call == NAMES {
        placed(
            rt,
            bundle_write::name_part(one).first,
            bundle_write::name(one),
        );
    } else if call == ROWS {
        let c = character(two);
        placed(
            rt,
            bundle_write::rows_part(one, c).first,
            bundle_write::rows(one, c),
        );
    } else {
        written(rt, one, two, out);
    }
}

// The row of a case, with a room of the length that it asks for.
fn case_row(rt: &impl Print, c: Case, all: &[u8]) {
    let mut out = [BEFORE; LONGEST_ROOM];
    let room = c.room;
    if room > LONGEST_ROOM {
        return;
    }
    say(rt, part(all, 0, c.name));
    called(
        rt,
        c.call,
        part(all, c.name, c.one),
        part(all, c.one, c.two),
        &mut out[0..room],
    );
}

fn case_of(h: &[u8]) -> Case {
    let name = number_in(h, 0);
    let one = end_in(h, 1, name);
    Case {
        name,
        one,
        two: end_in(h, 2, one),
        room: number_in(h, 3),
        call: number_in(h, 4),
    }
}

// One case from standard input; false where there is none left.
fn one(rt: &impl Print, input: &mut impl Read, buffer: &mut [u8]) -> bool {
    let mut head = [0u8; HEAD];
    if !rows_case::taken(input, &mut head) {
        return false;
    }
    let c = case_of(&head);
    if !rows_case::part_taken(input, buffer, 0, c.two) {
        return false;
    }
    case_row(rt, c, buffer);
    true
}

fn main(rt: HostRuntime) {
    let mut input = rt.stdin();
    let mut buffer = rows_case::buffer();
    for _ in 0..MOST_CASES {
        if !one(&rt, &mut input, &mut buffer) {
            return;
        }
    }
}
