// Prints the rows that the second program makes of its own seals and frames (tests/second, src/rows/call.rs): what sealing, opening,
// writing or converting gives for each case on standard input. A case is its head, its name and the call's five parts: key, nonce, associated
// data (of a frame the font digest), text (or line, or stretch), seal (of a frame the job). The head has the lengths of those, the room for
// what comes out, which call, the cipher's instance and a frame's layout: four bytes each, the high byte first.
#![tactic(auto)]

use convert_spec::ConvertFault;
use digest_call::DIGEST;
use frame_write::{FrameRefusal, Written};
use ingage_answers::{OpenRefusal, SealRefusal};
use line_layout::{Layout, layout_of};
use rows_case::{MOST_CASES, cell, end_in, hex_cell, number_in, part, say};
use std::io::Read;

// The head of a case has so many bytes; and the longest room and seal that a case has.
const HEAD: usize = 40;

const LONGEST_ROOM: usize = 5000;

const LONGEST_SEAL: usize = 32;

// What a room holds before the call, and the length from which on it is printed as its digest.
const BEFORE: u8 = 0xEE;

const PRINTED_AS_DIGEST: usize = 4096;

// The calls that are not to seal.
const OPENS: usize = 1;

const WRITES: usize = 2;

const WRITES_TWO: usize = 3;

const TO_ONE: usize = 4;

const TO_TWO: usize = 5;

// Where the name and the parts of a case end in its bytes, its room, its call, its instance and its layout.
#[derive(Clone, Copy)]
struct Case {
    name: usize,
    key: usize,
    nonce: usize,
    associated: usize,
    text: usize,
    seal: usize,
    room: usize,
    call: usize,
    instance: usize,
    layout: usize,
}

// The number of a call, the length of a frame, and the count.
#[derive(Clone, Copy)]
struct Outcome {
    number: u32,
    length: usize,
    count: usize,
}

// A room, or the digest of one that is too long for a row.
fn shown(rt: &impl Print, bytes: &[u8]) {
    let mut digest = [0u8; DIGEST];
    if bytes.len() < PRINTED_AS_DIGEST {
        hex_cell(rt, bytes);
        return;
    }
    // Bytes that are too long for a digest show as zeros.
    let _ = digest_call::digest(1, bytes, &mut digest);
    hex_cell(rt, &digest);
}

fn of_seal(answer: Result<usize, SealRefusal>) -> Outcome {
    Outcome {
        number: ingage_answers::seal_number(answer),
        length: 0,
        count: ingage_answers::seal_count(answer),
    }
}

fn of_open(answer: Result<usize, OpenRefusal>) -> Outcome {
    Outcome {
        number: ingage_answers::open_number(answer),
        length: 0,
        count: ingage_answers::open_count(answer),
    }
}

fn of_write(answer: Result<Written, FrameRefusal>) -> Outcome {
    Outcome {
        number: frame_write::write_number(answer),
        length: frame_write::write_length(answer),
        count: frame_write::write_count(answer),
    }
}

// The converter's answer has no count.
fn of_convert(answer: Result<usize, ConvertFault>) -> Outcome {
    Outcome {
        number: convert_call::number(answer),
        length: convert_call::frame_length(answer),
        count: 0,
    }
}

// The calls of a frame; text is the line, or the stretch to convert.
fn framed(
    call: usize,
    layout: Layout,
    key: &[u8],
    nonce: &[u8],
    font: &[u8],
    job: &[u8],
    text: &[u8],
    out: &mut [u8],
) -> Outcome {
    if call == TO_ONE {
        return of_convert(convert_call::to_one(text, key, font, layout, nonce, out));
    }
    if call == TO_TWO {
        return of_convert(convert_call::to_two(text, key, font, layout, nonce, job, out));
    }
    if call == WRITES_TWO {
        return of_write(frame_write::write_two(key, nonce, font, layout, job, text, out));
    }
    of_write(frame_write::write(key, nonce, font, layout, text, out))
}

fn called(
    call: usize,
    instance: usize,
    layout: Layout,
    key: &[u8],
    nonce: &[u8],
    associated: &[u8],
    text: &[u8],
    out: &mut [u8],
    seal: &mut [u8],
) -> Outcome {
    if call == OPENS {
        return of_open(ingage_call::open(instance, key, nonce, associated, text, seal, out));
    }
    if call >= WRITES {
        return framed(call, layout, key, nonce, associated, seal, text, out);
    }
    of_seal(ingage_call::seal(instance, key, nonce, associated, text, out, seal))
}

// The call with the parts of a case.
fn parted(c: Case, all: &[u8], out: &mut [u8], seal: &mut [u8]) -> Outcome {
    called(
        c.call,
        c.instance,
        layout_of(c.layout),
        part(all, c.name, c.key),
        part(all, c.key, c.nonce),
        part(all, c.nonce, c.associated),
        part(all, c.associated, c.text),
        out,
        seal,
    )
}

fn row(rt: &impl Print, c: Case, all: &[u8], out: &mut [u8], seal: &mut [u8]) {
    base_lists::copy(part(all, c.text, c.seal), seal);
    let t = parted(c, all, out, seal);
    say(rt, part(all, 0, c.name));
    cell(rt, t.number as usize);
    cell(rt, t.length);
    cell(rt, t.count);
    shown(rt, out);
    hex_cell(rt, seal);
    say(rt, b"\n");
}

// The row of a case, with buffers of the lengths that it asks for.
fn case_row(rt: &impl Print, c: Case, all: &[u8]) {
    let mut out = [BEFORE; LONGEST_ROOM];
    let mut seal = [0u8; LONGEST_SEAL];
    let n = part(all, c.text, c.seal).len();
    let room = c.room;
    if room > LONGEST_ROOM {
        return;
    }
    if n > LONGEST_SEAL {
        return;
    }
    row(rt, c, all, &mut out[0..room], &mut seal[0..n]);
}

fn case_of(h: &[u8]) -> Case {
    let name = number_in(h, 0);
    let key = end_in(h, 1, name);
    let nonce = end_in(h, 2, key);
    let associated = end_in(h, 3, nonce);
    let text = end_in(h, 4, associated);
    let seal = end_in(h, 5, text);
    Case {
        name,
        key,
        nonce,
        associated,
        text,
        seal,
        room: number_in(h, 6),
        call: number_in(h, 7),
        instance: number_in(h, 8),
        layout: number_in(h, 9),
    }
}

// One case from standard input; false where there is none left.
fn one(rt: &impl Print, input: &mut impl Read, buffer: &mut [u8]) -> bool {
    let mut head = [0u8; HEAD];
    if !rows_case::taken(input, &mut head) {
        return false;
    }
    let c = case_of(&head);
    if !rows_case::part_taken(input, buffer, 0, c.seal) {
        return false;
    }
    case_row(rt, c, buffer);
    true
}

fn main(rt: HostRuntime) {
    let mut input = rt.stdin();
    let mut buffer = rows_case::buffer();
    for _ in 0..MOST_CASES {
        if !one(&rt, &mut input, &mut buffer) {
            return;
        }
    }
}
