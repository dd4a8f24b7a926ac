// Prints the rows that the second program makes of its own streams (tests/second, src/rows/accept.rs): for each case on standard input what accepting its
// stream gives, or the nonce of its bytes. A case is its head, its name, and the first and the last of its bytes, with one byte again and again between
// them.
#![tactic(auto)]

use accept_call::accept_number;
use line_layout::layout_of;
use rows_case::{MOST_CASES, cell, number_in, part, say};
use std::io::Read;

// The head of a case has so many bytes.
const HEAD: usize = 40;

// The call that asks for a nonce; the other accepts.
const NONCE: usize = 1;

// Of a stream: the lengths of key and font digest, the editions and the layout.
#[derive(Clone, Copy)]
struct Asked {
    key: usize,
    font: usize,
    editions: usize,
    layout: usize,
}

fn asked_in(head: &[u8]) -> Asked {
    Asked {
        key: number_in(head, 5),
        font: number_in(head, 6),
        editions: number_in(head, 7),
        layout: number_in(head, 8),
    }
}

// What accepting gives.
fn accept_row(rt: &impl Print, asked: Asked, stream: &[u8]) {
    let key = rows_case::key();
    let font = rows_case::font();
    let accepted = accept_call::accept(
        stream,
        part(&key, 0, asked.key),
        part(&font, 0, asked.font),
        asked.editions,
        layout_of(asked.layout),
    );
    let answer = accepted.answer;
    cell(rt, accept_number(answer) as usize);
    cell(rt, accepted.first);
    cell(rt, accepted.closing);
}

// The nonce of the bytes.
fn nonce_row(rt: &impl Print, stretch: &[u8]) {
    let nonce = read_nonce::nonce_of(stretch);
    let bytes = nonce.bytes;
    cell(rt, nonce.found as usize);
    rows_case::hex_cell(rt, &bytes);
}

// The row of a case behind its name, with a buffer of its bytes' length; false where they can't be read. Numbers 2 to 4 of a head say which bytes.
fn row(rt: &impl Print, input: &mut impl Read, head: &[u8], bytes: &mut [u8]) -> bool {
    if !rows_case::around_taken(
        input,
        bytes,
        number_in(head, 2),
        number_in(head, 3),
        number_in(head, 4),
    ) {
        return false;
    }
    if number_in(head, 9) == NONCE {
        nonce_row(rt, bytes);
    } else {
        accept_row(rt, asked_in(head), bytes);
    }
    say(rt, b"\n");
    true
}

// One case from standard input; false where there is none left. Its head begins with the lengths of its name and of its bytes.
fn one(rt: &impl Print, input: &mut impl Read, buffer: &mut [u8]) -> bool {
    let mut head = [0u8; HEAD];
    if !rows_case::taken(input, &mut head) {
        return false;
    }
    let n = number_in(&head, 1);
    if n > buffer.len() {
        return false;
    }
    if !rows_case::name_passed(rt, input, number_in(&head, 0)) {
        return false;
    }
    row(rt, input, &head, &mut buffer[0..n])
}

fn main(rt: HostRuntime) {
    let mut input = rt.stdin();
    let mut buffer = rows_case::buffer();
    for _ in 0..MOST_CASES {
        if !one(&rt, &mut input, &mut buffer) {
            return;
        }
    }
}
