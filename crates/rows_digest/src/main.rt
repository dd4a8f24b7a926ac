// Prints the rows that the second program makes of its own digests (tests/second, src/rows/digest.rs): one call for each case on standard
// input, which is an instance, the length of a message and the room for the digest, four bytes each, the high byte first.
#![tactic(auto)]

use rows_case::{MOST_CASES, cell, number_in, say};
use std::io::Read;

// A case has so many bytes; and the longest room that a case has.
const CASE: usize = 12;

const LONGEST_ROOM: usize = 40;

// What a room holds before the call.
const BEFORE: u8 = 0xA5;

fn row(rt: &impl Print, instance: usize, message: &[u8], out: &mut [u8]) {
    let answer = digest_call::digest(instance, message, out);
    rows_case::number(rt, instance);
    cell(rt, message.len());
    cell(rt, out.len());
    cell(rt, digest_call::digest_number(answer) as usize);
    cell(rt, digest_call::digest_count(answer));
    rows_case::hex_cell(rt, out);
    say(rt, b"\n");
}

// The row of a message whose byte i is 7*i and the message's length.
fn case_row(rt: &impl Print, instance: usize, room: usize, message: &mut [u8]) {
    let mut out = [BEFORE; LONGEST_ROOM];
    if room > LONGEST_ROOM {
        return;
    }
    base_ramp::fill(message, (message.len() % 256) as u8, 7);
    row(rt, instance, message, &mut out[0..room]);
}

// One case from standard input; false where there is none left.
fn one(rt: &impl Print, input: &mut impl Read, buffer: &mut [u8]) -> bool {
    let mut case = [0u8; CASE];
    if !rows_case::taken(input, &mut case) {
        return false;
    }
    let length = number_in(&case, 1);
    if length > buffer.len() {
        return false;
    }
    case_row(
        rt,
        number_in(&case, 0),
        number_in(&case, 2),
        &mut buffer[0..length],
    );
    true
}

fn main(rt: HostRuntime) {
    let mut input = rt.stdin();
    let mut buffer = rows_case::buffer();
    for _ in 0..MOST_CASES {
        if !one(&rt, &mut input, &mut buffer) {
            return;
        }
    }
}
