// Prints the rows that the second program makes of its own permutation (tests/second, src/rows/permute.rs): whether the formula gives the table's
// products, every permitted size at a few counts of rounds over three states, forwards and backwards, the first round byte by byte beside it, and what
// is refused.
#![tactic(auto)]

use gage_spec::{LARGEST, ROUNDS};
use rows_case::{cell, hex_cell, part, say};

// The permitted sizes in bytes, and sizes that are not.
const PERMITTED: [usize; 10] = [29, 30, 32, 34, 36, 40, 48, 64, 68, 72];

const NOT_PERMITTED: [usize; 5] = [0, 28, 31, 65, 73];

// Counts of rounds, and counts that are none: the last is the largest number.
const COUNTS: [usize; 5] = [1, 2, ROUNDS / 2, ROUNDS, 255];

const NO_COUNTS: [usize; 3] = [0, 256, 0xFFFF_FFFF_FFFF_FFFF];

// The first n bytes of a state.
fn hex(rt: &impl Print, state: [u8; LARGEST], n: usize) {
    hex_cell(rt, part(&state, 0, n));
}

// Byte i of the ramp is 31*i + n, mod 256.
fn ramp(n: usize) -> [u8; LARGEST] {
    let mut s = [0u8; LARGEST];
    base_ramp::fill(&mut s, (n % 256) as u8, 31);
    s
}

// Size, rounds and kind of a row.
fn begin(rt: &impl Print, call: &[u8], n: usize, k: usize, kind: &[u8]) {
    say(rt, call);
    cell(rt, n);
    cell(rt, k);
    say(rt, b" ");
    say(rt, kind);
}

// The first round byte by byte, which is the substitution with the first leader, 0, and whether it is what the planes gave.
fn first_round(rt: &impl Print, n: usize, kind: &[u8], s: [u8; LARGEST], planes: [u8; LARGEST]) {
    say(rt, b"substitute");
    cell(rt, n);
    say(rt, b" ");
    say(rt, kind);
    let bytes = gage_substitute::substitute(s, n, 0);
    hex(rt, bytes, n);
    if base_lists::compare(&bytes, &planes) {
        say(rt, b" same\n");
    } else {
        say(rt, b" changed\n");
    }
}

// One state, permuted and unpermuted.
fn rows(rt: &impl Print, n: usize, k: usize, kind: &[u8], s: [u8; LARGEST]) {
    begin(rt, b"permute", n, k, kind);
    let there = gage_permute::permute(s, n, k).state;
    hex(rt, there, n);
    begin(rt, b"\nunpermute", n, k, kind);
    let back = gage_permute::unpermute(s, n, k).state;
    hex(rt, back, n);
    say(rt, b"\n");
    if k == 1 {
        first_round(rt, n, kind, s, there);
    }
}

fn permuted(rt: &impl Print, n: usize) {
    for k in COUNTS {
        rows(rt, n, k, b"zero", [0u8; LARGEST]);
        rows(rt, n, k, b"ones", [0xFFu8; LARGEST]);
        rows(rt, n, k, b"ramp", ramp(n));
    }
}

// Refused by both calls, and the state as it was.
fn refused(rt: &impl Print, n: usize, k: usize) {
    let before = ramp(n);
    let p = gage_permute::permute(before, n, k);
    let there = p.answer;
    let between = p.state;
    let q = gage_permute::unpermute(between, n, k);
    let back = q.answer;
    let after = q.state;
    say(rt, b"refused");
    cell(rt, n);
    cell(rt, k);
    cell(rt, gage_spec::number(there) as usize);
    cell(rt, gage_spec::number(back) as usize);
    if base_lists::compare(&before, &after) {
        say(rt, b" same\n");
    } else {
        say(rt, b" changed\n");
    }
}

fn no_rounds(rt: &impl Print, n: usize) {
    for k in NO_COUNTS {
        refused(rt, n, k);
    }
}

fn permitted_rows(rt: &impl Print) {
    for n in PERMITTED {
        permuted(rt, n);
        no_rounds(rt, n);
    }
}

fn refused_rows(rt: &impl Print) {
    for n in NOT_PERMITTED {
        refused(rt, n, ROUNDS);
        no_rounds(rt, n);
    }
}

fn products_row(rt: &impl Print) {
    if gage_cells::table_holds() {
        say(rt, b"products same\n");
    } else {
        say(rt, b"products changed\n");
    }
}

fn main(rt: HostRuntime) {
    products_row(&rt);
    permitted_rows(&rt);
    refused_rows(&rt);
}
