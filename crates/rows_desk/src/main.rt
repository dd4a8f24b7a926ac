// Prints the rows that the second program makes of its own streams (tests/second, src/rows/desk.rs): for each case on standard input what the desk answers,
// and the digest of its output. A case is its head, its name, and the first and the last of its stream's bytes, with one byte again and again between
// them. The table is the stream's own index, with one entry changed where the case says so.
#![tactic(auto)]

use line_layout::layout_of;
use read_call::LONGEST_STREAM;
use rows_case::{MOST_CASES, cell, hex_cell, number_in, part, say};
use std::io::Read;

// The head of a case has so many bytes; and the longest table and list that a case has.
const HEAD: usize = 76;

const LONGEST_TABLE: usize = 520;

const LONGEST_LIST: usize = 1000;

// What the index is built with: the key and font digest of their sizes, both editions, and no layout.
const KEY: usize = 16;

const FONT: usize = 32;

const BOTH: usize = 3;

// An entry or an item is less.
const ENTRIES: usize = 0x1_0000_0000;

// What stands in the output before a call, and the hash instance that tells what stands there behind it.
const PAINT: u8 = 0xA5;

const INSTANCE: usize = 1;

const DIGEST_LENGTH: usize = 32;

// The lengths of key and font digest, the editions, the layout and the table's count.
#[derive(Clone, Copy)]
struct Told {
    key: usize,
    font: usize,
    editions: usize,
    layout: usize,
    count: usize,
}

fn told_in(head: &[u8]) -> Told {
    Told {
        key: number_in(head, 5),
        font: number_in(head, 6),
        editions: number_in(head, 7),
        layout: number_in(head, 8),
        count: number_in(head, 10),
    }
}

// What the desk answers, and the digest of its output.
fn desk_row(
    rt: &impl Print,
    told: Told,
    stream: &[u8],
    table: &[u32],
    list: &[u32],
    out: &mut [u8],
) {
    let key = rows_case::key();
    let font = rows_case::font();
    let mut digest = [0u8; DIGEST_LENGTH];
    let answer = desk_call::desk(
        stream,
        part(&key, 0, told.key),
        part(&font, 0, told.font),
        told.editions,
        layout_of(told.layout),
        table,
        told.count,
        list,
        out,
    );
    let report = desk_call::desk_report(answer);
    // Never refused: no stream is longer than a message may be.
    let _ = digest_call::digest(INSTANCE, out, &mut digest);
    cell(rt, report.number as usize);
    cell(rt, report.length);
    cell(rt, report.item);
    hex_cell(rt, &digest);
}

// The same with an output of the room that number 18 says.
fn room_row(rt: &impl Print, head: &[u8], stream: &[u8], table: &[u32], list: &[u32]) {
    let mut out = [PAINT; LONGEST_STREAM];
    let room = number_in(head, 18);
    if room > LONGEST_STREAM {
        return;
    }
    desk_row(rt, told_in(head), stream, table, list, &mut out[0..room]);
}

fn entry_in(head: &[u8], i: usize) -> u32 {
    (number_in(head, i) % ENTRIES) as u32
}

// An entry or an item put where there is one.
fn put(table: &mut [u32], at: usize, entry: u32) {
    if at < table.len() {
        table[at] = entry;
    }
}

// The same with its list: numbers 13 to 17 say how many items come first and which, how many behind them and which two.
fn list_row(rt: &impl Print, head: &[u8], stream: &[u8], table: &[u32]) {
    let mut list = [entry_in(head, 14); LONGEST_LIST];
    let many = number_in(head, 13);
    let items = std::num::wrapping_add_usize(many, number_in(head, 15));
    if items > LONGEST_LIST {
        return;
    }
    put(&mut list, many, entry_in(head, 16));
    put(
        &mut list,
        std::num::wrapping_add_usize(many, 1),
        entry_in(head, 17),
    );
    room_row(rt, head, stream, table, &list[0..items]);
}

// The stream's own index, under the rules' key and font digest.
fn indexed(stream: &[u8], table: &mut [u32]) {
    let key = rows_case::key();
    let font = rows_case::font();
    index_call::update(
        stream,
        part(&key, 0, KEY),
        part(&font, 0, FONT),
        BOTH,
        layout_of(0),
        table,
        0,
    );
}

// The same with that index: number 9 says its length, 11 and 12 which entry is another and what it is then.
fn table_row(rt: &impl Print, head: &[u8], stream: &[u8]) {
    let mut table = [0u32; LONGEST_TABLE];
    let entries = number_in(head, 9);
    if entries > LONGEST_TABLE {
        return;
    }
    indexed(stream, &mut table);
    put(&mut table, number_in(head, 11), entry_in(head, 12));
    list_row(rt, head, stream, &table[0..entries]);
}

// The row of a case behind its name, with a buffer of its stream's length; false where it can't be read. Numbers 2 to 4 of a head say which bytes.
fn row(rt: &impl Print, input: &mut impl Read, head: &[u8], stream: &mut [u8]) -> bool {
    if !rows_case::around_taken(
        input,
        stream,
        number_in(head, 2),
        number_in(head, 3),
        number_in(head, 4),
    ) {
        return false;
    }
    table_row(rt, head, stream);
    say(rt, b"\n");
    true
}

// One case from standard input; false where there is none left. Its head begins with the lengths of its name and of its stream.
fn one(rt: &impl Print, input: &mut impl Read, buffer: &mut [u8]) -> bool {
    let mut head = [0u8; HEAD];
    if !rows_case::taken(input, &mut head) {
        return false;
    }
    let n = number_in(&head, 1);
    if n > buffer.len() {
        return false;
    }
    if !rows_case::name_passed(rt, input, number_in(&head, 0)) {
        return false;
    }
    row(rt, input, &head, &mut buffer[0..n])
}

fn main(rt: HostRuntime) {
    let mut input = rt.stdin();
    let mut buffer = rows_case::buffer();
    for _ in 0..MOST_CASES {
        if !one(&rt, &mut input, &mut buffer) {
            return;
        }
    }
}
