// Prints the rows that the second program makes of its own indexes (tests/second, src/rows/index.rs): one call for each case on standard input, on the
// table and the count that the call before it left. A case is its head, its name, and the first and the last bytes of its stream, with one byte again and
// again between them. The calls are 0 to bring up to date, 1 for an entry (its index), 2 for a line (which), 3 to set the table (its length, the count, what
// each entry holds, and the last below the count).
#![tactic(auto)]

use index_entry::{number_of, place_of};
use line_layout::layout_of;
use rows_case::{MOST_CASES, cell, number_in, part, say};
use std::io::Read;

// The head of a case has so many bytes; and the longest table that a case has.
const HEAD: usize = 56;

const LONGEST_TABLE: usize = 601;

// The calls that are not to bring up to date.
const ENTRY: usize = 1;

const LINE: usize = 2;

const SETS: usize = 3;

// An entry is less.
const ENTRIES: usize = 0x1_0000_0000;

// How many entries the table has, and how many of them are recorded.
#[derive(Clone, Copy)]
struct Index {
    entries: usize,
    count: usize,
}

// What bringing up to date is told: the lengths of key and font digest, the editions and the layout.
#[derive(Clone, Copy)]
struct Told {
    key: usize,
    font: usize,
    editions: usize,
    layout: usize,
}

fn told_in(h: &[u8]) -> Told {
    Told {
        key: number_in(h, 5),
        font: number_in(h, 6),
        editions: number_in(h, 7),
        layout: number_in(h, 8),
    }
}

// Of an entry that is another than it was its index, place and number.
fn change(rt: &impl Print, i: usize, entry: u32, before: u32) {
    if entry == before {
        return;
    }
    cell(rt, i);
    cell(rt, place_of(entry));
    cell(rt, number_of(entry) as usize);
}

// The same of each entry, which is then kept as it is.
fn changes(rt: &impl Print, table: &[u32], kept: &mut [u32]) {
    for (i, (entry, before)) in table.iter().zip(kept.iter_mut()).enumerate() {
        change(rt, i, *entry, *before);
        *before = *entry;
    }
}

// The number and the new count, and what was changed.
fn update_row(
    rt: &impl Print,
    told: Told,
    stream: &[u8],
    count: usize,
    table: &mut [u32],
    kept: &mut [u32],
) -> usize {
    let key = rows_case::key();
    let font = rows_case::font();
    let updated = index_call::update(
        stream,
        part(&key, 0, told.key),
        part(&font, 0, told.font),
        told.editions,
        layout_of(told.layout),
        table,
        count,
    );
    let answer = updated.answer;
    cell(rt, index_call::update_number(answer) as usize);
    cell(rt, updated.count);
    changes(rt, table, kept);
    updated.count
}

fn entry_row(rt: &impl Print, table: &[u32], count: usize, index: usize) {
    let entry = index_entry::entry_at(table, count, index);
    cell(rt, entry.there as usize);
    cell(rt, entry.place);
    cell(rt, entry.number as usize);
}

fn line_row(rt: &impl Print, table: &[u32], count: usize, k: usize) {
    let line = index_entry::line_at(table, count, k);
    cell(rt, line.there as usize);
    cell(rt, line.index as usize);
    cell(rt, line.place);
}

// The last entry below the count.
fn put_last(table: &mut [u32], count: usize, last: u32) {
    if count == 0 {
        return;
    }
    if count > table.len() {
        return;
    }
    table[count - 1] = last;
}

fn entry_in(h: &[u8], i: usize) -> u32 {
    (number_in(h, i) % ENTRIES) as u32
}

// The table set anew.
fn set_row(rt: &impl Print, h: &[u8], table: &mut [u32], kept: &mut [u32]) -> Index {
    let entries = number_in(h, 10);
    let count = number_in(h, 11);
    table.fill(entry_in(h, 12));
    kept.fill(entry_in(h, 12));
    put_last(table, count, entry_in(h, 13));
    put_last(kept, count, entry_in(h, 13));
    cell(rt, entries);
    cell(rt, count);
    Index { entries, count }
}

fn called(
    rt: &impl Print,
    index: Index,
    h: &[u8],
    stream: &[u8],
    table: &mut [u32],
    kept: &mut [u32],
) -> Index {
    let call = number_in(h, 9);
    let entries = index.entries;
    if call == SETS {
        return set_row(rt, h, table, kept);
    }
    if entries > table.len() {
        return index;
    }
    if call == ENTRY {
        entry_row(rt, &table[0..entries], index.count, number_in(h, 10));
        return index;
    }
    if call == LINE {
        line_row(rt, &table[0..entries], index.count, number_in(h, 10));
        return index;
    }
    let count = update_row(
        rt,
        told_in(h),
        stream,
        index.count,
        &mut table[0..entries],
        kept,
    );
    Index { entries, count }
}

// The row of a case behind its name, with a buffer of its stream's length.
fn row(
    rt: &impl Print,
    input: &mut impl Read,
    index: Index,
    h: &[u8],
    stream: &mut [u8],
    table: &mut [u32],
    kept: &mut [u32],
) -> Index {
    rows_case::around_taken(
        input,
        stream,
        number_in(h, 2),
        number_in(h, 3),
        number_in(h, 4),
    );
    let left = called(rt, index, h, stream, table, kept);
    say(rt, b"\n");
    left
}

// A case whose head was read, and what it leaves. Its head begins with the lengths of its name and of its stream.
fn one(
    rt: &impl Print,
    input: &mut impl Read,
    index: Index,
    h: &[u8],
    buffer: &mut [u8],
    table: &mut [u32],
    kept: &mut [u32],
) -> Index {
    let n = number_in(h, 1);
    if n > buffer.len() {
        return index;
    }
    rows_case::name_passed(rt, input, number_in(h, 0));
    row(rt, input, index, h, &mut buffer[0..n], table, kept)
}

fn main(rt: HostRuntime) {
    let mut input = rt.stdin();
    let mut buffer = rows_case::buffer();
    let mut table = [0u32; LONGEST_TABLE];
    let mut kept = [0u32; LONGEST_TABLE];
    let mut index = Index {
        entries: 0,
        count: 0,
    };
    for _ in 0..MOST_CASES {
        let mut head = [0u8; HEAD];
        if !rows_case::taken(&mut input, &mut head) {
            return;
        }
        index = one(
            &rt,
            &mut input,
            index,
            &head,
            &mut buffer,
            &mut table,
            &mut kept,
        );
    }
}
