// Prints the rows that the second program makes of its own running digests (tests/second, src/rows/running.rs): one call for each case on
// standard input, on the record that the call before it left. A case is its head and its name. The head has the name's length, the call and
// three numbers, four bytes each, the high byte first: 0 to start (the instance), 1 to feed (the length, and the first byte), 2 to finish
// (the room), 3 to set the record (total, instance, finished). Each row has all that the call left: number, count and room, of a set
// none, and the record.
#![tactic(auto)]

use gage_spec::LARGEST;
use gage_sponge::LARGEST_RATE;
use rows_case::{MOST_CASES, cell, hex_cell, number_in, say};
use running_spec::Record;
use std::io::Read;

// The head of a case has so many bytes; and the longest room that a case has.
const HEAD: usize = 20;

const LONGEST_ROOM: usize = 40;

// What a room holds before the call, and the state and block of a record that is set.
const BEFORE: u8 = 0xA5;

// A field of a record is less.
const WORDS: usize = 0x1_0000_0000;

// The calls that are not to start.
const FEEDS: usize = 1;

const FINISHES: usize = 2;

const SETS: usize = 3;

fn record(rt: &impl Print, running: Record) {
    let state = running.state;
    let block = running.block;
    cell(rt, running.total);
    cell(rt, running.instance as usize);
    cell(rt, running.finished as usize);
    hex_cell(rt, &state);
    hex_cell(rt, &block);
    say(rt, b"\n");
}

fn started(rt: &impl Print, running: Record, instance: usize) -> Record {
    cell(
        rt,
        running_steps::start_number(running_steps::start_answer(instance)) as usize,
    );
    cell(rt, 0);
    hex_cell(rt, b"");
    running_steps::after_start(running, instance)
}

fn fed(rt: &impl Print, running: Record, bytes: &[u8]) -> Record {
    cell(
        rt,
        running_steps::feed_number(running_steps::feed_answer(running, bytes)) as usize,
    );
    cell(rt, 0);
    hex_cell(rt, b"");
    running_steps::after_feed(running, bytes)
}

fn finished(rt: &impl Print, running: Record, out: &mut [u8]) -> Record {
    let answer = running_steps::give(running, out);
    cell(rt, running_steps::finish_number(answer) as usize);
    cell(rt, running_steps::finish_count(answer));
    hex_cell(rt, out);
    running_steps::after_finish(running, answer)
}

// A record as no call may have left it.
fn set(total: usize, instance: usize, finished: usize) -> Record {
    let state = [BEFORE; LARGEST];
    let block = [BEFORE; LARGEST_RATE];
    Record {
        total,
        instance: (instance % WORDS) as u32,
        finished: (finished % WORDS) as u32,
        state,
        block,
    }
}

// A feed of so many bytes: byte i is 7*i and the first.
fn fed_by_rule(
    rt: &impl Print,
    running: Record,
    length: usize,
    first: usize,
    buffer: &mut [u8],
) -> Record {
    if length > buffer.len() {
        return running;
    }
    base_ramp::fill(&mut buffer[0..length], (first % 256) as u8, 7);
    fed(rt, running, &buffer[0..length])
}

// A finish into a room of the length that is asked for.
fn finished_in(rt: &impl Print, running: Record, room: usize) -> Record {
    let mut out = [BEFORE; LONGEST_ROOM];
    if room > LONGEST_ROOM {
        return running;
    }
    finished(rt, running, &mut out[0..room])
}

fn called(rt: &impl Print, running: Record, h: &[u8], buffer: &mut [u8]) -> Record {
    let call = number_in(h, 1);
    let one = number_in(h, 2);
    if call == FEEDS {
        return fed_by_rule(rt, running, one, number_in(h, 3), buffer);
    }
    if call == FINISHES {
        return finished_in(rt, running, one);
    }
    if call == SETS {
        say(rt, b" - - -");
        return set(one, number_in(h, 3), number_in(h, 4));
    }
    started(rt, running, one)
}

// The row of a case whose head was read, and the record that it leaves.
fn one(
    rt: &impl Print,
    input: &mut impl Read,
    running: Record,
    h: &[u8],
    buffer: &mut [u8],
) -> Record {
    rows_case::name_passed(rt, input, number_in(h, 0));
    let left = called(rt, running, h, buffer);
    record(rt, left);
    left
}

fn main(rt: HostRuntime) {
    let mut input = rt.stdin();
    let mut buffer = rows_case::buffer();
    let mut running = set(0, 0, 0);
    for _ in 0..MOST_CASES {
        let mut head = [0u8; HEAD];
        if !rows_case::taken(&mut input, &mut head) {
            return;
        }
        running = one(&rt, &mut input, running, &head, &mut buffer);
    }
}
