// What the rows' programs share: the cases on standard input, which begin with a head of numbers of four bytes each, the high byte first, and
// the rows on standard output, cells with a blank before each. What a head says, which bytes a part has, and the rules' key and font digest are
// promised (specs/Cases.antt); the calls that read and print decide nothing.
#![tactic(auto)]

ghost use Rattle.std.specs.Prelude.{◌≡◌, ◌+◌, length};
ghost use Rattle.rows_case.specs.Cases.{four_bytes, number_in, end_in, part_in, part_start, rule_key, rule_font, no_bytes};

use std::io::Read;

// More cases than any standard input has: where it ends, so do the rows.
pub const MOST_CASES: usize = 10000;

// The bytes of a case are no more.
pub const LONGEST_CASE: usize = 131072;

// The longest key and font digest that a case asks for, each one more than the right one.
pub const LONGEST_KEY: usize = 17;

pub const LONGEST_FONT: usize = 33;

// A number of a head has so many bytes.
const NUMBER: usize = 4;

// The longest name that a row begins with, and the most bytes that a cell shows.
pub const LONGEST_NAME: usize = 64;

const MOST_SHOWN: usize = 4096;

fn four_bytes(a: u8, b: u8, c: u8, d: u8) -> usize
    ensures { result ≡ four_bytes a b c d }
{
    ((a as usize * 256 + b as usize) * 256 + c as usize) * 256 + d as usize
}

// Number i of a head; 0 where it has none.
pub fn number_in(head: &[u8], i: usize) -> usize
    ensures { result ≡ number_in head.now i }
{
    if i >= head.len() / NUMBER {
        return 0;
    }
    let at = NUMBER * i;
    four_bytes(head[at], head[at + 1], head[at + 2], head[at + 3])
}

// Where the part ends of which number i of a head is the length, from where the part before it ends.
pub fn end_in(head: &[u8], i: usize, before: usize) -> usize
    ensures { result ≡ end_in head.now i before }
{
    std::num::wrapping_add_usize(before, number_in(head, i))
}

// The bytes from one place up to another; the empty part at the start where these are no places in order.
pub fn part(all: &[u8], from: usize, to: usize) -> &[u8]
    ensures result_value { result.now ≡ part_in all.now from to }
    ensures ref_ptr_value { result.ref_ptr ≡ (all.entry.ref_ptr.0, part_start all.now from to + all.entry.ref_ptr.1) }
{
    if to > all.len() {
        return &all[0..0];
    }
    if from > to {
        return &all[0..0];
    }
    &all[from..to]
}

// The rules' key: byte i is 10 (hex) + i.
pub fn key() -> [u8; LONGEST_KEY]
    ensures value { result ≡ rule_key }
    ensures value_2 { 17 ≡ length result }
{
    let mut key = [0u8; LONGEST_KEY];
    base_ramp::fill(&mut key, 0x10, 1);
    key
}

// The rules' font digest: byte i is 3*i + 1.
pub fn font() -> [u8; LONGEST_FONT]
    ensures value { result ≡ rule_font }
    ensures value_2 { 33 ≡ length result }
{
    let mut font = [0u8; LONGEST_FONT];
    base_ramp::fill(&mut font, 1, 3);
    font
}

// Room for the bytes of the longest case.
pub fn buffer() -> [u8; LONGEST_CASE]
    ensures value { result ≡ no_bytes }
    ensures value_2 { 131072 ≡ length result }
{
    [0; LONGEST_CASE]
}

// Fills all of a buffer; false where there are not that many bytes to read.
pub fn taken(input: &mut impl Read, buffer: &mut [u8]) -> bool {
    input.read_exact(buffer).is_ok()
}

// The same over a part of a buffer; false too where it has no such part.
pub fn part_taken(input: &mut impl Read, buffer: &mut [u8], from: usize, length: usize) -> bool {
    if from > buffer.len() {
        return false;
    }
    if length > buffer.len() - from {
        return false;
    }
    let to = from + length;
    taken(input, &mut buffer[from..to])
}

// Bytes over the whole of a buffer: the first and the last are read, and one byte again and again stands between them.
pub fn around_taken(
    input: &mut impl Read,
    buffer: &mut [u8],
    first: usize,
    last: usize,
    between: usize,
) -> bool {
    let behind = buffer.len().wrapping_sub(last);
    base_ramp::fill(buffer, (between % 256) as u8, 0);
    if !part_taken(input, buffer, 0, first) {
        return false;
    }
    part_taken(input, buffer, behind, last)
}

// Reads a name of so many bytes and prints it; false where it can't be read.
pub fn name_passed(rt: &impl Print, input: &mut impl Read, length: usize) -> bool {
    let mut name = [0u8; LONGEST_NAME];
    if !part_taken(input, &mut name, 0, length) {
        return false;
    }
    say(rt, part(&name, 0, length));
    true
}

pub fn say(rt: &impl Print, text: &[u8]) {
    let _ = rt.write_all(text);
}

// A number in decimal.
pub fn number(rt: &impl Print, n: usize) {
    let _ = rt.print(n);
}

// A blank, and a number behind it.
pub fn cell(rt: &impl Print, n: usize) {
    say(rt, b" ");
    number(rt, n);
}

// A blank, and bytes in hexadecimal behind it, or - where there are none.
pub fn hex_cell(rt: &impl Print, bytes: &[u8]) {
    let mut digits = [0u8; 2 * MOST_SHOWN];
    let n = base_hex::put_hex(bytes, &mut digits);
    say(rt, b" ");
    if n == 0 {
        say(rt, b"-");
    }
    say(rt, part(&digits, 0, n));
}
