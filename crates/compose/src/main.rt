// Composes a job stream: key.bin, font.bin, then orders on standard input, one a row: the nonce as 24 hexadecimal digits, a blank, the
// line. The frames go to standard output; a row that can't be sealed is reported on standard error with document 01's number, and the
// others are still written. Half an order is none: a last row without its newline is not sealed. Nonces come from the caller; none is made
// here.
#![tactic(auto)]

use digest_call::DIGEST;
use frame_spec::KEY_LENGTH;
use line_layout::Layout;
use std::io::Read;
use std::rt::Files;
use tool_files::Heard;

// The most of a row that is kept: nonce, blank and longest line fit with room to spare, and a longer row keeps a line that is too long.
const ROW: usize = 128;

// One read of the orders takes so many bytes.
const CHUNK: usize = 4096;

// The longest font.
const ROOM: usize = 65536;

// No run makes more reads: standard input then counts as one that can't be read on.
const MOST_READS: u64 = 0xFFFF_FFFF_FFFF_FFFF;

// A row being gathered: its number, from 1, how much of it is kept, and whether anything of it came; and whether a frame could not be
// written, after which no more are.
#[derive(Clone, Copy)]
pub struct Orders {
    pub number: u64,
    pub length: usize,
    pub begun: bool,
    pub failed: bool,
}

fn complain(rt: &impl Eprint, text: &str) {
    let _ = rt.eprint(text);
}

// A row named on standard error, and what became of it.
fn report(rt: &impl Eprint, row: u64, what: &str) {
    complain(rt, "row ");
    let _ = rt.eprint(row);
    complain(rt, what);
}

fn refused(rt: &impl Eprint, row: u64, number: u32) {
    report(rt, row, " refused ");
    let _ = rt.eprint(number);
    complain(rt, "\n");
}

// A frame on standard output; false where it can't be written whole.
fn send(rt: &(impl Print + Eprint), frame: &[u8], which: u64) -> bool {
    if rt.write_all(frame).is_ok() {
        return true;
    }
    report(rt, which, " not written, and none behind it\n");
    false
}

// One line under its nonce: its frame on standard output, or its refusal on standard error; false where the frame can't be written.
fn seal_line(
    rt: &(impl Print + Eprint),
    line: &[u8],
    nonce: &[u8],
    which: u64,
    key: &[u8],
    font: &[u8],
) -> bool {
    let mut frame = [0u8; frame_spec::FRAME_ROOM];
    let written = frame_write::write(key, nonce, font, Layout::Neither, line, &mut frame);
    let number = frame_write::write_number(written);
    let length = frame_write::write_length(written);
    if number != 0 {
        refused(rt, which, number);
        return true;
    }
    // Never: no frame is longer than its room.
    if length > frame.len() {
        return false;
    }
    send(rt, &frame[0..length], which)
}

// One order; false where its frame can't be written.
fn order(rt: &(impl Print + Eprint), row: &[u8], which: u64, key: &[u8], font: &[u8]) -> bool {
    let found = tool_orders::judge_order(row);
    match found {
        Some(from) => {
            let nonce = tool_orders::nonce(row);
            seal_line(rt, &row[from..], &nonce, which, key, font)
        }
        None => {
            refused(rt, which, tool_orders::order_number(found));
            true
        }
    }
}

// The row that ends here, and the next one begun. The row is never longer than its room.
fn ended(rt: &(impl Print + Eprint), row: &[u8], o: Orders, key: &[u8], font: &[u8]) -> Orders {
    let at = o.length;
    let mut written = false;
    if at <= row.len() {
        written = order(rt, &row[0..at], o.number, key, font);
    }
    Orders {
        number: o.number.wrapping_add(1),
        length: 0,
        begun: false,
        failed: !written,
    }
}

// The next byte of the orders: it ends a row, or is kept while there is room for it.
fn fed(
    rt: &(impl Print + Eprint),
    b: u8,
    row: &mut [u8],
    o: Orders,
    key: &[u8],
    font: &[u8],
) -> Orders {
    if b == b'\n' {
        return ended(rt, row, o, key, font);
    }
    let mut length = o.length;
    if length < row.len() {
        row[length] = b;
        length += 1;
    }
    Orders {
        number: o.number,
        length,
        begun: true,
        failed: false,
    }
}

fn fed_all(
    rt: &(impl Print + Eprint),
    bytes: &[u8],
    row: &mut [u8],
    o: Orders,
    key: &[u8],
    font: &[u8],
) -> Orders {
    let mut next = o;
    for b in bytes {
        next = fed(rt, *b, row, next, key, font);
        let failed = next.failed;
        if failed {
            return next;
        }
    }
    next
}

// What is left at the end of the orders: half an order is none.
fn cut_off(rt: &impl Eprint, o: Orders) {
    let begun = o.begun;
    if begun {
        report(rt, o.number, " cut off, not sealed\n");
    }
}

// All orders that are read, until their end or until a frame can't be written.
fn compose(rt: &(impl Print + Eprint), input: &mut impl Read, key: &[u8], font: &[u8]) {
    let mut chunk = [0u8; CHUNK];
    let mut row = [0u8; ROW];
    let mut o = Orders {
        number: 1,
        length: 0,
        begun: false,
        failed: false,
    };
    for _ in 0..MOST_READS {
        match tool_files::hear(input, &mut chunk) {
            Heard::Some(got) => {
                o = fed_all(rt, &chunk[0..got], &mut row, o, key, font);
                let failed = o.failed;
                if failed {
                    return;
                }
            }
            Heard::Again => {}
            Heard::End => {
                cut_off(rt, o);
                return;
            }
            Heard::Failed => {
                complain(rt, "orders can't be read\n");
                return;
            }
        }
    }
    complain(rt, "orders can't be read\n");
}

// The stream of what the key, the font and the reader have.
fn compose_files(rt: &(impl Files + Print + Eprint), input: &mut impl Read) {
    let mut key = [0u8; KEY_LENGTH];
    let mut font = [0u8; DIGEST];
    let mut buffer = [0u8; ROOM];
    if !tool_key_font::is_key(tool_files::load(rt, b"key.bin", &mut key)) {
        complain(rt, "no key\n");
        return;
    }
    let loaded = tool_files::load(rt, b"font.bin", &mut buffer);
    if !tool_key_font::digest_font(loaded, &buffer, &mut font) {
        complain(rt, "no font\n");
        return;
    }
    compose(rt, input, &key, &font);
}

fn main(rt: HostRuntime) {
    if tool_files::word_count(&rt) > 1 {
        complain(&rt, "usage: compose < orders > stream\n");
        return;
    }
    compose_files(&rt, &mut rt.stdin());
}
