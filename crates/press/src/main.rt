// Lists the lines of a link as they come: key.bin, font.bin, then standard input, a device, a pipe or a file, read until it ends. What is said in place of a
// listing is decided by `tool_loads`, what each row is by `tool_press`, and both are proved; here bytes are moved: each row is written at once, as soon as
// its mark is there. That each is written once, in order and whole no contract says: it is tested (docs/PROMISES.md, 'Exceptions').
#![tactic(auto)]

use digest_call::DIGEST;
use frame_spec::KEY_LENGTH;
use frame_stuff_spec::LONGEST_STRETCH;
use std::io::Read;
use std::rt::Files;
use tool_files::{Heard, LoadFault};
use tool_loads::LONGEST_TEXT;
use tool_press::Press;
use tool_row::ROW_ROOM;

// One read of the link takes so many bytes.
const CHUNK: usize = 4096;

// The longest font.
const ROOM: usize = 65536;

// No link gives more reads than bytes are counted.
const MOST_READS: u64 = 0xFFFF_FFFF_FFFF_FFFF;

// How far the listing is, and whether standard output took it whole so far.
#[derive(Clone, Copy)]
struct Written {
    press: Press,
    whole: bool,
}

fn complain(rt: &impl Eprint, text: &str) {
    let _ = rt.eprint(text);
}

// The first bytes of a buffer, in one write; false where standard output does not take them whole: a listing with a hole in it would be a guess, so it
// stops there. Nothing is written where there is no row.
fn say(rt: &impl Print, buffer: &[u8], length: usize) -> bool {
    if length == 0 {
        return true;
    }
    // Never: no row and no text is longer than its buffer.
    if length > buffer.len() {
        return false;
    }
    rt.write_all(&buffer[0..length]).is_ok()
}

// Every row that a piece closes.
fn list_piece(
    rt: &impl Print,
    window: &mut [u8; LONGEST_STRETCH],
    press: Press,
    piece: &[u8],
    key: &[u8],
    font: &[u8],
) -> Written {
    let mut row = [0u8; ROW_ROOM];
    let mut now = press;
    let mut at = 0;
    // A `while`: how many bytes a call takes decides where the next one begins.
    while at < piece.len() {
        let turn = tool_press::press_row(window, now, &piece[at..], key, font, &mut row);
        let answer = turn.answer;
        let took = turn.took;
        now = turn.press;
        if !say(rt, &row, tool_press::pressed_length(answer)) {
            return Written {
                press: now,
                whole: false,
            };
        }
        // Never: each call takes at least a byte, and no more than there are.
        if took == 0 {
            return Written {
                press: now,
                whole: false,
            };
        }
        if took > piece.len() - at {
            return Written {
                press: now,
                whole: false,
            };
        }
        at += took;
    }
    Written {
        press: now,
        whole: true,
    }
}

// The last row, whatever ended the run.
fn list_last(rt: &(impl Print + Eprint), press: Press) {
    let mut row = [0u8; ROW_ROOM];
    let put = tool_row::put_last(press.lines, press.refused, &mut row);
    let Ok(n) = put else {
        return;
    };
    if !say(rt, &row, n) {
        stop_short(rt);
    }
}

// Standard output takes no more: what was listed has no end.
fn stop_short(rt: &impl Eprint) {
    complain(rt, "listing not written whole\n");
}

// A read failed for good: said behind the last row.
fn list_failed(rt: &(impl Print + Eprint), press: Press) {
    list_last(rt, press);
    complain(rt, "standard input can't be read on\n");
}

// The rows of the bytes that a read gave.
fn list_heard(
    rt: &impl Print,
    window: &mut [u8; LONGEST_STRETCH],
    press: Press,
    chunk: &[u8],
    n: usize,
    key: &[u8],
    font: &[u8],
) -> Written {
    // Never: a read gives no more than the buffer holds.
    if n > chunk.len() {
        return Written {
            press,
            whole: false,
        };
    }
    list_piece(rt, window, press, &chunk[0..n], key, font)
}

// Reads until the link ends; a read that fails ends it too, and is said behind the last row.
fn list(rt: &(impl Print + Eprint), link: &mut impl Read, key: &[u8], font: &[u8]) {
    let mut window = [0u8; LONGEST_STRETCH];
    let mut chunk = [0u8; CHUNK];
    let mut press = tool_press::start();
    for _ in 0..MOST_READS {
        match tool_files::hear(link, &mut chunk) {
            Heard::Some(n) => {
                let written = list_heard(rt, &mut window, press, &chunk, n, key, font);
                press = written.press;
                let whole = written.whole;
                if !whole {
                    stop_short(rt);
                    return;
                }
            }
            Heard::Again => {}
            Heard::End => {
                list_last(rt, press);
                return;
            }
            Heard::Failed => {
                list_failed(rt, press);
                return;
            }
        }
    }
    list_last(rt, press);
}

// Whether something is said in place of a listing; it is said.
fn refused(rt: &impl Print, key: Result<usize, LoadFault>, font: Result<usize, LoadFault>) -> bool {
    let text = tool_loads::said(key, font, Ok(0));
    let length = text.length;
    if length == 0 {
        return false;
    }
    let bytes: [u8; LONGEST_TEXT] = text.bytes;
    say(rt, &bytes, length);
    true
}

// The listing of what the key, the font and the link have, or what is said in its place.
fn list_files(rt: &(impl Files + Print + Eprint), link: &mut impl Read) {
    let mut key = [0u8; KEY_LENGTH];
    let mut font = [0u8; DIGEST];
    let mut buffer = [0u8; ROOM];
    let key_load = tool_files::load(rt, b"key.bin", &mut key);
    let font_load = tool_files::load(rt, b"font.bin", &mut buffer);
    // There is a digest exactly where the font is not refused.
    tool_key_font::digest_font(font_load, &buffer, &mut font);
    if refused(rt, key_load, font_load) {
        return;
    }
    list(rt, link, &key, &font);
}

fn main(rt: HostRuntime) {
    if tool_files::word_count(&rt) > 1 {
        complain(&rt, "usage: press < link\n");
        return;
    }
    list_files(&rt, &mut rt.stdin());
}
