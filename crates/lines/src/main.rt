// Lists the lines of a job stream (document 01, 'The listing program'): key.bin, font.bin, then the stream on standard input, one
// 65,536-byte buffer reused. What is said in place of a listing is decided by `tool_loads`, what each row is by `tool_listing`, and both are proved; here
// bytes are moved: files loaded, and each row written as it is given, until the last. That each is written once, in order and whole no contract says: it is
// tested (docs/PROMISES.md, 'Exceptions').
#![tactic(auto)]

use digest_call::DIGEST;
use frame_spec::KEY_LENGTH;
use read_call::LONGEST_STREAM;
use std::io::Read;
use std::rt::Files;
use tool_files::LoadFault;
use tool_loads::LONGEST_TEXT;
use tool_row::ROW_ROOM;

// The longest font, and the longest stream.
const ROOM: usize = 65536;

// No listing has more rows: a stream has fewer stretches than bytes, and then there is the last row.
const MOST_ROWS: usize = LONGEST_STREAM + 1;

fn complain(rt: &impl Eprint, text: &str) {
    let _ = rt.eprint(text);
}

// The first bytes of a buffer; false where standard output does not take them whole: a listing with a hole in it would be a guess, so it stops there.
fn say(rt: &impl Print, buffer: &[u8], length: usize) -> bool {
    // Never: no row and no text is longer than its buffer.
    if length > buffer.len() {
        return false;
    }
    rt.write_all(&buffer[0..length]).is_ok()
}

// Every row of the listing, and the last.
fn list(rt: &impl Print, stream: &[u8], key: &[u8], font: &[u8]) -> bool {
    let mut row = [0u8; ROW_ROOM];
    let mut cursor = tool_listing::start();
    for _ in 0..MOST_ROWS {
        let step = tool_listing::lines_row(stream, key, font, cursor, &mut row);
        let answer = step.answer;
        if !say(rt, &row, tool_listing::listed_length(answer)) {
            return false;
        }
        cursor = step.cursor;
        let ended = cursor.ended;
        if ended {
            return true;
        }
    }
    // Never: so many calls come to the last row.
    false
}

// The listing of what was loaded of the stream.
fn list_loaded(
    rt: &(impl Print + Eprint),
    loaded: Result<usize, LoadFault>,
    buffer: &[u8],
    key: &[u8],
    font: &[u8],
) {
    // Never: something was said in place of a listing.
    let Ok(n) = loaded else {
        return;
    };
    // Never: no more was loaded than the buffer holds.
    if n > buffer.len() {
        return;
    }
    if !list(rt, &buffer[0..n], key, font) {
        complain(rt, "listing not written whole\n");
    }
}

// Whether something is said in place of a listing; it is said.
fn refused(
    rt: &impl Print,
    key: Result<usize, LoadFault>,
    font: Result<usize, LoadFault>,
    stream: Result<usize, LoadFault>,
) -> bool {
    let text = tool_loads::said(key, font, stream);
    let length = text.length;
    if length == 0 {
        return false;
    }
    let bytes: [u8; LONGEST_TEXT] = text.bytes;
    say(rt, &bytes, length);
    true
}

// The listing of what the key, the font and the reader have, or what is said in its place.
fn list_files(rt: &(impl Files + Print + Eprint), input: &mut impl Read) {
    let mut key = [0u8; KEY_LENGTH];
    let mut font = [0u8; DIGEST];
    let mut buffer = [0u8; ROOM];
    let key_load = tool_files::load(rt, b"key.bin", &mut key);
    let font_load = tool_files::load(rt, b"font.bin", &mut buffer);
    // There is a digest exactly where the font is not refused.
    tool_key_font::digest_font(font_load, &buffer, &mut font);
    // Before the stream is waited for.
    if refused(rt, key_load, font_load, Ok(0)) {
        return;
    }
    let stream_load = tool_files::take_in(input, &mut buffer);
    if refused(rt, key_load, font_load, stream_load) {
        return;
    }
    list_loaded(rt, stream_load, &buffer, &key, &font);
}

fn main(rt: HostRuntime) {
    if tool_files::word_count(&rt) > 1 {
        complain(&rt, "usage: lines < stream\n");
        return;
    }
    list_files(&rt, &mut rt.stdin());
}
