// Shows, makes and digests glyph bundles: `bundle show` draws the bundle on standard input, `bundle make` makes the bundle of the drawing on
// standard input, `bundle digest` prints the font digest of the bundle on standard input. It only moves bytes: what is drawn, made and refused,
// and in which row, the calls of drawing and bundling say.
#![tactic(auto)]

use bundle_draw::LONGEST_DRAWING;
use bundle_write::BUNDLE_ROOM;
use digest_call::DIGEST;
use std::io::Read;
use tool_files::LoadFault;

// The longest word that is looked at.
const WORD: usize = 8;

// Room for one byte more than the longest input that is digested: of a longer one so much says what all of it would.
const ROOM: usize = digest_call::LONGEST_MESSAGE + 1;

fn say(rt: &(impl Print + Eprint), text: &[u8]) {
    if rt.write_all(text).is_err() {
        complain(rt, "bundle: not written whole\n");
    }
}

fn complain(rt: &impl Eprint, text: &str) {
    let _ = rt.eprint(text);
}

// The first n bytes of what was made.
fn give(rt: &(impl Print + Eprint), bytes: &[u8], n: usize) {
    // Never more: the room is for the longest.
    if n <= bytes.len() {
        say(rt, &bytes[0..n]);
    }
}

fn number(rt: &impl Eprint, n: usize) {
    let _ = rt.eprint(n);
}

// A refusal: its number and what it means.
fn refused(rt: &impl Eprint, n: u32, row: usize) {
    complain(rt, "bundle: ");
    number(rt, n as usize);
    if n == 3 {
        complain(rt, " longer than 65,536 bytes\n");
    } else if n == 12 {
        complain(rt, " two glyphs with the same dots\n");
    } else if row > 0 {
        complain(rt, " not a drawing of a bundle, first in row ");
        number(rt, row);
        complain(rt, "\n");
    } else {
        complain(rt, " not a bundle\n");
    }
}

fn show(rt: &(impl Print + Eprint), input: &[u8]) {
    let mut out = [0u8; LONGEST_DRAWING];
    let answer = bundle_draw::show(input, &mut out);
    let n = bundle_draw::show_number(answer);
    if n == 0 {
        give(rt, &out, bundle_draw::show_length(answer));
    } else {
        refused(rt, n, 0);
    }
}

fn make(rt: &(impl Print + Eprint), input: &[u8]) {
    let mut out = [0u8; BUNDLE_ROOM];
    let answer = bundle_draw::make(input, &mut out);
    let n = bundle_draw::make_number(answer);
    if n == 0 {
        give(rt, &out, bundle_draw::make_length(answer));
    } else {
        refused(rt, n, bundle_draw::make_row(answer));
    }
}

fn digest(rt: &(impl Print + Eprint), input: &[u8]) {
    let mut out = [0u8; DIGEST];
    let mut digits = [0x0Au8; 2 * DIGEST + 1];
    let n = bundle_write::digest_number(bundle_write::digest_of(input, &mut out));
    if n == 0 {
        base_hex::put_hex(&out, &mut digits);
        say(rt, &digits);
    } else {
        refused(rt, n, 0);
    }
}

// What is asked of the input.
fn asked(rt: &(impl Print + Eprint), word: &[u8], input: &[u8]) {
    if base_lists::compare(word, b"show") {
        show(rt, input);
    } else if base_lists::compare(word, b"make") {
        make(rt, input);
    } else {
        digest(rt, input);
    }
}

// Whether a word is one of the three.
fn known(word: &[u8]) -> bool {
    if base_lists::compare(word, b"show") {
        return true;
    }
    if base_lists::compare(word, b"make") {
        return true;
    }
    base_lists::compare(word, b"digest")
}

fn on_input(rt: &(impl Print + Eprint), input: &mut impl Read, word: &[u8], buffer: &mut [u8]) {
    let loaded = tool_files::take_in(input, buffer);
    match tool_files::held(loaded, buffer.len()) {
        Ok(n) => asked(rt, word, &buffer[0..n]),
        Err(LoadFault::Long) => asked(rt, word, buffer),
        Err(LoadFault::Failed) => complain(rt, "bundle: input can't be read\n"),
    }
}

fn usage(rt: &impl Eprint) {
    complain(rt, "usage: bundle show < bundle > drawing\n");
    complain(rt, "       bundle make < drawing > bundle\n");
    complain(rt, "       bundle digest < bundle\n");
}

fn main(rt: HostRuntime) {
    let mut word = [0u8; WORD];
    let w = tool_files::word_at(&rt, 1, &mut word);
    // Never: a word that is longer counts as none.
    if w > WORD {
        return;
    }
    if tool_files::word_count(&rt) != 2 {
        usage(&rt);
        return;
    }
    if !known(&word[0..w]) {
        usage(&rt);
        return;
    }
    let mut buffer = [0u8; ROOM];
    on_input(&rt, &mut rt.stdin(), &word[0..w], &mut buffer);
}
