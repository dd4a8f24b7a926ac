// The GAGE digest of standard input, read through a small window: `gagesum` for instance 1, `gagesum I` for instance I. Only bytes are moved
// here; what the word and each read mean is decided by `tool_sums`, and the digest is that of `running_steps`.
#![tactic(auto)]

use digest_call::DIGEST;
use running_spec::Record;
use std::io::Read;
use tool_sums::Sum;

// The window in bytes.
const WINDOW: usize = 512;

// The longest word that is looked at.
const WORD: usize = 8;

// Fonts are digested with this instance.
const FONT_INSTANCE: usize = 1;

// Two digits a byte and a newline.
const DIGITS: usize = 2 * DIGEST;

const ROW: usize = DIGITS + 1;

const NEWLINE: u8 = 0x0A;

// No run makes more reads: one that is interrupted again and again counts as failed at last.
const MOST_READS: u64 = 0xFFFF_FFFF_FFFF_FFFF;

fn complain(rt: &impl Eprint, text: &str) {
    let _ = rt.eprint(text);
}

fn usage(rt: &impl Eprint) {
    complain(rt, "usage: gagesum [I] < file (I from 1 to 10)\n");
}

// The digits of a digest and a newline, written at once.
fn print(rt: &(impl Print + Eprint), digest: &[u8]) {
    let mut row = [0u8; ROW];
    base_hex::put_hex(digest, &mut row);
    row[DIGITS] = NEWLINE;
    if rt.write_all(&row).is_err() {
        complain(rt, "gagesum: not written whole\n");
    }
}

// The digest of what was fed.
fn give(rt: &(impl Print + Eprint), running: Record) {
    let mut digest = [0u8; DIGEST];
    match running_steps::give(running, &mut digest) {
        Ok(_) => print(rt, &digest),
        // Never: the record was started and only fed, and there is room.
        _ => complain(rt, "gagesum: no digest\n"),
    }
}

fn digest_input(rt: &(impl Print + Eprint), input: &mut impl Read, instance: usize) {
    let mut window = [0u8; WINDOW];
    let mut running = tool_sums::begin(instance);
    for _ in 0..MOST_READS {
        let heard = tool_files::hear(input, &mut window);
        match tool_sums::judge_part(running, heard, &window) {
            Sum::On => {
                running = tool_sums::take_part(running, heard, &window);
            }
            Sum::End => {
                give(rt, running);
                return;
            }
            Sum::TooLong => {
                complain(rt, "too long\n");
                return;
            }
            Sum::Unread => {
                complain(rt, "can't be read\n");
                return;
            }
        }
    }
    complain(rt, "can't be read\n");
}

fn main(rt: HostRuntime) {
    let words = tool_files::word_count(&rt);
    if words < 2 {
        digest_input(&rt, &mut rt.stdin(), FONT_INSTANCE);
        return;
    }
    if words > 2 {
        usage(&rt);
        return;
    }
    let mut word = [0u8; WORD];
    let n = tool_files::word_at(&rt, 1, &mut word);
    // Never: a word that is longer counts as none.
    if n > WORD {
        return;
    }
    match tool_sums::judge_word(&word[0..n]) {
        Some(i) => digest_input(&rt, &mut rt.stdin(), i),
        None => usage(&rt),
    }
}
