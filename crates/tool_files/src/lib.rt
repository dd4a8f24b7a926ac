// Whole files into lent buffers, and the words that a program was started with, for the programs. Two calls decide: `judge_read` what one
// answer of the system's read is, `after_read` what becomes of a load; `held` says what of a load stands in a buffer. `hear`, `take_in` and
// `load` only move bytes, and hand every answer on. What a file or a word holds no contract can say. The promises cite specs/Loading.antt.
#![tactic(auto)]

ghost use Rattle.std.specs.Prelude.{◌≡◌, ◌+◌, ◌≤◌, length};
ghost use Rattle.std.proofs.lemmas.List.Edits.{sets};
ghost use Rattle.tool_files.specs.Loading.{heard_of, stepped, held_in, HeardIn, LoadedIn};

use std::env::{Env, FillError};
use std::io::{ErrorKind, Read};
use std::rt::Files;
use std::{fs, str};

// No load makes more reads: one that is interrupted again and again counts as failed at last.
const MOST_READS: u64 = 0xFFFF_FFFF_FFFF_FFFF;

// A load reads so many bytes at once.
const CHUNK: usize = 4096;

// What one read says.
#[derive(Clone, Copy)]
pub enum Heard {
    // So many bytes, at least one.
    Some(usize),
    // A signal came first: the read is to be made again.
    Again,
    // The end of the file.
    End,
    // It can't be read, or not on.
    Failed,
}

// Why a load gives no bytes.
#[derive(Clone, Copy)]
pub enum LoadFault {
    // More than the buffer holds.
    Long,
    // It is missing, or can't be read to its end.
    Failed,
}

// What becomes of a load after a read.
#[derive(Clone, Copy)]
pub enum Step {
    // It goes on with so many bytes.
    On(usize),
    Ended(Result<usize, LoadFault>),
}

// What the answer of a read says, given whether the system's error is that it was interrupted.
pub fn judge_read(got: isize, interrupted: bool) -> Heard
    ensures { result ≡ heard_of got interrupted }
{
    if got > 0 {
        return Heard::Some(got as usize);
    }
    if got < 0 {
        if interrupted {
            return Heard::Again;
        }
        return Heard::Failed;
    }
    Heard::End
}

// What becomes of a load of so many bytes into a buffer of so much room.
pub fn after_read(done: usize, room: usize, heard: Heard) -> Step
    ensures { result ≡ stepped done room heard }
{
    match heard {
        Heard::Some(n) => {
            if done > room {
                return Step::Ended(Err(LoadFault::Long));
            }
            if n > room - done {
                return Step::Ended(Err(LoadFault::Long));
            }
            Step::On(done + n)
        }
        Heard::Again => Step::On(done),
        Heard::End => Step::Ended(Ok(done)),
        Heard::Failed => Step::Ended(Err(LoadFault::Failed)),
    }
}

// What a load is in a buffer of so much room: a count beyond it is none.
pub fn held(loaded: Result<usize, LoadFault>, room: usize) -> Result<usize, LoadFault>
    ensures { result ≡ held_in loaded room }
{
    match loaded {
        Ok(n) => {
            if n > room {
                return Err(LoadFault::Failed);
            }
            Ok(n)
        }
        Err(fault) => Err(fault),
    }
}

// One read, at the start of chunk, and what it says.
pub fn hear<R: Read>(reader: &mut R, chunk: &mut [u8]) -> Heard
    ensures { HeardIn result (length chunk.new) }
{
    match reader.read(chunk) {
        Ok(n) => judge_read(n as isize, false),
        Err(e) => judge_read(-1, e.kind() == ErrorKind::Interrupted),
    }
}

// A part of the file behind the bytes that buf has of it so far.
fn put(part: &[u8], buf: &mut [u8], done: usize)
    requires { done + length part.now ≤ length buf.old }
    ensures { buf.new ≡ sets buf.old done part.now }
{
    base_lists::copy(part, &mut buf[done..]);
}

// What is left to read, at the start of buf.
pub fn take_in<R: Read>(reader: &mut R, buf: &mut [u8]) -> Result<usize, LoadFault>
    ensures { LoadedIn result buf.old buf.new }
{
    let mut chunk = [0u8; CHUNK];
    let mut done = 0;
    for _ in 0..MOST_READS {
        let heard = hear(reader, &mut chunk);
        match after_read(done, buf.len(), heard) {
            Step::On(n) => {
                let more = n - done;
                put(&chunk[0..more], buf, done);
                done = n;
            }
            Step::Ended(loaded) => return loaded,
        }
    }
    Err(LoadFault::Failed)
}

// The file at a path, at the start of buf. A path that is no text names none.
pub fn load<F: Files>(files: &F, path: &[u8], buf: &mut [u8]) -> Result<usize, LoadFault>
    ensures { LoadedIn result buf.old buf.new }
{
    let Ok(name) = str::from_utf8(path) else {
        return Err(LoadFault::Failed);
    };
    match fs::open(files, name) {
        Ok(mut file) => take_in(&mut file, buf),
        Err(_) => Err(LoadFault::Failed),
    }
}

// Whether the program was started with a word at place i; its own name is word 0.
fn has_word<E: Env>(env: &E, i: usize) -> bool {
    let mut none = [0u8; 1];
    match env.arg(i, &mut none) {
        Ok(_) => true,
        Err(FillError::TooLong) => true,
        Err(FillError::NotPresent) => false,
    }
}

// How many words the program was started with, its own name among them.
pub fn word_count<E: Env>(env: &E) -> usize {
    for i in 0..usize::MAX {
        if !has_word(env, i) {
            return i;
        }
    }
    usize::MAX
}

// The word at place i, at the start of word, and its length: 0 where there is none, or where it is longer than there is room for.
pub fn word_at<E: Env>(env: &E, i: usize, word: &mut [u8]) -> usize
    ensures { result ≤ length word.new }
{
    match env.arg(i, word) {
        Ok(n) => n,
        Err(_) => 0,
    }
}
