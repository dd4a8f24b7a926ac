// Writes known answers in the submission's own format, so that the submitters' files can be compared by one `diff`:
// `kat hash I` for GAGE instance I, `kat aead I` for InGAGE instance I. Thin over the proved calls.
#![tactic(auto)]

ghost use Rattle.std.specs.Prelude.{◌≤◌, length};

use digest_call::DIGEST;
use ingage_spec::Instance;

// The longest message of a hash file, and the longest text and associated data of an aead file, in bytes.
const LONGEST_MESSAGE: usize = 1024;

const LONGEST_TEXT: usize = 32;

// The seal of every instance of InGAGE in bytes (document 000, Table 2.1: T).
const SEAL: usize = 16;

// The longest word that is looked at.
const WORD: usize = 8;

// Why a file is not written whole: standard output does not take it, or there is nothing to write for what was asked.
#[derive(Clone, Copy)]
pub enum Fault {
    Unwritten,
    Unknown,
}

// Each of these fails where standard output does not take it whole: a file with a hole in it is no file of known answers.
fn say(rt: &impl Print, text: &[u8]) -> Result<(), Fault> {
    rt.write_all(text).map_err(|_| Fault::Unwritten)
}

fn complain(rt: &impl Eprint, text: &str) {
    let _ = rt.eprint(text);
}

// Upper-case hexadecimal digits of at most LONGEST_MESSAGE bytes.
fn hex(rt: &impl Print, value: &[u8]) -> Result<(), Fault> {
    let mut digits = [0u8; 2 * LONGEST_MESSAGE];
    let n = base_hex::put_hex(value, &mut digits);
    // Never: no more digits are put than there is room for.
    if n > digits.len() {
        return Err(Fault::Unwritten);
    }
    say(rt, &digits[..n])
}

// One value: its name, ` = `, and the digits.
fn row(rt: &impl Print, name: &[u8], value: &[u8]) -> Result<(), Fault> {
    say(rt, name)?;
    say(rt, b" = ")?;
    hex(rt, value)?;
    say(rt, b"\n")
}

fn count(rt: &impl Print, n: usize) -> Result<(), Fault> {
    say(rt, b"Count = ")?;
    rt.print(n).map_err(|_| Fault::Unwritten)?;
    say(rt, b"\n")
}

// 00 01 02 ..
fn ramp() -> [u8; LONGEST_MESSAGE] {
    let mut bytes = [0u8; LONGEST_MESSAGE];
    base_ramp::fill(&mut bytes, 0, 1);
    bytes
}

// The rows of an entry of a hash file.
fn hash_rows(rt: &impl Print, number: usize, message: &[u8], digest: &[u8]) -> Result<(), Fault> {
    count(rt, number)?;
    row(rt, b"Msg", message)?;
    row(rt, b"MD", digest)?;
    say(rt, b"\n")
}

// One entry of a hash file.
fn hash_entry(
    rt: &impl Print,
    instance: usize,
    number: usize,
    message: &[u8],
) -> Result<(), Fault> {
    let mut out = [0u8; DIGEST];
    let Ok(_) = digest_call::digest(instance, message, &mut out) else {
        return Err(Fault::Unknown);
    };
    hash_rows(rt, number, message, &out)
}

fn hash(rt: &impl Print, instance: usize) -> Result<(), Fault> {
    let bytes = ramp();
    for n in 0..LONGEST_MESSAGE + 1 {
        hash_entry(rt, instance, n + 1, &bytes[..n])?;
    }
    Ok(())
}

// What an entry of an aead file seals.
fn sealed_of(
    rt: &impl Print,
    number: usize,
    key: &[u8],
    nonce: &[u8],
    message: &[u8],
    associated: &[u8],
) -> Result<(), Fault> {
    count(rt, number)?;
    row(rt, b"Key", key)?;
    row(rt, b"Nonce", nonce)?;
    row(rt, b"PT", message)?;
    row(rt, b"AD", associated)
}

// The seal stands after the ciphertext.
fn sealed_to(rt: &impl Print, cipher: &[u8], seal: &[u8]) -> Result<(), Fault> {
    say(rt, b"CT = ")?;
    hex(rt, cipher)?;
    hex(rt, seal)?;
    say(rt, b"\n\n")
}

// One entry of an aead file, with a buffer as long as its text.
fn sealed_entry(
    rt: &impl Print,
    instance: usize,
    number: usize,
    key: &[u8],
    nonce: &[u8],
    message: &[u8],
    associated: &[u8],
    out: &mut [u8],
) -> Result<(), Fault> {
    let mut seal = [0u8; SEAL];
    // Never refused: sizes, lengths and room are right here.
    let Ok(_) = ingage_call::seal(instance, key, nonce, associated, message, out, &mut seal) else {
        return Err(Fault::Unknown);
    };
    sealed_of(rt, number, key, nonce, message, associated)?;
    sealed_to(rt, out, &seal)
}

fn aead_entry(
    rt: &impl Print,
    instance: usize,
    number: usize,
    key: &[u8],
    nonce: &[u8],
    message: &[u8],
    associated: &[u8],
) -> Result<(), Fault> {
    let mut out = [0u8; LONGEST_TEXT];
    let p = message.len();
    // Never: no text of the file is longer.
    if p > LONGEST_TEXT {
        return Err(Fault::Unknown);
    }
    sealed_entry(
        rt,
        instance,
        number,
        key,
        nonce,
        message,
        associated,
        &mut out[..p],
    )
}

// One entry: key, nonce, text and associated data are first bytes of the same ones.
fn counted_entry(
    rt: &impl Print,
    instance: usize,
    z: Instance,
    bytes: &[u8],
    p: usize,
    a: usize,
) -> Result<(), Fault>
    requires { (p ≤ 32) × (a ≤ 32) × (32 ≤ length bytes.now) }
{
    let k = z.key;
    let n = z.nonce;
    // Never: key and nonce of every instance are no longer than the longest text.
    if k > LONGEST_TEXT || n > LONGEST_TEXT {
        return Err(Fault::Unknown);
    }
    aead_entry(
        rt,
        instance,
        p * (LONGEST_TEXT + 1) + a + 1,
        &bytes[..k],
        &bytes[..n],
        &bytes[..p],
        &bytes[..a],
    )
}

// The entries of one text, over every length of associated data.
fn aead_text(
    rt: &impl Print,
    instance: usize,
    z: Instance,
    bytes: &[u8],
    p: usize,
) -> Result<(), Fault>
    requires { (p ≤ 32) × (32 ≤ length bytes.now) }
{
    for a in 0..LONGEST_TEXT + 1 {
        counted_entry(rt, instance, z, bytes, p, a)?;
    }
    Ok(())
}

fn aead(rt: &impl Print, instance: usize) -> Result<(), Fault> {
    let Some(z) = ingage_table::sizes_of(instance) else {
        return Err(Fault::Unknown);
    };
    let bytes = ramp();
    for p in 0..LONGEST_TEXT + 1 {
        aead_text(rt, instance, z, &bytes, p)?;
    }
    Ok(())
}

// A number of one or two digits; 0 where it is none.
fn number(word: &[u8]) -> usize {
    let mut n: usize = 0;
    for c in word {
        let Some(v) = base_hex::value(*c) else {
            return 0;
        };
        if v > 9 {
            return 0;
        }
        if n > 9 {
            return 0;
        }
        n = n * 10 + v as usize;
    }
    n
}

// What the file's writing says of it.
fn ended(rt: &impl Eprint, written: Result<(), Fault>) {
    match written {
        Ok(()) => {}
        Err(Fault::Unwritten) => complain(rt, "kat: not written whole\n"),
        Err(Fault::Unknown) => complain(rt, "kat: no such instance\n"),
    }
}

fn answered(rt: &(impl Print + Eprint), kind: &[u8], instance: usize) {
    if base_lists::compare(kind, b"hash") {
        ended(rt, hash(rt, instance));
    } else if base_lists::compare(kind, b"aead") {
        ended(rt, aead(rt, instance));
    } else {
        complain(rt, "usage: kat hash I (1 to 10), kat aead I (1 to 6)\n");
    }
}

fn main(rt: HostRuntime) {
    let mut kind = [0u8; WORD];
    let mut which = [0u8; WORD];
    let k = tool_files::word_at(&rt, 1, &mut kind);
    let w = tool_files::word_at(&rt, 2, &mut which);
    // Never: a word that is longer counts as none.
    if k > WORD {
        return;
    }
    if w > WORD {
        return;
    }
    answered(&rt, &kind[0..k], number(&which[0..w]));
}
