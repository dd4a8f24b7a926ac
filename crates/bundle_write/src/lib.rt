// Glyph bundles (order W1): the writer, the font digest of a bundle, and its parts as parts of the caller's bytes.
// The promises cite specs/Answers.antt; specs/Exactly.antt says that what is written is read and what is read was written.
#![tactic(auto)]

ghost use Rattle.std.specs.Prelude.{◌≡◌, true, ◌∷◌, ◌+◌, ◌*◌, ◌≤◌, ◌<◌, length, get_or, take, drop};
ghost use Rattle.digest_call.specs.Answers.{LONGEST-MESSAGE};
ghost use Rattle.bundle_spec.specs.Bundles.{name_tag, longest_name, glyph_rows, characters, glyph_count, all_rows, takes, bundle_of};
ghost use Rattle.bundle_spec.specs.Lengths.{longest_bundle};
ghost use Rattle.bundle_read.specs.Answers as reading;
ghost use Rattle.bundle_write.specs.Answers.{refusal_for, font_refusal_for, write_answer, write_out, digest_answer, digest_out, no_part, name_part, glyph_part};
ghost use Rattle.bundle_write.specs.Answers.{rows_part, name_in, rows_in, write_number, write_length, digest_number};
ghost use Rattle.bundle_write.specs.Steps.{given_answer, given_out, font_answer, font_out};

use base_fields::{HEAD_LENGTH, put_field};
use bundle_read::{BESIDE_NAME, BundleFault, GLYPH_FIELD, ROWS_AT};
use bundle_rules::{
    CHARACTERS, GLYPH_LENGTH, GLYPH_ROWS, GLYPH_TAG, GLYPHS, LONGEST_NAME, NAME_TAG,
};
use digest_call::{DIGEST, LONGEST_MESSAGE};

// The rows of all glyphs, and the room for a bundle (order W1).
pub const ROWS: usize = GLYPHS * GLYPH_ROWS;

pub const BUNDLE_ROOM: usize = BESIDE_NAME + LONGEST_NAME;

// A font is digested with instance 1 (document 01).
const FONT_INSTANCE: usize = 1;

// Why a bundle is not written.
#[derive(Clone, Copy)]
pub enum BundleRefusal {
    Shape,
    Alike,
    NoRoom,
}

// Why no font digest is written.
#[derive(Clone, Copy)]
pub enum FontRefusal {
    TooLong,
    Shape,
    Alike,
    NoRoom,
}

// Bytes that are no bundle are not written.
impl From<BundleFault> for BundleRefusal {
    ghost from_gives = { λ fault refusal. refusal ≡ refusal_for fault };

    fn from(fault: BundleFault) -> BundleRefusal {
        match fault {
            BundleFault::Shape => BundleRefusal::Shape,
            BundleFault::Alike => BundleRefusal::Alike,
        }
    }
}

// Nor is their digest.
impl From<BundleFault> for FontRefusal {
    ghost from_gives = { λ fault refusal. refusal ≡ font_refusal_for fault };

    fn from(fault: BundleFault) -> FontRefusal {
        match fault {
            BundleFault::Shape => FontRefusal::Shape,
            BundleFault::Alike => FontRefusal::Alike,
        }
    }
}

// Where a part of some bytes stands.
#[derive(Clone, Copy)]
pub struct Part {
    pub first: usize,
    pub length: usize,
}

// The value of the field of glyph i: its character and its rows.
fn glyph_value(rows: &[u8], i: usize) -> [u8; GLYPH_LENGTH]
    requires { (i < glyph_count) × (length rows.now ≡ all_rows) }
    ensures { result ≡ get_or characters i 0 ∷ take glyph_rows (drop (glyph_rows * i) rows.now) }
{
    let mut value = [CHARACTERS[i]; GLYPH_LENGTH];
    let from = GLYPH_ROWS * i;
    value[1..].copy_from_slice(&rows[from..from + GLYPH_ROWS]);
    value
}

// The bundle of a name and rows of right lengths, at the start of a room for one.
fn made(name: &[u8], rows: &[u8]) -> [u8; BUNDLE_ROOM]
    requires { (takes name_tag (length name.now) ≡ true) × (length rows.now ≡ all_rows) }
    ensures { take (length (bundle_of name.now rows.now)) result ≡ bundle_of name.now rows.now }
{
    let mut bundle = [0u8; BUNDLE_ROOM];
    let mut at = put_field(&mut bundle, 0, NAME_TAG, name);
    for i in 0..GLYPHS {
        at = put_field(&mut bundle, at, GLYPH_TAG, &glyph_value(rows, i));
    }
    bundle
}

// A bundle over the start of out, if there is room for the longest.
fn give(bundle: &[u8], out: &mut [u8]) -> Result<usize, BundleRefusal>
    requires { length bundle.now ≤ longest_bundle }
    ensures value { result ≡ given_answer bundle.now out.old }
    ensures out_after { out.new ≡ given_out bundle.now out.old }
{
    if out.len() < BUNDLE_ROOM {
        return Err(BundleRefusal::NoRoom);
    }
    out[..bundle.len()].copy_from_slice(bundle);
    Ok(bundle.len())
}

// Writes the bundle of a name and 126 rows to the start of out; the rest of out stays, and all of it on a refusal. What it gives out it has
// first judged as the reader does.
pub fn write(name: &[u8], rows: &[u8], out: &mut [u8]) -> Result<usize, BundleRefusal>
    ensures value { result ≡ write_answer name.now rows.now out.old }
    ensures out_after { out.new ≡ write_out name.now rows.now out.old }
{
    if !bundle_rules::rule_takes(NAME_TAG, name.len()) {
        return Err(BundleRefusal::Shape);
    }
    if rows.len() != ROWS {
        return Err(BundleRefusal::Shape);
    }
    let bundle = made(name, rows);
    let n = BESIDE_NAME + name.len();
    bundle_read::read(&bundle[..n])?;
    give(&bundle[..n], out)
}

// The font digest of a bundle over the start of out, if there is room for it: instance 1 over all of the bundle.
fn font_digest(bundle: &[u8], out: &mut [u8]) -> Result<(), FontRefusal>
    requires { length bundle.now ≤ LONGEST-MESSAGE }
    ensures value { result ≡ font_answer out.old }
    ensures out_after { out.new ≡ font_out bundle.now out.old }
{
    if out.len() < DIGEST {
        return Err(FontRefusal::NoRoom);
    }
    // Never refused: the instance is known, no bundle is that long, and there is room.
    let _ = digest_call::digest(FONT_INSTANCE, bundle, out);
    Ok(())
}

// The font digest of a bundle over the first 32 bytes of out; the rest of out stays, and all of it on a refusal.
#[tactic(auto, unfolding(crate::specs::Answers::digest_answer, crate::specs::Answers::digest_out))]
pub fn digest_of(bundle: &[u8], out: &mut [u8]) -> Result<(), FontRefusal>
    ensures value { result ≡ digest_answer bundle.now out.old }
    ensures out_after { out.new ≡ digest_out bundle.now out.old }
{
    if bundle.len() > LONGEST_MESSAGE {
        return Err(FontRefusal::TooLong);
    }
    bundle_read::read(bundle)?;
    font_digest(bundle, out)
}

// The empty part at the end of some bytes.
fn no_part(bytes: &[u8]) -> Part
    ensures { result ≡ no_part bytes.now }
{
    Part {
        first: bytes.len(),
        length: 0,
    }
}

// Where the name of a bundle stands; in bytes that are no bundle the empty part at their end.
#[tactic(auto, unfolding(crate::specs::Answers::name_part))]
pub fn name_part(bundle: &[u8]) -> Part
    ensures { result ≡ name_part bundle.now }
{
    match bundle_read::read(bundle) {
        Ok(n) => Part {
            first: HEAD_LENGTH,
            length: n,
        },
        Err(_) => no_part(bundle),
    }
}

// Where the rows of glyph i stand in a bundle with a name of n bytes; the empty part at the end where there is no such glyph.
fn glyph_part(bundle: &[u8], n: usize, i: usize) -> Part
    requires { n ≤ longest_name }
    ensures { result ≡ glyph_part n i bundle.now }
{
    if i < GLYPHS {
        Part {
            first: HEAD_LENGTH + n + (GLYPH_FIELD * i + ROWS_AT),
            length: GLYPH_ROWS,
        }
    } else {
        no_part(bundle)
    }
}

// Where the rows of a character stand; of another character, and in bytes that are no bundle, the empty part at their end.
#[tactic(auto, unfolding(crate::specs::Answers::rows_part))]
pub fn rows_part(bundle: &[u8], character: u8) -> Part
    ensures { result ≡ rows_part bundle.now character }
{
    match bundle_read::read(bundle) {
        Ok(n) => glyph_part(bundle, n, bundle_rules::index_of(character)),
        Err(_) => no_part(bundle),
    }
}

// The name itself, a part of the caller's bundle.
#[tactic(auto, unfolding(crate::specs::Answers::name_in))]
pub fn name(bundle: &[u8]) -> &[u8]
    ensures result_value { result.now ≡ name_in bundle.now }
    ensures ref_ptr_value { result.ref_ptr ≡ (bundle.entry.ref_ptr.0, (name_part bundle.now).first + bundle.entry.ref_ptr.1) }
{
    let part = name_part(bundle);
    &bundle[part.first..part.first + part.length]
}

// The rows of a character themselves, a part of the caller's bundle.
#[tactic(auto, unfolding(crate::specs::Answers::rows_in))]
pub fn rows(bundle: &[u8], character: u8) -> &[u8]
    ensures result_value { result.now ≡ rows_in bundle.now character }
    ensures ref_ptr_value { result.ref_ptr ≡ (bundle.entry.ref_ptr.0, (rows_part bundle.now character).first + bundle.entry.ref_ptr.1) }
{
    let part = rows_part(bundle, character);
    &bundle[part.first..part.first + part.length]
}

// The number of what a call answers (document 01, order W1), and the length that it reports: of the name read, of the bundle written.
pub fn read_number(answer: Result<usize, BundleFault>) -> u32
    ensures { result ≡ reading.read_number answer }
{
    match answer {
        Ok(_) => 0,
        Err(BundleFault::Shape) => 11,
        Err(BundleFault::Alike) => 12,
    }
}

pub fn read_length(answer: Result<usize, BundleFault>) -> usize
    ensures { result ≡ reading.length_of answer }
{
    answer.unwrap_or(0)
}

pub fn write_number(answer: Result<usize, BundleRefusal>) -> u32
    ensures { result ≡ write_number answer }
{
    match answer {
        Ok(_) => 0,
        Err(BundleRefusal::Shape) => 11,
        Err(BundleRefusal::Alike) => 12,
        Err(BundleRefusal::NoRoom) => 4,
    }
}

pub fn write_length(answer: Result<usize, BundleRefusal>) -> usize
    ensures { result ≡ write_length answer }
{
    answer.unwrap_or(0)
}

pub fn digest_number(answer: Result<(), FontRefusal>) -> u32
    ensures { result ≡ digest_number answer }
{
    match answer {
        Ok(()) => 0,
        Err(FontRefusal::TooLong) => 3,
        Err(FontRefusal::Shape) => 11,
        Err(FontRefusal::Alike) => 12,
        Err(FontRefusal::NoRoom) => 4,
    }
}
