// Bytes judged as a glyph bundle (order W1): the reader, which accepts exactly what the writer can make. The promises cite specs/Answers.antt; what a
// bundle is stands in bundles, and the rules of its parts are asked of rules.
#![tactic(auto)]

ghost use Rattle.std.specs.Prelude.{◌≡◌, ◌+◌, ◌*◌, ◌≤◌, length, take, drop};
ghost use Rattle.base_fields.specs.Fields.{high_byte, front};
ghost use Rattle.bundle_spec.specs.Bundles.{glyph_tag, glyph_rows, characters, glyph_count, takes, among, repeated, glyph_of, rows_of};
ghost use Rattle.bundle_spec.specs.Lengths.{glyph_field, glyphs_length};
ghost use Rattle.bundle_spec.specs.Places.{rows_at, glyphs_at};
ghost use Rattle.bundle_read.specs.Answers.{length_found, is_field, is_rows, told, read_answer};

use base_fields::HEAD_LENGTH;
use bundle_rules::{CHARACTERS, GLYPH_LENGTH, GLYPH_TAG, GLYPHS, NAME_TAG, all_dotted, rule_takes};

// Where in a glyph's field its character and its rows stand, and how long the field is.
const CHARACTER_AT: usize = HEAD_LENGTH;

pub const ROWS_AT: usize = CHARACTER_AT + 1;

pub const GLYPH_FIELD: usize = HEAD_LENGTH + GLYPH_LENGTH;

// How long all glyphs are together, and what stands in a bundle beside the bytes of the name.
const GLYPHS_LENGTH: usize = GLYPHS * GLYPH_FIELD;

pub const BESIDE_NAME: usize = HEAD_LENGTH + GLYPHS_LENGTH;

// Why bytes are no bundle.
#[derive(Clone, Copy)]
pub enum BundleFault {
    // Not of the shape of a bundle: 11.
    Shape,
    // Two glyphs with the same dots: 12.
    Alike,
}

// What the two bytes of a length say.
fn length_said(high: u8, low: u8) -> usize
    ensures { result ≡ high * high_byte + low }
{
    usize::from(u16::from_be_bytes([high, low]))
}

// The length of the value of the field with this tag at a place of b; 0 where there is no such field, since no rule takes 0.
fn value_at(b: &[u8], at: usize, tag: u8) -> usize
    requires { at ≤ length b.now }
    ensures { result ≡ length_found (front takes tag (drop at b.now)) }
{
    let [first, high, low, rest @ ..] = &b[at..] else {
        return 0;
    };
    let n = length_said(*high, *low);
    if *first == tag && rule_takes(tag, n) && n <= rest.len() {
        n
    } else {
        0
    }
}

// Whether the glyph of the character c stands at a place of b.
fn glyph_at(b: &[u8], at: usize, c: u8) -> bool
    requires { at + glyph_field ≤ length b.now }
    ensures { result ≡ is_field (glyph_of c (front takes glyph_tag (drop at b.now))) }
{
    value_at(b, at, GLYPH_TAG) != 0
        && b[at + CHARACTER_AT] == c
        && all_dotted(&b[at + ROWS_AT..at + GLYPH_FIELD])
}

// Whether the fourteen glyphs stand from a place of b to its end.
fn glyphs_from(b: &[u8], from: usize) -> bool
    requires { from + glyphs_length ≡ length b.now }
    ensures { result ≡ is_rows (rows_of characters (drop from b.now)) }
{
    for (i, c) in CHARACTERS.iter().enumerate() {
        if !glyph_at(b, from + GLYPH_FIELD * i, *c) {
            return false;
        }
    }
    true
}

// Whether the glyph at the place g has the same dots as one of those that stand from a place of b to its end, so many.
fn among_behind(b: &[u8], g: usize, from: usize, count: usize) -> bool
    requires { (g + glyph_field ≤ length b.now) × (from + glyph_field * count ≡ length b.now) }
    ensures { result ≡ among (take glyph_rows (drop rows_at (drop g b.now))) (glyphs_at count (drop from b.now)) }
{
    for i in 0..count {
        let at = from + GLYPH_FIELD * i;
        if base_lists::compare(
            &b[g + ROWS_AT..g + GLYPH_FIELD],
            &b[at + ROWS_AT..at + GLYPH_FIELD],
        ) {
            return true;
        }
    }
    false
}

// Whether two of the glyphs that stand from a place of b to its end have the same dots: each is held to all behind it.
fn alike_from(b: &[u8], from: usize) -> bool
    requires { from + glyphs_length ≡ length b.now }
    ensures { result ≡ repeated (glyphs_at glyph_count (drop from b.now)) }
{
    for i in 0..GLYPHS {
        let at = from + GLYPH_FIELD * i;
        if among_behind(b, at, at + GLYPH_FIELD, GLYPHS - 1 - i) {
            return true;
        }
    }
    false
}

// The answer for bytes as long as a bundle with a name of n bytes: 11 is judged over all of them before 12.
fn answer(stand: bool, alike: bool, n: usize) -> Result<usize, BundleFault>
    ensures { result ≡ told stand alike n }
{
    if !stand {
        Err(BundleFault::Shape)
    } else if alike {
        Err(BundleFault::Alike)
    } else {
        Ok(n)
    }
}

// Judges bytes as a bundle.
pub fn read(bundle: &[u8]) -> Result<usize, BundleFault>
    ensures { result ≡ read_answer bundle.now }
{
    let n = value_at(bundle, 0, NAME_TAG);
    if n == 0 {
        return Err(BundleFault::Shape);
    }
    let from = HEAD_LENGTH + n;
    if bundle.len() - from != GLYPHS_LENGTH {
        return Err(BundleFault::Shape);
    }
    answer(glyphs_from(bundle, from), alike_from(bundle, from), n)
}
