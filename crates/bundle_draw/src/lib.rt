// The drawing of a glyph bundle as text, for people. The promises cite specs/Answers.antt; the drawing stands in specs/Drawing.antt.
#![tactic(auto)]

ghost use Rattle.std.specs.Prelude.{◌≡◌, ◌+◌, ◌*◌, ◌≤◌, ◌<◌, length, get_or, take};
ghost use Rattle.bundle_spec.specs.Bundles.{all_rows, longest_name};
ghost use Rattle.bundle_spec.specs.Lengths.{beside_name};
ghost use Rattle.base_lists.specs.Buffers.{over};
ghost use Rattle.bundle_read.specs.declared.BundleFault.TheVariants as bundle-is;
ghost use Rattle.bundle_read.specs.Answers.{read_answer};
ghost use Rattle.bundle_dots.specs.Faults.{fault};
ghost use Rattle.bundle_draw.specs.Answers.{refusal_for, show_answer, show_out, show_number, show_length, gathered_from};
ghost use Rattle.bundle_draw.specs.Making.{end_of, name_length_of, hex_value, name_byte, dot_value, row_byte, row_from};
ghost use Rattle.bundle_draw.specs.Making.{fault_for, make_answer, make_out, make_number, make_length, make_row};
ghost use Rattle.bundle_draw.specs.Drawing.{longest_drawing, listed, legible, digit_at, name_char, row_char, char_at, drawing, drawing_length};

use bundle_dots::{BLANK, LINE, NEWLINE, PRINTED, UNPRINTED, line_char};
use bundle_read::{BundleFault, GLYPH_FIELD};
use bundle_rules::{CHARACTERS, GLYPH_ROWS, LONGEST_NAME};
use bundle_write::{BundleRefusal, ROWS};

// The printing characters of ASCII.
const FIRST_PRINTING: u8 = 0x20;

const LAST_PRINTING: u8 = 0x7E;

// The word before a name.
const WORD: usize = 5;

const NAME_WORD: [u8; WORD] = [b'n', b'a', b'm', b'e', BLANK];

// What a drawing has beside three bytes for each of its name: the word, a blank and a newline, and a line for each row; and the longest drawing,
// which is the least room for one.
const BESIDE_NAME: usize = WORD + 2 + ROWS * LINE;

pub const LONGEST_DRAWING: usize = BESIDE_NAME + 3 * LONGEST_NAME;

// Why there is no drawing.
#[derive(Clone, Copy)]
pub enum ShowRefusal {
    Shape,
    Alike,
    NoRoom,
}

// Why a drawing makes no bundle: its first row that is not as it must be (from 1), two glyphs with the same dots, no room.
#[derive(Clone, Copy)]
pub enum DrawingFault {
    Row(usize),
    Alike,
    NoRoom,
}

// Bytes that are no bundle have no drawing.
impl From<BundleFault> for ShowRefusal {
    ghost from_gives = { λ fault refusal. refusal ≡ refusal_for fault };

    fn from(fault: BundleFault) -> ShowRefusal {
        match fault {
            BundleFault::Shape => ShowRefusal::Shape,
            BundleFault::Alike => ShowRefusal::Alike,
        }
    }
}

// Where the writer refuses the name and rows of a drawing, its first row is at fault.
impl From<BundleRefusal> for DrawingFault {
    ghost from_gives = { λ refusal fault. fault ≡ fault_for refusal };

    fn from(refusal: BundleRefusal) -> DrawingFault {
        match refusal {
            BundleRefusal::Shape => DrawingFault::Row(1),
            BundleRefusal::Alike => DrawingFault::Alike,
            BundleRefusal::NoRoom => DrawingFault::NoRoom,
        }
    }
}

// How a byte of a name reads.
#[tactic(auto, unfolding(crate::specs::Drawing::legible))]
fn read_as(b: u8) -> u8
    ensures { result ≡ legible b }
{
    match b {
        FIRST_PRINTING..=LAST_PRINTING => b,
        _ => UNPRINTED,
    }
}

// Place j of the digits of a name.
#[tactic(auto, unfolding(crate::specs::Drawing::digit_at))]
fn digit_at(name: &[u8], j: usize) -> u8
    requires { j < 2 * length name.now }
    ensures { result ≡ digit_at name.now j }
{
    let b = name[j / 2];
    base_hex::last_digit(if j % 2 == 0 { b / 16 } else { b })
}

// Place i of the line of a name.
#[tactic(auto, unfolding(crate::specs::Drawing::name_char))]
fn name_char(name: &[u8], i: usize) -> u8
    requires { length name.now ≤ longest_name }
    ensures { result ≡ name_char name.now i }
{
    let n = name.len();
    if i < WORD {
        NAME_WORD[i]
    } else if i < 2 * n + 5 {
        digit_at(name, i - WORD)
    } else if i == 2 * n + 5 {
        BLANK
    } else if i < 3 * n + 6 {
        read_as(name[i - (2 * n + 6)])
    } else {
        NEWLINE
    }
}

// Place j of the lines of all rows.
#[tactic(auto, unfolding(crate::specs::Drawing::row_char))]
fn row_char(rows: &[u8], j: usize) -> u8
    requires { (length rows.now ≡ all_rows) × (j < 1260) }
    ensures { result ≡ row_char rows.now j }
{
    let k = j / LINE;
    line_char(CHARACTERS[k / GLYPH_ROWS], rows[k], j % LINE)
}

// Place i of the drawing of a name and rows.
#[tactic(auto, unfolding(crate::specs::Drawing::char_at))]
fn char_at(name: &[u8], rows: &[u8], i: usize) -> u8
    requires name_len_bound { length name.now ≤ longest_name }
    requires rows_len { length rows.now ≡ all_rows }
    requires i_bound { i < drawing_length (length name.now) }
    ensures { result ≡ char_at name.now rows.now i }
{
    let line = 3 * name.len() + 7;
    if i < line {
        name_char(name, i)
    } else {
        row_char(rows, i - line)
    }
}

// The drawing of a name and rows over the start of out.
fn put_drawing(name: &[u8], rows: &[u8], out: &mut [u8])
    requires name_len_bound { length name.now ≤ longest_name }
    requires rows_len { length rows.now ≡ all_rows }
    requires longest_drawing_in_bounds { longest_drawing ≤ length out.old }
    ensures { out.new ≡ over (drawing name.now rows.now) out.old }
{
    let end = 3 * name.len() + BESIDE_NAME;
    for i in 0..end {
        out[i] = char_at(name, rows, i);
    }
}

// The rows of a bundle with a name of n bytes, one behind the other.
fn gathered(bundle: &[u8], n: usize) -> [u8; ROWS]
    requires { (n ≤ longest_name) × (length bundle.now ≡ beside_name + n) }
    ensures { result ≡ gathered_from bundle.now n }
{
    let mut rows = [0u8; ROWS];
    for (k, row) in rows.iter_mut().enumerate() {
        *row = bundle[n + 7 + GLYPH_FIELD * (k / GLYPH_ROWS) + k % GLYPH_ROWS];
    }
    rows
}

// The drawing of a bundle with a name of n bytes, if there is room for the longest.
fn drawn(bundle: &[u8], n: usize, out: &mut [u8]) -> Result<usize, ShowRefusal>
    requires { read_answer bundle.now ≡ Ok n }
    ensures value { result ≡ show_answer bundle.now out.old }
    ensures out_after { out.new ≡ show_out bundle.now out.old }
{
    if out.len() < LONGEST_DRAWING {
        return Err(ShowRefusal::NoRoom);
    }
    let rows = gathered(bundle, n);
    put_drawing(bundle_write::name(bundle), &rows, out);
    Ok(3 * n + BESIDE_NAME)
}

// The drawing of a bundle over the start of out; the rest of out stays, and all of it on a refusal.
#[tactic(auto, unfolding(crate::specs::Answers::show_answer, crate::specs::Answers::show_out))]
pub fn show(bundle: &[u8], out: &mut [u8]) -> Result<usize, ShowRefusal>
    ensures value { result ≡ show_answer bundle.now out.old }
    ensures out_after { out.new ≡ show_out bundle.now out.old }
{
    let n = bundle_read::read(bundle)?;
    drawn(bundle, n, out)
}

// The number of what `show` answers (document 01, order W1), and the length of the drawing.
pub fn show_number(answer: Result<usize, ShowRefusal>) -> u32
    ensures { result ≡ show_number answer }
{
    match answer {
        Ok(_) => 0,
        Err(ShowRefusal::Shape) => 11,
        Err(ShowRefusal::Alike) => 12,
        Err(ShowRefusal::NoRoom) => 4,
    }
}

pub fn show_length(answer: Result<usize, ShowRefusal>) -> usize
    ensures { result ≡ show_length answer }
{
    answer.unwrap_or(0)
}

// Where the first line of a text ends: the place of its newline, or the text's length.
fn line_end(text: &[u8]) -> usize
    ensures { result ≡ end_of text.now }
{
    text.iter()
        .position(|c| *c == NEWLINE)
        .unwrap_or(text.len())
}

// How many bytes the name has whose line ends at a place; no more than the longest.
#[tactic(auto, unfolding(crate::specs::Making::name_length_of))]
fn name_length(end: usize) -> usize
    ensures { result ≡ name_length_of end }
{
    (end.saturating_sub(6) / 3).min(LONGEST_NAME)
}

// The byte at a place of a text; 0 behind its end.
fn byte_at(text: &[u8], i: usize) -> u8
    ensures { result ≡ get_or text.now i 0 }
{
    text.get(i).copied().unwrap_or(0)
}

// The value of an upper-case hexadecimal digit; 0 of anything else.
#[tactic(auto, unfolding(crate::specs::Making::hex_value))]
fn hex_value(c: u8) -> u8
    ensures { (result ≡ hex_value c) × (result < 16) }
{
    match c {
        b'0'..=b'9' => c - b'0',
        b'A'..=b'F' => c - b'A' + 10,
        _ => 0,
    }
}

// Byte i of the name that a text draws.
#[tactic(auto, unfolding(crate::specs::Making::name_byte))]
fn name_byte(text: &[u8], i: usize) -> u8
    requires { i < longest_name }
    ensures { result ≡ name_byte text.now i }
{
    hex_value(byte_at(text, 2 * i + 5)) * 16 + hex_value(byte_at(text, 2 * i + 6))
}

// The name that a text draws, of n bytes, at the start of a room for the longest.
fn name_of(text: &[u8], n: usize) -> [u8; LONGEST_NAME]
    requires { n ≤ longest_name }
    ensures { take n result ≡ listed (name_byte text.now) n }
{
    let mut name = [0u8; LONGEST_NAME];
    for i in 0..n {
        name[i] = name_byte(text, i);
    }
    name
}

// What a dot at a place of a text counts in its row.
#[tactic(auto, unfolding(crate::specs::Making::dot_value))]
fn dot_value(text: &[u8], i: usize, w: u8) -> u8
    ensures { (result ≡ dot_value (get_or text.now i 0) w) × (result ≤ w) }
{
    if byte_at(text, i) == PRINTED { w } else { 0 }
}

// The row that the line at a place of a text draws.
#[tactic(auto, unfolding(crate::specs::Making::row_byte))]
fn row_at(text: &[u8], at: usize) -> u8
    requires { at < 2000 }
    ensures { result ≡ row_byte text.now at }
{
    dot_value(text, at + 2, 64)
        + dot_value(text, at + 3, 32)
        + dot_value(text, at + 4, 16)
        + dot_value(text, at + 5, 8)
        + dot_value(text, at + 6, 4)
        + dot_value(text, at + 7, 2)
        + dot_value(text, at + 8, 1)
}

// The rows that the lines of a text draw, from a place on.
fn rows_of(text: &[u8], from: usize) -> [u8; ROWS]
    requires { from ≤ 103 }
    ensures { result ≡ listed (row_from text.now from) all_rows }
{
    let mut rows = [0u8; ROWS];
    for (k, row) in rows.iter_mut().enumerate() {
        *row = row_at(text, LINE * k + from);
    }
    rows
}

// The first row of a text, from 1, that is not as in the drawing of a name and rows; 0 where the text is that drawing.
fn fault_row(name: &[u8], rows: &[u8], text: &[u8]) -> usize
    requires name_len_bound { length name.now ≤ longest_name }
    requires rows_len { length rows.now ≡ all_rows }
    ensures { result ≡ fault (char_at name.now rows.now) (drawing_length (length name.now)) 0 1 text.now }
{
    let mut drawing = [0u8; LONGEST_DRAWING];
    put_drawing(name, rows, &mut drawing);
    let end = 3 * name.len() + BESIDE_NAME;
    bundle_dots::fault_row(&drawing[0..end], text)
}

// The bundle of a drawing over the start of out; the rest of out stays, and all of it on a refusal.
pub fn make(text: &[u8], out: &mut [u8]) -> Result<usize, DrawingFault>
    ensures value { result ≡ make_answer text.now out.old }
    ensures out_after { out.new ≡ make_out text.now out.old }
{
    let n = name_length(line_end(text));
    let name = name_of(text, n);
    let rows = rows_of(text, 3 * n + 7);
    let row = fault_row(&name[0..n], &rows, text);
    if row != 0 {
        return Err(DrawingFault::Row(row));
    }
    Ok(bundle_write::write(&name[0..n], &rows, out)?)
}

// The number of what `make` answers (document 01, order W1), the length of the bundle, and the row at fault.
pub fn make_number(answer: Result<usize, DrawingFault>) -> u32
    ensures { result ≡ make_number answer }
{
    match answer {
        Ok(_) => 0,
        Err(DrawingFault::Row(_)) => 11,
        Err(DrawingFault::Alike) => 12,
        Err(DrawingFault::NoRoom) => 4,
    }
}

pub fn make_length(answer: Result<usize, DrawingFault>) -> usize
    ensures { result ≡ make_length answer }
{
    answer.unwrap_or(0)
}

pub fn make_row(answer: Result<usize, DrawingFault>) -> usize
    ensures { result ≡ make_row answer }
{
    match answer {
        Ok(_) => 0,
        Err(DrawingFault::Row(k)) => k,
        Err(DrawingFault::Alike) => 0,
        Err(DrawingFault::NoRoom) => 0,
    }
}
