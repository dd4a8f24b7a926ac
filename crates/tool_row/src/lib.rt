// Rows of a listing (document 01, 'The listing program') written into a lent buffer: the row of a place, a number and a line, and the last row. Nothing here
// knows of a stream, so that whoever lists readings writes the same rows. The promises cite specs/Rows.antt and specs/Answers.antt.
#![tactic(auto)]

ghost use Rattle.std.specs.Prelude.{◌≡◌, [], ◌∷◌, ◌+◌, ◌≤◌, length};
ghost use Rattle.std.proofs.lemmas.List.Edits.{sets};
ghost use Rattle.line_spec.specs.Lines.{longest};
ghost use Rattle.tool_row.specs.Rows.{digits_in, decimal, line_text, row_text, last_row_text, row_room};
ghost use Rattle.tool_row.specs.Answers.{put_answer, put_out, row_answer, row_out};

use line_spec::LONGEST;

// No number of 64 bits has more decimal digits.
const MOST_DIGITS: usize = 20;

// Room for every row: the digits of a place, a blank, 0, a blank, the longest line, a newline.
pub const ROW_ROOM: usize = MOST_DIGITS + 1 + 1 + 1 + LONGEST + 1;

const BLANK: u8 = 0x20;

const NEWLINE: u8 = 0x0A;

// The digit 0; the others follow it.
const ZERO_DIGIT: u8 = 0x30;

// The number of a line that is given (document 01).
const GIVEN: u32 = 0;

// Why a row is not written.
#[derive(Clone, Copy)]
pub enum RowRefusal {
    // A line that is longer than lines are.
    TooLong,
    // A buffer without room for every row.
    NoRoom,
}

// The decimal digits of n, k at most, from a place on; the place behind them.
fn put_digits(out: &mut [u8], at: usize, n: u64, k: usize) -> usize
    requires { at + length (digits_in k n) ≤ length out.old }
    ensures value { result ≡ at + length (digits_in k n) }
    ensures out_after { out.new ≡ sets out.old at (digits_in k n) }
{
    if k == 0 {
        return at;
    }
    if n < 10 {
        out[at] = ZERO_DIGIT + n as u8;
        return at + 1;
    }
    let end = put_digits(out, at, n / 10, k - 1);
    out[end] = ZERO_DIGIT + (n % 10) as u8;
    end + 1
}

// One byte at a place; the place behind it.
fn put_byte(out: &mut [u8], at: usize, b: u8) -> usize
    requires { at + 1 ≤ length out.old }
    ensures value { result ≡ at + 1 }
    ensures out_after { out.new ≡ sets out.old at (b ∷ []) }
{
    out[at] = b;
    at + 1
}

// All of a text from a place on; the place behind it.
fn put_text(out: &mut [u8], at: usize, text: &[u8]) -> usize
    requires { at + length text.now ≤ length out.old }
    ensures value { result ≡ at + length text.now }
    ensures out_after { out.new ≡ sets out.old at text.now }
{
    base_lists::copy(text, &mut out[at..]);
    at + text.len()
}

// The line behind its blank, where the number is that of a line; the place behind them.
fn put_line(out: &mut [u8], at: usize, number: u32, line: &[u8]) -> usize
    requires { at + length (line_text number line.now) ≤ length out.old }
    ensures value { result ≡ at + length (line_text number line.now) }
    ensures out_after { out.new ≡ sets out.old at (line_text number line.now) }
{
    if number == GIVEN {
        let behind = put_byte(out, at, BLANK);
        return put_text(out, behind, line);
    }
    at
}

// The row at the buffer's start; its length.
fn lay_row(out: &mut [u8], place: u64, number: u32, line: &[u8]) -> usize
    requires { (length line.now ≤ longest) × (row_room ≤ length out.old) }
    ensures value { result ≡ length (row_text place number line.now) }
    ensures out_after { out.new ≡ sets out.old 0 (row_text place number line.now) }
{
    let a = put_digits(out, 0, place, MOST_DIGITS);
    let b = put_byte(out, a, BLANK);
    let c = put_digits(out, b, number as u64, MOST_DIGITS);
    let d = put_line(out, c, number, line);
    put_byte(out, d, NEWLINE)
}

// The last row at the buffer's start; its length.
fn lay_last(out: &mut [u8], lines: u64, refused: u64) -> usize
    requires { row_room ≤ length out.old }
    ensures value { result ≡ length (last_row_text lines refused) }
    ensures out_after { out.new ≡ sets out.old 0 (last_row_text lines refused) }
{
    let a = put_text(out, 0, b"lines ");
    let b = put_digits(out, a, lines, MOST_DIGITS);
    let c = put_text(out, b, b" refused ");
    let d = put_digits(out, c, refused, MOST_DIGITS);
    put_byte(out, d, NEWLINE)
}

// The row of a place, a number and a line; the line is written for number 0 alone.
pub fn put_row(place: u64, number: u32, line: &[u8], out: &mut [u8]) -> Result<usize, RowRefusal>
    ensures value { result ≡ row_answer place number line.now out.old }
    ensures out_after { out.new ≡ row_out place number line.now out.old }
{
    if line.len() > LONGEST {
        return Err(RowRefusal::TooLong);
    }
    if out.len() < ROW_ROOM {
        return Err(RowRefusal::NoRoom);
    }
    Ok(lay_row(out, place, number, line))
}

// The last row, which says how many rows had a line and how many a refusal.
pub fn put_last(lines: u64, refused: u64, out: &mut [u8]) -> Result<usize, RowRefusal>
    ensures value { result ≡ put_answer (last_row_text lines refused) out.old }
    ensures out_after { out.new ≡ put_out (last_row_text lines refused) out.old }
{
    if out.len() < ROW_ROOM {
        return Err(RowRefusal::NoRoom);
    }
    Ok(lay_last(out, lines, refused))
}
