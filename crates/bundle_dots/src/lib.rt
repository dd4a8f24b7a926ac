// The lines of a drawing: what stands at a place of the line of a row, and which row of a text is not as a drawing has it. The promises cite
// specs/Lines.antt and specs/Faults.antt.
#![tactic(auto)]

ghost use Rattle.std.specs.Prelude.{◌≡◌, ◌<◌, length, get_or};
ghost use Rattle.bundle_dots.specs.Lines.{dot_of, line_char};
ghost use Rattle.bundle_dots.specs.Faults.{next_row, fault};

// A line's end, a blank, a dot that is printed and one that is not.
pub const NEWLINE: u8 = 0x0A;

pub const BLANK: u8 = 0x20;

pub const PRINTED: u8 = 0x23;

pub const UNPRINTED: u8 = 0x2E;

// A line's length, the place of its newline, and what the dots of a line count, by their places in it.
pub const LINE: usize = 10;

const LINE_END: usize = LINE - 1;

const WEIGHTS: [u8; LINE] = [1, 1, 64, 32, 16, 8, 4, 2, 1, 1];

// The dot of a row that counts w.
#[tactic(auto, unfolding(crate::specs::Lines::dot_of))]
fn dot(r: u8, w: u8) -> u8
    requires { 0 < w }
    ensures { result ≡ dot_of r w }
{
    if r / w % 2 == 1 { PRINTED } else { UNPRINTED }
}

// Place m of the line of the row r of the character c; behind the line no dot is printed.
#[tactic(auto, unfolding(crate::specs::Lines::line_char))]
pub fn line_char(c: u8, r: u8, m: usize) -> u8
    ensures { result ≡ line_char c r m }
{
    match m {
        0 => c,
        1 => BLANK,
        2..LINE_END => dot(r, WEIGHTS[m]),
        LINE_END => NEWLINE,
        _ => UNPRINTED,
    }
}

// The row behind a character; no slice is so long that rows could not be counted.
fn next_row(row: usize, c: u8) -> usize
    requires { row < 9223372036854775808 }
    ensures { result ≡ next_row row c }
{
    if c == NEWLINE { row + 1 } else { row }
}

// The first row of a text, from 1, that is not as in a drawing; 0 where the text is that drawing.
pub fn fault_row(drawing: &[u8], text: &[u8]) -> usize
    ensures { result ≡ fault (λ i. get_or drawing.now i 0) (length drawing.now) 0 1 text.now }
{
    let mut row: usize = 1;
    for (i, c) in drawing.iter().enumerate() {
        if i >= text.len() || text[i] != *c {
            return row;
        }
        row = next_row(row, *c);
    }
    if drawing.len() < text.len() { row } else { 0 }
}
