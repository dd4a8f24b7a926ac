// The layouts of a line (order W7): under A it has ten account digits, under B twelve. A line is judged by the rule of a line, in
// trade, and then by the layout named. The promises cite specs/Layouts.antt.
#![tactic(auto)]

ghost use Rattle.std.specs.Prelude.{◌≡◌, ◌≤◌};
ghost use Rattle.line_spec.specs.Lines.{is_digit, all_digits};
ghost use Rattle.line_layout.specs.Layouts.{digits_a, digits_b, is_laid, has_layout, layout_rule, layout_of};

use line_judge::BETWEEN;
use line_spec::{FIRST_DIGIT, LAST_DIGIT, ON_US, TRANSIT};

// The account digits of each layout (order W7).
const DIGITS_A: usize = 10;

const DIGITS_B: usize = 12;

// The places of the second transit symbol and of the first account digit; the first transit symbol stands at 0, the nine digits from 1 on.
const SECOND: usize = BETWEEN + 1;

const ACCOUNT: usize = SECOND + 1;

// The layout that a line is asked to have.
#[derive(Clone, Copy)]
pub enum Layout {
    // None is named: the rule of a line alone holds.
    Neither,
    A,
    B,
    // One that no line has, for a number that names none of those.
    Unknown,
}

// Why bytes are no line of a layout.
#[derive(Clone, Copy)]
pub enum LineFault {
    // It holds a byte that is not listed.
    Unlisted,
    // Its bytes are listed, but it is not the trade's line.
    Trade,
    // It is the trade's line, but not of the layout named.
    Layout,
}

// The layout that a number names.
#[tactic(auto, unfolding(crate::specs::Layouts::layout_of))]
pub fn layout_of(number: usize) -> Layout
    ensures { result ≡ layout_of number }
{
    match number {
        0 => Layout::Neither,
        1 => Layout::A,
        2 => Layout::B,
        _ => Layout::Unknown,
    }
}

#[tactic(auto, unfolding(line_spec::specs::Lines::is_digit))]
fn is_digit(b: u8) -> bool
    ensures { result ≡ is_digit b }
{
    matches!(b, FIRST_DIGIT..=LAST_DIGIT)
}

// Whether every byte is a digit.
fn all_digits(part: &[u8]) -> bool
    ensures { result ≡ all_digits part.now }
{
    part.iter().all(|b| is_digit(*b))
}

// Whether a line is transit, nine digits, transit, so many account digits, on-us, and nothing else.
#[tactic(auto, unfolding(crate::specs::Layouts::is_laid, line_spec::specs::Lines::is_transit))]
fn is_laid(line: &[u8], digits: usize) -> bool
    requires { digits ≤ digits_b }
    ensures { result ≡ is_laid digits line.now }
{
    let last = ACCOUNT + digits;
    line.len() == last + 1
        && line[0] == TRANSIT
        && all_digits(&line[1..SECOND])
        && line[SECOND] == TRANSIT
        && all_digits(&line[ACCOUNT..last])
        && line[last] == ON_US
}

// Whether a line has the layout.
fn has_layout(layout: Layout, line: &[u8]) -> bool
    ensures { result ≡ has_layout layout line.now }
{
    match layout {
        Layout::Neither => true,
        Layout::A => is_laid(line, DIGITS_A),
        Layout::B => is_laid(line, DIGITS_B),
        Layout::Unknown => false,
    }
}

// Judges a line by the rule, and by the layout where the rule accepts it.
#[tactic(auto, unfolding(crate::specs::Layouts::layout_rule))]
pub fn judge_line(layout: Layout, line: &[u8]) -> Result<(), LineFault>
    ensures { result ≡ layout_rule layout line.now }
{
    match line_judge::judge_line(line) {
        Err(line_spec::TradeFault::Unlisted) => return Err(LineFault::Unlisted),
        Err(line_spec::TradeFault::Trade) => return Err(LineFault::Trade),
        Ok(()) => {}
    }
    if has_layout(layout, line) {
        Ok(())
    } else {
        Err(LineFault::Layout)
    }
}
