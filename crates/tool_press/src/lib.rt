// The rows of a link, each as its stretch is closed: a step over a piece, and the row of what it reads in a lent buffer, counted as `lines` counts: lines
// of edition one, under no layout, all the work allowed. The promises cite specs/Pressing.antt.
#![tactic(auto)]

ghost use Rattle.std.specs.Prelude.{◌≡◌, ◌≤◌, length};
ghost use Rattle.base_lists.specs.Buffers.{over};
ghost use Rattle.line_spec.specs.Lines.{longest};
ghost use Rattle.line_layout.specs.declared.Layout.TheVariants as layouts;
ghost use Rattle.tool_row.specs.Rows.{row_room};
ghost use Rattle.tool_press.specs.Pressing.{row_refused, step_refused, start_press, counted, rowless, pressed_by, no_row, length_for};
ghost use Rattle.tool_press.specs.Pressing.{rowed, row_of, pressed, press_window, press_row, pressed_length};

use frame_stuff_spec::LONGEST_STRETCH;
use line_layout::Layout;
use line_spec::LONGEST;
use live_call::step;
use live_spec::{LiveRefusal, Numbers};
use read_call::{ALL_WORK, Asked, EDITION_ONE};
use read_numbers::{read_length, read_number};
use tool_row::{ROW_ROOM, RowRefusal, put_row};

// The number of a line that is given (document 01).
const GIVEN: u32 = 0;

// How far the listing of a link is: its numbers, how many rows had a line and how many a refusal (modulo 2^64).
#[derive(Clone, Copy)]
pub struct Press {
    pub numbers: Numbers,
    pub lines: u64,
    pub refused: u64,
}

// Why a call is refused. One that is not gives a row, or none where no stretch is closed.
#[derive(Clone, Copy)]
pub enum PressRefusal {
    // Nothing is taken: as a step's, no room for every row.
    Numbers,
    Sizes,
    TooLong,
    NoRoom,
}

// A row that is not written refuses the call.
impl From<RowRefusal> for PressRefusal {
    ghost from_gives = { λ put pressed. pressed ≡ row_refused put };

    fn from(put: RowRefusal) -> PressRefusal {
        match put {
            RowRefusal::TooLong => PressRefusal::TooLong,
            RowRefusal::NoRoom => PressRefusal::NoRoom,
        }
    }
}

// So does a step that is refused.
impl From<LiveRefusal> for PressRefusal {
    ghost from_gives = { λ step pressed. pressed ≡ step_refused step };

    fn from(step: LiveRefusal) -> PressRefusal {
        match step {
            LiveRefusal::Numbers => PressRefusal::Numbers,
            LiveRefusal::Sizes => PressRefusal::Sizes,
            LiveRefusal::TooLong => PressRefusal::TooLong,
            LiveRefusal::NoRoom => PressRefusal::NoRoom,
        }
    }
}

// That, how many bytes of the piece were taken, and how far the listing is then.
#[derive(Clone, Copy)]
pub struct Turn {
    pub press: Press,
    pub took: usize,
    pub answer: Result<Option<usize>, PressRefusal>,
}

// Before the link's first byte.
pub fn start() -> Press
    ensures { result ≡ start_press }
{
    let numbers = Numbers {
        received: 0,
        marked: 0,
        mark: 0,
        first: 0,
    };
    Press {
        numbers,
        lines: 0,
        refused: 0,
    }
}

// Behind the row of a stretch with this number.
fn count(press: Press, numbers: Numbers, number: u32) -> Press
    ensures { result ≡ counted press numbers number }
{
    let mut lines = press.lines;
    let mut refused = press.refused;
    if number == GIVEN {
        lines = std::num::wrapping_add_u64(lines, 1);
    } else {
        refused = std::num::wrapping_add_u64(refused, 1);
    }
    Press {
        numbers,
        lines,
        refused,
    }
}

// No row, with these numbers.
fn without_row(
    press: Press,
    numbers: Numbers,
    took: usize,
    answer: Result<Option<usize>, PressRefusal>,
) -> Turn
    ensures { result ≡ rowless press numbers took answer }
{
    let press = Press {
        numbers,
        lines: press.lines,
        refused: press.refused,
    };
    Turn {
        press,
        took,
        answer,
    }
}

// What writing a row comes to.
fn answer_of(put: Result<usize, RowRefusal>) -> Result<Option<usize>, PressRefusal>
    ensures { result ≡ pressed_by put }
{
    Ok(Some(put?))
}

// The refusal of a step that was lent no room for a line.
fn refuse(press: Press, answer: Result<Option<read_call::Answer>, LiveRefusal>) -> Turn
    ensures { result ≡ no_row press answer }
{
    let numbers = press.numbers;
    match answer {
        Err(refusal) => without_row(press, numbers, 0, Err(refusal.into())),
        // Never: without room a step is refused.
        Ok(_) => without_row(press, numbers, 0, Err(PressRefusal::NoRoom)),
    }
}

// The row of what a step answers, and how far the listing is then.
fn row_for(press: Press, step: live_spec::Step, line: &[u8], out: &mut [u8]) -> Turn
    requires answer_in_bounds { (length_for step.answer ≤ length line.now) × (length line.now ≤ longest) }
    requires row_room_in_bounds { row_room ≤ length out.old }
    ensures value { result ≡ rowed press step line.now }
    ensures out_after { out.new ≡ over (row_of step line.now) out.old }
{
    let numbers = step.numbers;
    let answer = step.answer;
    let made = match answer {
        Ok(made) => made,
        Err(refusal) => return without_row(press, numbers, step.took, Err(refusal.into())),
    };
    let Some(its) = made else {
        return without_row(press, numbers, step.took, Ok(None));
    };
    let number = read_number(its);
    let length = read_length(its);
    let put = put_row(step.first, number, &line[0..length], out);
    Turn {
        press: count(press, numbers, number),
        took: step.took,
        answer: answer_of(put),
    }
}

// The next row of a link, if the piece closes a stretch: bytes of the piece are taken in up to and with its closing mark. Refusals are a step's, in its
// order: without room for every row the step is lent none for a line.
pub fn press_row(
    window: &mut [u8; LONGEST_STRETCH],
    press: Press,
    piece: &[u8],
    key: &[u8],
    font: &[u8],
    out: &mut [u8],
) -> Turn
    ensures value { result ≡ pressed key.now font.now press window.old piece.now (length out.old) }
    ensures window_after { window.new ≡ press_window key.now font.now press window.old piece.now
        (length out.old) }
    ensures out_after { out.new ≡ over (press_row key.now font.now press window.old piece.now
        (length out.old)) out.old }
{
    let numbers = press.numbers;
    let asked = Asked {
        editions: EDITION_ONE,
        allowed: ALL_WORK,
        layout: Layout::Neither,
    };
    if out.len() < ROW_ROOM {
        let mut none = [0u8; 1];
        let refusal = step(window, numbers, piece, key, font, asked, &mut none);
        let answer = refusal.answer;
        return refuse(press, answer);
    }
    let mut line = [0u8; LONGEST];
    let done = step(window, numbers, piece, key, font, asked, &mut line);
    row_for(press, done, &line, out)
}

// The row's length, 0 where none is given.
pub fn pressed_length(answer: Result<Option<usize>, PressRefusal>) -> usize
    ensures { result ≡ pressed_length answer }
{
    match answer {
        Ok(Some(n)) => n,
        Ok(None) | Err(_) => 0,
    }
}
