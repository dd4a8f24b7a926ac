// The listing of a stream, row by row (document 01, 'The listing program'): from a cursor by value to the next row, in a lent buffer, and the next cursor.
// What the whole listing is stands in specs/Listing.antt, what one call gives in specs/Steps.antt; that the rows join to the listing in specs/Joining.antt.
#![tactic(auto)]

ghost use Rattle.std.specs.Prelude.{◌≡◌, ◌≤◌, false, length};
ghost use Rattle.base_lists.specs.Buffers.{over};
ghost use Rattle.line_layout.specs.declared.Layout.TheVariants as layouts;
ghost use Rattle.frame_body.specs.declared.Edition.TheVariants.{One};
ghost use Rattle.frame_body.specs.Answers.{edition_number};
ghost use Rattle.frame_spec.specs.Told.{told};
ghost use Rattle.tool_row.specs.Rows.{row_room};
ghost use Rattle.tool_listing.specs.Steps.{Ready, start_cursor, counted_on, ended_at, row_refused, listed_by, refusal};
ghost use Rattle.tool_listing.specs.Steps.{step_of, next_given, given, listed_number, listed_length};

use frame_body::DIGEST_LENGTH;
use frame_spec::KEY_LENGTH;
use line_layout::Layout;
use line_spec::LONGEST;
use read_call::{ALL_WORK, Asked, EDITION_ONE, LONGEST_STREAM};
use tool_row::{ROW_ROOM, RowRefusal};

// The number of a line that is given (document 01).
const GIVEN: u32 = 0;

// How far a listing is: the place that the next reading starts from, how many rows had a line and how many a refusal (modulo 2^64), and whether the last
// row was given.
#[derive(Clone, Copy)]
pub struct Cursor {
    pub place: usize,
    pub lines: u64,
    pub refused: u64,
    pub ended: bool,
}

// Why a call is refused. One that is not gives a row, or none where the last row was given before.
#[derive(Clone, Copy)]
pub enum ListRefusal {
    // Key or font digest not of their sizes, stream too long, no room for every row, place beyond the end.
    Sizes,
    TooLong,
    NoRoom,
    Beyond,
}

// A row that is not written refuses the call.
impl From<RowRefusal> for ListRefusal {
    ghost from_gives = { λ put listed. listed ≡ row_refused put };

    fn from(put: RowRefusal) -> ListRefusal {
        match put {
            RowRefusal::TooLong => ListRefusal::TooLong,
            RowRefusal::NoRoom => ListRefusal::NoRoom,
        }
    }
}

// What a call comes to, and the cursor for the next one; where no row is given it is the one handed in.
#[derive(Clone, Copy)]
pub struct Step {
    pub answer: Result<Option<usize>, ListRefusal>,
    pub cursor: Cursor,
}

// The cursor at the stream's start.
pub fn start() -> Cursor
    ensures { result ≡ start_cursor }
{
    Cursor {
        place: 0,
        lines: 0,
        refused: 0,
        ended: false,
    }
}

// The cursor behind the row of a stretch that closes at a place.
fn count(cursor: Cursor, number: u32, closing: usize) -> Cursor
    ensures { result ≡ counted_on cursor number closing }
{
    let mut lines = cursor.lines;
    let mut refused = cursor.refused;
    if number == GIVEN {
        lines = std::num::wrapping_add_u64(lines, 1);
    } else {
        refused = std::num::wrapping_add_u64(refused, 1);
    }
    Cursor {
        place: closing,
        lines,
        refused,
        ended: false,
    }
}

// The cursor behind the last row.
fn end(cursor: Cursor, place: usize) -> Cursor
    ensures { result ≡ ended_at cursor place }
{
    Cursor {
        place,
        lines: cursor.lines,
        refused: cursor.refused,
        ended: true,
    }
}

// What writing a row comes to, as an answer of the call.
fn answer_of(put: Result<usize, RowRefusal>) -> Result<Option<usize>, ListRefusal>
    ensures { result ≡ listed_by put }
{
    Ok(Some(put?))
}

fn refuse(answer: Result<Option<usize>, ListRefusal>, cursor: Cursor) -> Step
    ensures { result ≡ step_of (refusal answer cursor) }
{
    Step { answer, cursor }
}

// The next row, where nothing is against it: the last row at the end of the stream, else that of the next stretch.
fn give(
    stream: &[u8],
    key: &[u8],
    font: &[u8],
    editions: usize,
    layout: Layout,
    cursor: Cursor,
    out: &mut [u8],
) -> Step
    requires { Ready (told key.now font.now layout) stream.now cursor (length out.old) }
    ensures value { result ≡ step_of (next_given (told key.now font.now layout) editions stream.now cursor) }
    ensures out_after { out.new ≡ over (next_given (told key.now font.now layout) editions stream.now cursor).row
        out.old }
{
    let asked = Asked {
        editions,
        allowed: ALL_WORK,
        layout,
    };
    let mut line = [0u8; LONGEST];
    let reading = read_call::read(stream, cursor.place, key, font, asked, &mut line);
    let first = reading.first;
    let closing = reading.closing;
    // The two places of a stretch differ, those of the end do not.
    if first == closing {
        let put = tool_row::put_last(cursor.lines, cursor.refused, out);
        return Step {
            answer: answer_of(put),
            cursor: end(cursor, closing),
        };
    }
    let answer = reading.answer;
    let number = read_numbers::read_number(answer);
    let length = read_numbers::read_length(answer);
    let put = tool_row::put_row(first as u64, number, &line[0..length], out);
    Step {
        answer: answer_of(put),
        cursor: count(cursor, number, closing),
    }
}

// The next row of the listing of a stream, of the editions and under the layout asked for; each stretch is allowed all the work it takes.
pub fn next_row(
    stream: &[u8],
    key: &[u8],
    font: &[u8],
    editions: usize,
    layout: Layout,
    cursor: Cursor,
    out: &mut [u8],
) -> Step
    ensures value { result ≡ step_of (given (told key.now font.now layout) editions stream.now cursor
        (length out.old)) }
    ensures out_after { out.new ≡ over (given (told key.now font.now layout) editions stream.now cursor
        (length out.old)).row out.old }
{
    if key.len() != KEY_LENGTH {
        return refuse(Err(ListRefusal::Sizes), cursor);
    }
    if font.len() != DIGEST_LENGTH {
        return refuse(Err(ListRefusal::Sizes), cursor);
    }
    if stream.len() > LONGEST_STREAM {
        return refuse(Err(ListRefusal::TooLong), cursor);
    }
    if out.len() < ROW_ROOM {
        return refuse(Err(ListRefusal::NoRoom), cursor);
    }
    if cursor.place > stream.len() {
        return refuse(Err(ListRefusal::Beyond), cursor);
    }
    let over = cursor.ended;
    if over {
        return refuse(Ok(None), cursor);
    }
    give(stream, key, font, editions, layout, cursor, out)
}

// The same as document 01 has it: lines of edition one, under no layout.
pub fn lines_row(stream: &[u8], key: &[u8], font: &[u8], cursor: Cursor, out: &mut [u8]) -> Step
    ensures value { result ≡ step_of (given (told key.now font.now layouts.Neither) (edition_number One) stream.now cursor
        (length out.old)) }
    ensures out_after { out.new ≡ over (given (told key.now font.now layouts.Neither) (edition_number One) stream.now
        cursor (length out.old)).row out.old }
{
    next_row(stream, key, font, EDITION_ONE, Layout::Neither, cursor, out)
}

// Document 01's number of what a call comes to.
pub fn listed_number(answer: Result<Option<usize>, ListRefusal>) -> u32
    ensures { result ≡ listed_number answer }
{
    match answer {
        Err(ListRefusal::Sizes) => 2,
        Err(ListRefusal::TooLong) => 3,
        Err(ListRefusal::NoRoom) => 4,
        Err(ListRefusal::Beyond) => 10,
        Ok(_) => 0,
    }
}

// The row's length, 0 where none is given.
pub fn listed_length(answer: Result<Option<usize>, ListRefusal>) -> usize
    ensures { result ≡ listed_length answer }
{
    match answer {
        Ok(Some(n)) => n,
        Ok(None) | Err(_) => 0,
    }
}
