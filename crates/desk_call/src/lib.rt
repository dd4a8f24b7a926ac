// The rework desk's call (order W14): every item of the list is judged before a byte is written; then the chosen frames are copied, each with marks
// of its own. The promises cite desk_spec/specs/Desk.antt; the steps between stand in specs/Steps.antt.
#![tactic(auto)]

ghost use Rattle.std.specs.Prelude.{◌≡◌, ◌+◌, ◌≤◌, ◌<◌, length};
ghost use Rattle.std.proofs.lemmas.List.Edits.{sets};
ghost use Rattle.base_lists.specs.Buffers.{over};
ghost use Rattle.read_stretch.specs.Meaning.{Stretch};
ghost use Rattle.read_call.specs.Answers.{longest_stream};
ghost use Rattle.frame_spec.specs.Told.{told};
ghost use Rattle.index_spec.specs.Cases.{Takes};
ghost use Rattle.desk_spec.specs.Desk.{place_of, new_stream, fault_from, fitting, out_of, desk_call, desk_out};
ghost use Rattle.desk_call.specs.Steps.{lengthened, items_from, closing_at, frame_at, frames_at, Starts, Measured, report, report_of};

use base_lent::copy;
use desk_entry::closing_of;
use desk_spec::DeskRefusal;
use frame_body::DIGEST_LENGTH;
use frame_spec::KEY_LENGTH;
use frame_stuff_spec::MARK;
use index_entry::place_of;
use index_spec::MOST_ENTRIES;
use line_layout::Layout;
use read_call::LONGEST_STREAM;
use read_stretch::next_span;

// Why the items of a list choose no stream.
#[derive(Clone, Copy)]
enum ItemFault {
    // An entry number past the index: the item, counted from 1.
    Past(usize),
    // An entry whose place doesn't start a line: the item, counted from 1.
    NoLine(usize),
}

// What the desk reports: the papers' number, the new stream's length, and the item at fault.
#[derive(Clone, Copy)]
pub struct Report {
    pub number: u32,
    pub length: usize,
    pub item: usize,
}

// The length with a frame more: its bytes and two marks. A length over the longest stream stays, so that no list can overflow it.
fn lengthen(total: usize, bytes: usize) -> usize
    requires { bytes ≤ longest_stream }
    ensures { result ≡ lengthened total bytes }
{
    if total > LONGEST_STREAM {
        return total;
    }
    total + bytes + 2
}

// The place that an entry names.
fn place_at(table: &[u32], i: usize) -> usize
    requires { i < length table.now }
    ensures { result ≡ place_of table.now i }
{
    place_of(table[i])
}

// Judges the items of the list in their order, and adds up the frames' lengths.
fn judge_items(
    stream: &[u8],
    key: &[u8],
    font: &[u8],
    editions: usize,
    layout: Layout,
    table: &[u32],
    count: usize,
    list: &[u32],
) -> Result<usize, ItemFault>
    requires { Takes (told key.now font.now layout) stream.now table.now count }
    ensures { result ≡ items_from (told key.now font.now layout) editions stream.now table.now count 1 0
        list.now }
{
    let mut total = 0;
    for (k, item) in list.iter().enumerate() {
        let i = *item as usize;
        if i >= count {
            return Err(ItemFault::Past(k + 1));
        }
        let place = place_at(table, i);
        let closing = closing_of(stream, place, key, font, editions, layout);
        if closing == 0 {
            return Err(ItemFault::NoLine(k + 1));
        }
        total = lengthen(total, closing - place);
    }
    Ok(total)
}

// Copies the frame of the stretch that starts at a place to out, with marks of its own; tells where the next one goes.
fn put_frame(stream: &[u8], place: usize, out: &mut [u8], at: usize) -> usize
    requires stretch { Stretch stream.now place (closing_at stream.now place) }
    requires place_in_bounds { at + length (frame_at stream.now place) ≤ length out.old }
    ensures value { result ≡ at + length (frame_at stream.now place) }
    ensures out_after { out.new ≡ sets out.old at (frame_at stream.now place) }
{
    let span = next_span(stream, place - 1);
    let closing = span.closing;
    out[at] = MARK;
    let from = at + 1;
    copy(&stream[place..closing], &mut out[from..]);
    let end = from + (closing - place);
    out[end] = MARK;
    end + 1
}

// Copies the frames of the list in its order to the start of out.
fn copy_frames(stream: &[u8], table: &[u32], list: &[u32], out: &mut [u8])
    requires starts { Starts stream.now table.now list.now }
    requires list_in_bounds { length (frames_at stream.now table.now list.now) ≤ length out.old }
    ensures { out.new ≡ over (frames_at stream.now table.now list.now) out.old }
{
    let mut at = 0;
    for i in list {
        at = put_frame(stream, place_at(table, *i as usize), out, at);
    }
}

// The new stream of a list whose every item is good, of n bytes: 3, 4, or it is written.
fn fill(
    stream: &[u8],
    table: &[u32],
    list: &[u32],
    n: usize,
    out: &mut [u8],
) -> Result<usize, DeskRefusal>
    requires starts { Starts stream.now table.now list.now }
    requires measured { Measured n (length (frames_at stream.now table.now list.now)) }
    ensures value { result ≡ fitting (length (frames_at stream.now table.now list.now)) (length out.old) }
    ensures out_after { out.new ≡ out_of result (frames_at stream.now table.now list.now) out.old }
{
    if n > LONGEST_STREAM {
        return Err(DeskRefusal::NewTooLong);
    }
    if n > out.len() {
        return Err(DeskRefusal::NoRoom);
    }
    copy_frames(stream, table, list, out);
    Ok(n)
}

// The items of the list, and then the new stream.
fn choose(
    stream: &[u8],
    key: &[u8],
    font: &[u8],
    editions: usize,
    layout: Layout,
    table: &[u32],
    count: usize,
    list: &[u32],
    out: &mut [u8],
) -> Result<usize, DeskRefusal>
    requires { Takes (told key.now font.now layout) stream.now table.now count }
    ensures value { result ≡ fault_from (told key.now font.now layout) editions stream.now table.now count 1
        list.now (fitting (length (new_stream (told key.now font.now layout) editions stream.now
        table.now list.now)) (length out.old)) }
    ensures out_after { out.new ≡ out_of result (new_stream (told key.now font.now layout) editions stream.now
        table.now list.now) out.old }
{
    match judge_items(stream, key, font, editions, layout, table, count, list) {
        Err(ItemFault::Past(k)) => Err(DeskRefusal::Past(k)),
        Err(ItemFault::NoLine(k)) => Err(DeskRefusal::NoLine(k)),
        Ok(n) => fill(stream, table, list, n, out),
    }
}

// Writes a new stream with the frames that the list names, by entry numbers of the table from 0 on, in the asked order. The table's numbers are not
// looked at: the stream is read anew at each entry's place. On refusal the output stays as it was.
pub fn desk(
    stream: &[u8],
    key: &[u8],
    font: &[u8],
    editions: usize,
    layout: Layout,
    table: &[u32],
    count: usize,
    list: &[u32],
    out: &mut [u8],
) -> Result<usize, DeskRefusal>
    ensures value { result ≡ desk_call (told key.now font.now layout) editions stream.now table.now count
        list.now out.old }
    ensures out_after { out.new ≡ desk_out (told key.now font.now layout) editions stream.now table.now count
        list.now out.old }
{
    if key.len() != KEY_LENGTH {
        return Err(DeskRefusal::Sizes);
    }
    if font.len() != DIGEST_LENGTH {
        return Err(DeskRefusal::Sizes);
    }
    if stream.len() > LONGEST_STREAM {
        return Err(DeskRefusal::TooLong);
    }
    if table.len() < MOST_ENTRIES {
        return Err(DeskRefusal::NoTable);
    }
    if count > MOST_ENTRIES {
        return Err(DeskRefusal::Count);
    }
    choose(stream, key, font, editions, layout, table, count, list, out)
}

// These three together.
fn told_as(number: u32, length: usize, item: usize) -> Report
    ensures { result ≡ report number length item }
{
    Report {
        number,
        length,
        item,
    }
}

// The number, the length and the item of what the desk answers.
pub fn desk_report(answer: Result<usize, DeskRefusal>) -> Report
    ensures { result ≡ report_of answer }
{
    match answer {
        Ok(n) => told_as(0, n, 0),
        Err(DeskRefusal::Sizes) => told_as(2, 0, 0),
        Err(DeskRefusal::TooLong) => told_as(3, 0, 0),
        Err(DeskRefusal::NoTable) => told_as(4, 0, 0),
        Err(DeskRefusal::Count) => told_as(19, 0, 0),
        Err(DeskRefusal::Past(k)) => told_as(23, 0, k),
        Err(DeskRefusal::NoLine(k)) => told_as(24, 0, k),
        Err(DeskRefusal::NewTooLong) => told_as(3, 0, 0),
        Err(DeskRefusal::NoRoom) => told_as(4, 0, 0),
    }
}
