// Bringing an index up to date (order W10): the stretches added are counted before anything is written, and each of them, and no other, is judged
// once. The promises cite index_spec/specs/Updating.antt.
#![tactic(auto)]

ghost use Rattle.std.specs.Prelude.{◌≡◌, ◌+◌, ◌≤◌, length};
ghost use Rattle.std.proofs.lemmas.List.Edits.{sets};
ghost use Rattle.frame_spec.specs.Told.{told};
ghost use Rattle.read_spec.specs.Sizes.{Sizes};
ghost use Rattle.index_spec.specs.Entries.{entries_from};
ghost use Rattle.index_spec.specs.Updating.{judged_all, last_place, update_number, answered, updated, updated_table};
ghost use Rattle.index_call.specs.Steps.{next_of, Ahead, Adding};

use frame_body::{DIGEST_LENGTH, LONGEST_LINE};
use frame_spec::KEY_LENGTH;
use index_count::stretches_from;
use index_entry::place_of;
use index_spec::{IndexRefusal, MOST_ENTRIES, NUMBERS, Updated};
use line_layout::Layout;
use read_call::{ALL_WORK, Asked, LONGEST_STREAM, read};
use read_numbers::read_number;

// One stretch as an entry, and where the next one is looked for.
#[derive(Clone, Copy)]
struct Next {
    entry: u32,
    closing: usize,
}

// The last place recorded of a table with so many entries.
fn last_place(table: &[u32], count: usize) -> usize
    requires { count ≤ length table.now }
    ensures { result ≡ last_place table.now count }
{
    if count == 0 {
        return 0;
    }
    place_of(table[count - 1])
}

// The next stretch from a place, judged with all the work allowed. The line that it may give is let go.
fn next_entry(
    stream: &[u8],
    from: usize,
    key: &[u8],
    font: &[u8],
    editions: usize,
    layout: Layout,
) -> Next
    requires { Ahead (told key.now font.now layout) stream.now from }
    ensures { result ≡ next_of (told key.now font.now layout) editions stream.now from }
{
    let mut line = [0u8; LONGEST_LINE];
    let asked = Asked {
        editions,
        allowed: ALL_WORK,
        layout,
    };
    let reading = read(stream, from, key, font, asked, &mut line);
    let answer = reading.answer;
    Next {
        entry: reading.first as u32 * NUMBERS + read_number(answer),
        closing: reading.closing,
    }
}

// Writes the n entries that are added from the count on.
fn add(
    stream: &[u8],
    from: usize,
    key: &[u8],
    font: &[u8],
    editions: usize,
    layout: Layout,
    table: &mut [u32],
    count: usize,
    n: usize,
)
    requires adding { Adding (told key.now font.now layout) editions stream.now from n }
    requires n_in_bounds { count + n ≤ length table.old }
    ensures { table.new ≡ sets table.old count (entries_from (judged_all (told key.now font.now layout) editions)
        stream.now from) }
{
    let mut at = from;
    for i in 0..n {
        let next = next_entry(stream, at, key, font, editions, layout);
        table[count + i] = next.entry;
        at = next.closing;
    }
}

fn refused(answer: Result<(), IndexRefusal>, count: usize) -> Updated
    ensures { result ≡ answered answer count }
{
    Updated { answer, count }
}

// Brings a table of so many entries up to date with the stream. Entries below the count are kept, and those from the new count on stay as they
// were; a fresh build is bringing up to date a table of count 0.
pub fn update(
    stream: &[u8],
    key: &[u8],
    font: &[u8],
    editions: usize,
    layout: Layout,
    table: &mut [u32],
    count: usize,
) -> Updated
    ensures value { result ≡ updated (told key.now font.now layout) editions stream.now table.old count }
    ensures table_after { table.new ≡ updated_table (told key.now font.now layout) editions stream.now table.old
        count }
{
    if key.len() != KEY_LENGTH {
        return refused(Err(IndexRefusal::Sizes), count);
    }
    if font.len() != DIGEST_LENGTH {
        return refused(Err(IndexRefusal::Sizes), count);
    }
    if stream.len() > LONGEST_STREAM {
        return refused(Err(IndexRefusal::TooLong), count);
    }
    if table.len() < MOST_ENTRIES {
        return refused(Err(IndexRefusal::NoRoom), count);
    }
    if count > MOST_ENTRIES {
        return refused(Err(IndexRefusal::Count), count);
    }
    let from = last_place(table, count);
    if from > stream.len() {
        return refused(Err(IndexRefusal::Beyond), count);
    }
    let n = stretches_from(stream, from);
    if n > MOST_ENTRIES - count {
        return refused(Err(IndexRefusal::Full), count);
    }
    add(stream, from, key, font, editions, layout, table, count, n);
    Updated {
        answer: Ok(()),
        count: count + n,
    }
}

// The number of what bringing up to date answers.
pub fn update_number(answer: Result<(), IndexRefusal>) -> u32
    ensures { result ≡ update_number answer }
{
    match answer {
        Ok(()) => 0,
        Err(IndexRefusal::Sizes) => 2,
        Err(IndexRefusal::TooLong) => 3,
        Err(IndexRefusal::NoRoom) => 4,
        Err(IndexRefusal::Count) => 19,
        Err(IndexRefusal::Beyond) => 10,
        Err(IndexRefusal::Full) => 19,
    }
}
