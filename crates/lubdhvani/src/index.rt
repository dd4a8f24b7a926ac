// An index beside the stream (order W10): a table brought up to date, and looked up. The promises cite specs/Index.antt and the definitions of `index_spec`
// and `index_entry`.
ghost use Rattle.std.specs.Prelude.{◌≡◌};
ghost use Rattle.line_layout.specs.Layouts.{layout_of};
ghost use Rattle.frame_spec.specs.Told.{told};
ghost use Rattle.index_spec.specs.Updating.{updated, updated_table};
ghost use Rattle.index_entry.specs.Lookups.{entry_at, line_at};
ghost use Rattle.lubdhvani.specs.Index.{updated_out, entry_out, line_out};

use crate::answers::field;
use index_call::update_number;
use line_layout::layout_of;

// The number, and the count of the table's entries then.
#[repr(C)]
#[derive(Clone, Copy)]
pub struct Indexed {
    pub number: usize,
    pub count: usize,
}

// Whether there is an entry (1) or none (0, and all else 0), its place and its number.
#[repr(C)]
#[derive(Clone, Copy)]
pub struct Entry {
    pub there: usize,
    pub place: usize,
    pub number: usize,
}

// Whether there is a line (1) or none (0, and all else 0), the index of its entry and its place.
#[repr(C)]
#[derive(Clone, Copy)]
pub struct EntryLine {
    pub there: usize,
    pub index: usize,
    pub place: usize,
}

fn updated_of(updated: index_spec::Updated) -> Indexed
    ensures { result ≡ updated_out updated }
{
    let answer = updated.answer;
    Indexed {
        number: field(update_number(answer)),
        count: updated.count,
    }
}

fn entry_of(entry: index_entry::Entry) -> Entry
    ensures { result ≡ entry_out entry }
{
    Entry {
        there: field(entry.there),
        place: entry.place,
        number: field(entry.number),
    }
}

fn line_of(line: index_entry::Line) -> EntryLine
    ensures { result ≡ line_out line }
{
    EntryLine {
        there: field(line.there),
        index: field(line.index),
        place: line.place,
    }
}

// Brings a table of so many entries up to date with the stream.
pub fn lubdhvani_index_update(
    stream: &[u8],
    key: &[u8],
    font: &[u8],
    editions: usize,
    layout: usize,
    table: &mut [u32],
    count: usize,
) -> Indexed
    ensures value { result ≡ updated_out (updated (told key.now font.now (layout_of layout)) editions stream.now
        table.old count) }
    ensures table_after { table.new ≡ updated_table (told key.now font.now (layout_of layout)) editions stream.now
        table.old count }
{
    updated_of(index_call::update(stream, key, font, editions, layout_of(layout), table, count))
}

// The entry at an index of a table of so many entries.
pub fn lubdhvani_index_entry(table: &[u32], count: usize, index: usize) -> Entry
    ensures { result ≡ entry_out (entry_at table.now count index) }
{
    entry_of(index_entry::entry_at(table, count, index))
}

// The entry of the k-th line of a table of so many entries.
pub fn lubdhvani_index_line(table: &[u32], count: usize, k: usize) -> EntryLine
    ensures { result ≡ line_out (line_at table.now count k) }
{
    line_of(index_entry::line_at(table, count, k))
}
