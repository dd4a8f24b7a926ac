// An index beside the stream (order W10): a table brought up to date, and looked up.
ghost use Rattle.std.specs.Prelude.{◌≡◌};
ghost use Rattle.line_layout.specs.Layouts.{layout_of};
ghost use Rattle.frame_spec.specs.Told.{told};
ghost use Rattle.index_spec.specs.Updating.{updated, updated_table};
ghost use Rattle.index_entry.specs.Lookups.{entry_at, line_at};
ghost use Rattle.lubdhvani.specs.Index.{updated_out, entry_out, line_out};

use lubdhvani::index::{Entry, EntryLine, Indexed};

// Brings a table of so many entries up to date with the stream.
#[unsafe(no_mangle)]
pub extern "C" fn lubdhvani_index_update(
    stream: &[u8],
    key: &[u8],
    font: &[u8],
    editions: usize,
    layout: usize,
    table: &mut [u32],
    count: usize,
) -> Indexed
    ensures value { result ≡ updated_out (updated (told key.now font.now (layout_of layout)) editions stream.now
        table.old count) }
    ensures table_after { table.new ≡ updated_table (told key.now font.now (layout_of layout)) editions stream.now
        table.old count }
{
    lubdhvani::index::lubdhvani_index_update(stream, key, font, editions, layout, table, count)
}

// The entry at an index of a table of so many entries.
#[unsafe(no_mangle)]
pub extern "C" fn lubdhvani_index_entry(table: &[u32], count: usize, index: usize) -> Entry
    ensures { result ≡ entry_out (entry_at table.now count index) }
{
    lubdhvani::index::lubdhvani_index_entry(table, count, index)
}

// The entry of the k-th line of a table of so many entries.
#[unsafe(no_mangle)]
pub extern "C" fn lubdhvani_index_line(table: &[u32], count: usize, k: usize) -> EntryLine
    ensures { result ≡ line_out (line_at table.now count k) }
{
    lubdhvani::index::lubdhvani_index_line(table, count, k)
}
