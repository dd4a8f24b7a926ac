// Look-ups in an index (order W10): the place and the number of an entry, and the entry of the k-th line. Any table is taken, with any count.
// The promises cite specs/Lookups.antt.
#![tactic(auto)]

ghost use Rattle.std.specs.Prelude.{◌≡◌};
ghost use Rattle.index_spec.specs.Entries.{entry_place, entry_number};
ghost use Rattle.index_entry.specs.Lookups.{looked_at, entry_at, no_line, line_at};

use index_spec::{MOST_ENTRIES, NUMBERS};

// What a look-up answers, where there is an entry (1) or none (0, and all else 0): the entry's number and its place.
#[derive(Clone, Copy)]
pub struct Entry {
    pub there: u32,
    pub number: u32,
    pub place: usize,
}

// What the look-up of a line answers, where there is one (1) or none (0, and all else 0): the index of its entry, and its place.
#[derive(Clone, Copy)]
pub struct Line {
    pub there: u32,
    pub index: u32,
    pub place: usize,
}

// The number of a stretch that is a line.
const LINE_NUMBER: u32 = 0;

pub fn place_of(entry: u32) -> usize
    ensures { result ≡ entry_place entry }
{
    (entry / NUMBERS) as usize
}

pub fn number_of(entry: u32) -> u32
    ensures { result ≡ entry_number entry }
{
    entry % NUMBERS
}

// The entries that a look-up sees: those below the count, the most that a table keeps, and the table's length.
fn looked_at(table: &[u32], count: usize) -> &[u32]
    ensures { result.now ≡ looked_at table.now count }
{
    &table[..count.min(MOST_ENTRIES).min(table.len())]
}

// The entry at an index, counted from 0.
#[tactic(auto, unfolding(crate::specs::Lookups::entry_at))]
pub fn entry_at(table: &[u32], count: usize, index: usize) -> Entry
    ensures { result ≡ entry_at table.now count index }
{
    match looked_at(table, count).get(index) {
        Some(entry) => Entry {
            there: 1,
            number: number_of(*entry),
            place: place_of(*entry),
        },
        None => Entry {
            there: 0,
            number: 0,
            place: 0,
        },
    }
}

fn no_line() -> Line
    ensures { result ≡ no_line }
{
    Line {
        there: 0,
        index: 0,
        place: 0,
    }
}

// The entry of the k-th line, counted from 1 among those with a line's number.
pub fn line_at(table: &[u32], count: usize, k: usize) -> Line
    ensures { result ≡ line_at table.now count k }
{
    if k == 0 {
        return no_line();
    }
    let mut left = k - 1;
    for (i, entry) in looked_at(table, count).iter().enumerate() {
        if number_of(*entry) == LINE_NUMBER {
            if left == 0 {
                return Line {
                    there: 1,
                    index: i as u32,
                    place: place_of(*entry),
                };
            }
            left -= 1;
        }
    }
    no_line()
}
