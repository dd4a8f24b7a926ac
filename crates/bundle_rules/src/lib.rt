// The rules of a bundle's parts (order W1): which lengths a field may have, the order of the characters, and rows of seven dots. The promises cite
// bundle_spec/specs/Bundles.antt and bundle_spec/specs/Places.antt.
#![tactic(auto)]

ghost use Rattle.std.specs.Prelude.{◌≡◌};
ghost use Rattle.bundle_spec.specs.Bundles.{characters, takes, dotted};
ghost use Rattle.bundle_spec.specs.Places.{index_of};

// The fields' tags (tags are hexadecimal): name and glyph.
pub const NAME_TAG: u8 = 0x10;

pub const GLYPH_TAG: u8 = 0x12;

// The lengths of a name; nine rows a glyph, behind a character byte.
const SHORTEST_NAME: usize = 1;

pub const LONGEST_NAME: usize = 32;

pub const GLYPH_ROWS: usize = 9;

pub const GLYPH_LENGTH: usize = 1 + GLYPH_ROWS;

// The most that a row can hold: seven dots, the top bit zero.
const ALL_DOTS: u8 = 0x7F;

// How many glyphs there are, and their characters in this order.
pub const GLYPHS: usize = 14;

pub const CHARACTERS: [u8; GLYPHS] = [
    b'0', b'1', b'2', b'3', b'4', b'5', b'6', b'7', b'8', b'9', b'A', b'B', b'C', b'D',
];

// The decision over the tag byte, which picks the rule of the field: may its value have n bytes?
#[tactic(auto, unfolding(bundle_spec::specs::Bundles::takes))]
pub fn rule_takes(tag: u8, n: usize) -> bool
    ensures { result ≡ takes tag n }
{
    match tag {
        NAME_TAG => matches!(n, SHORTEST_NAME..=LONGEST_NAME),
        GLYPH_TAG => n == GLYPH_LENGTH,
        _ => false,
    }
}

// How many of the characters stand before c; all fourteen where it is none of them.
pub fn index_of(c: u8) -> usize
    ensures { result ≡ index_of c characters }
{
    CHARACTERS.iter().position(|d| *d == c).unwrap_or(GLYPHS)
}

// Whether every row has seven dots.
pub fn all_dotted(rows: &[u8]) -> bool
    ensures { result ≡ dotted rows.now }
{
    rows.iter().all(|row| *row <= ALL_DOTS)
}
