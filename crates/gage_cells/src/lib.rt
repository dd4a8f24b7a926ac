// GAGE's substitution over two-bit cells by definition (document 000, section 1.1.1; specs/Cells.antt), that its inverse undoes it, and its products
// by shifts, XOR and AND (document 003, Algorithm 2), of one pair of cells and of a byte's four: nothing is looked up. The table of products
// stands beside the formula, which is held to it. The substitution of a whole state is in the crate gage_substitute.
#![tactic(auto)]

ghost use Rattle.std.specs.Prelude.{◌≡◌, true, ◌%◌};
ghost use Rattle.gage_cells.specs.Cells.{table, substituted_byte};
ghost use Rattle.gage_cells.specs.Pair.{product};
ghost use Rattle.gage_cells.specs.Products.{has_products};

// The largest permitted state, in bytes.
pub const LARGEST: usize = 72;

// The bytes that the machine works on at once, and the room of a wide state: six such words, so that whole words of the largest state, with what
// the shuffle looks ahead, fit.
const WORD: usize = 16;

pub const WIDE: usize = 6 * WORD;

// The lower bit of each of a byte's four cells: document 003's Mask.
const LOWER: u8 = 0x55;

// The table x * y (document 000, expression 1.1), rows first.
const TABLE: [[u8; 4]; 4] = [[1, 0, 3, 2], [0, 2, 1, 3], [2, 3, 0, 1], [3, 1, 2, 0]];

// x * y, by the two bits of each; of numbers that are no cells, what the formula gives.
#[tactic(auto, unfolding(crate::specs::Pair::product))]
pub fn star(x: u8, y: u8) -> u8
    ensures { result ≡ product x y }
{
    let d = (y ^ (y >> 1)) & x & 1;
    y ^ x ^ d ^ (d << 1) ^ (x >> 1) ^ 1
}

// Whether a table, passed whole, has the sixteen products that the formula gives. Counters index it, never a state.
fn has_products(t: [[u8; 4]; 4]) -> bool
    ensures { result ≡ has_products t }
{
    (0..16u8).all(|i| t[i as usize / 4][i as usize % 4] == star(i / 4, i % 4))
}

// Whether the table of products has them: it does.
pub fn table_holds() -> bool
    ensures { result ≡ true }
{
    has_products(TABLE)
}

// One byte of the substitution, after a byte whose last cell is the one before it: the products of four pairs of neighbouring cells at once.
pub fn substituted_byte(p: u8, b: u8) -> u8
    ensures { result ≡ substituted_byte table (p % 4) b }
{
    let x = (p << 6) ^ (b >> 2);
    let d = (b ^ (b >> 1)) & x & LOWER;
    b ^ x ^ d ^ (d << 1) ^ ((x >> 1) & LOWER) ^ LOWER
}
