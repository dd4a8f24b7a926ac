// The inverse of GAGE's bit shuffling, a byte at a time (document 000, section 1.1.1; specs/Shuffling.antt). The state is first copied with seven bytes
// wrapped around, so that no loop divides by the size; where an element went is read from the table of places. The shuffle itself is a shift of planes
// (gage_turn).
#![tactic(auto)]

ghost use Rattle.std.specs.Prelude.{◌≡◌, [], ◌∷◌, ◌++◌, ◌+◌, ◌-◌, ◌<◌, ◌≤◌, ◌%◌, get_or, take, drop};
ghost use Rattle.base_lists.specs.Upto.{Upto};
ghost use Rattle.gage_cells.specs.Sizes.{LARGEST};
ghost use Rattle.gage_shuffle.specs.Sizes.{AHEAD, WRAPPED, SMALLEST};
ghost use Rattle.gage_shuffle.specs.Shuffling.{returned, Joined, unshuffle};
ghost use Rattle.gage_cells.specs.Cells.{on_first};
ghost use Rattle.gage_shuffle.specs.Widths.{wide, where_wide};

use gage_cells::LARGEST;

// Where elements 1 to 8 go (document 000, formula 1.4); place 1 is the leftmost bit.
const PLACES: [u8; 8] = [1, 3, 5, 8, 7, 6, 2, 4];

// What a bit at the leftmost place counts in its byte, and what each element counts at its place.
const LEFTMOST: u8 = 128;

const WEIGHT_1: u8 = LEFTMOST >> (PLACES[0] - 1);

const WEIGHT_2: u8 = LEFTMOST >> (PLACES[1] - 1);

const WEIGHT_3: u8 = LEFTMOST >> (PLACES[2] - 1);

const WEIGHT_4: u8 = LEFTMOST >> (PLACES[3] - 1);

const WEIGHT_5: u8 = LEFTMOST >> (PLACES[4] - 1);

const WEIGHT_6: u8 = LEFTMOST >> (PLACES[5] - 1);

const WEIGHT_7: u8 = LEFTMOST >> (PLACES[6] - 1);

const WEIGHT_8: u8 = LEFTMOST >> (PLACES[7] - 1);

// A byte's elements come from it and from seven more.
const AHEAD: usize = 7;

// The room for a state with those wrapped around, and one byte that stays unused: 80 bytes are five words of 16, as the machine moves them.
const WRAPPED: usize = LARGEST + AHEAD + 1;

// The smallest state whose elements all come from different bytes.
const SMALLEST: usize = AHEAD + 1;

// The byte whose eight bits stand at their places in eight bytes.
fn give_back(a: u8, b: u8, c: u8, d: u8, e: u8, f: u8, g: u8, h: u8) -> u8
    ensures { result ≡ returned (a ∷ b ∷ c ∷ d ∷ e ∷ f ∷ g ∷ h ∷ []) }
{
    a / WEIGHT_1 % 2
        + b / WEIGHT_2 % 2 * 2
        + c / WEIGHT_3 % 2 * 4
        + d / WEIGHT_4 % 2 * 8
        + e / WEIGHT_5 % 2 * 16
        + f / WEIGHT_6 % 2 * 32
        + g / WEIGHT_7 % 2 * 64
        + h / WEIGHT_8 % 2 * 128
}

// e with count bytes of s, from a place of s on, put at a place of e.
fn join(e: [u8; WRAPPED], at: usize, s: [u8; LARGEST], from: usize, count: usize) -> [u8; WRAPPED]
    requires { (at + count ≤ WRAPPED) × (from + count ≤ LARGEST) }
    ensures { Joined e at s from count result }
{
    let mut r = e;
    r[at..at + count].copy_from_slice(&s[from..from + count]);
    r
}

// The first n bytes of s from a place on and around, seven more than there are.
fn wrapped(s: [u8; LARGEST], n: usize, from: usize) -> [u8; WRAPPED]
    requires { (from + AHEAD ≤ n) × (n ≤ LARGEST) }
    ensures { Upto (λ k. get_or s ((k + from) % n) 0) result (n + AHEAD) }
{
    let e = join([0u8; WRAPPED], 0, s, from, n - from);
    join(e, n - from, s, 0, from + AHEAD)
}

// The first n bytes of s before a shuffle.
fn unshuffle_wrapped(s: [u8; LARGEST], n: usize) -> [u8; LARGEST]
    requires { (SMALLEST ≤ n) × (n ≤ LARGEST) }
    ensures { result ≡ unshuffle (take n s) ++ drop n s }
{
    let e = wrapped(s, n, n - AHEAD);
    let mut out = s;
    for i in 0..n {
        out[i] = give_back(
            e[i + 7],
            e[i + 6],
            e[i + 5],
            e[i + 4],
            e[i + 3],
            e[i + 2],
            e[i + 1],
            e[i],
        );
    }
    out
}

// Whether a state of n bytes is one that is shuffled.
#[tactic(auto, unfolding(crate::specs::Widths::wide))]
fn is_wide(n: usize) -> bool
    ensures { result ≡ wide n }
{
    (SMALLEST..=LARGEST).contains(&n)
}

// The first n bytes of a state before a shuffle, where a state may have as many; else it stays.
// It goes by value with its size, no slice: the promise, `on_first n`, is of such a state.
#[tactic(auto, using(std::proofs::lemmas::Bool::Decides::nat_tests), unfolding(crate::specs::Widths::wide, crate::specs::Widths::where_wide))]
pub fn unshuffle(s: [u8; LARGEST], n: usize) -> [u8; LARGEST]
    ensures { result ≡ where_wide n (on_first n unshuffle s) s }
{
    if is_wide(n) {
        unshuffle_wrapped(s, n)
    } else {
        s
    }
}
