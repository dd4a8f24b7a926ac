// GAGE's substitution and its inverse on a state's first bytes, with a leader (document 000, section 1.1.1), by the products of the crate gage_cells.
// The promises cite gage_cells/specs/Cells.antt.
#![tactic(auto)]

ghost use Rattle.std.specs.Prelude.{◌≡◌, ◌<◌, ◌≤◌, ◌%◌, min, take};
ghost use Rattle.gage_cells.specs.Sizes.{LARGEST};
ghost use Rattle.gage_cells.specs.Cells.{table, substitute, restore, on_first};

use gage_cells::{LARGEST, WIDE, star, substituted_byte};

// The bytes that the machine works on at once.
const WORD: usize = 16;

// The first n bytes of a wide state substituted with a leader; behind them whole words are worked on, whose bytes mean nothing.
fn substitute_wide(w: [u8; WIDE], n: usize, leader: u8) -> [u8; WIDE]
    requires { n ≤ LARGEST }
    ensures { take n result ≡ substitute table (leader % 4) (take n w) }
{
    let end = n.next_multiple_of(WORD);
    let mut out = w;
    let mut p = leader;
    for i in 0..end {
        let b = w[i];
        out[i] = substituted_byte(p, b);
        p = b;
    }
    out
}

// s before a substitution with a leader: each cell from the one just recovered.
fn restore_all(s: &mut [u8], leader: u8)
    requires { leader < 4 }
    ensures { s.new ≡ restore table leader s.old }
{
    let mut p = leader;
    for x in s.iter_mut() {
        let b = *x;
        let a = star(p, b >> 6);
        let c = star(a, (b >> 4) & 3);
        let d = star(c, (b >> 2) & 3);
        let e = star(d, b & 3);
        *x = (a << 6) ^ (c << 4) ^ (d << 2) ^ e;
        p = e;
    }
}

// The substitution on the first n bytes of a state, with a leader mod 4.
// It goes by value with its size, no slice: the promise, `on_first n`, is of such a state.
pub fn substitute(s: [u8; LARGEST], n: usize, leader: u8) -> [u8; LARGEST]
    ensures { result ≡ on_first n (substitute table (leader % 4)) s }
{
    let first = n.min(LARGEST);
    let mut w = [0u8; WIDE];
    base_lists::copy(&s, &mut w);
    let out = substitute_wide(w, first, leader);
    let mut r = s;
    base_lists::copy(&out[..first], &mut r);
    r
}

// Its inverse.
pub fn restore(s: [u8; LARGEST], n: usize, leader: u8) -> [u8; LARGEST]
    ensures { result ≡ on_first n (restore table (leader % 4)) s }
{
    let mut r = s;
    restore_all(&mut r[..n.min(LARGEST)], leader & 3);
    r
}
