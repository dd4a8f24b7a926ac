// The rounds of GAGE's permutation on a state in planes (document 000, Algorithm 2), at each of the ten sizes and for every count of rounds. How a state's
// planes are turned goes by its size: drawn out around their end (drawn.rt), turned as wide as a number (around.rt), or as two windows (windows.rt).
// The promise cites gage_planes_spec/specs/Rounds.antt.
#![tactic(auto)]

use gage_planes_spec::{State, Windows};

mod around;
mod drawn;
mod windows;

ghost use Rattle.std.specs.Prelude.{◌≡◌, ◌+◌, ◌-◌, ◌≤◌, ◌<◌, ◌^◌};
ghost use Rattle.gage_leaders.specs.Leaders.{MOST-ROUNDS};
ghost use Rattle.gage_spec.specs.Permutation.{judged};
ghost use Rattle.gage_planes_spec.specs.Planes.{rejoined};
ghost use Rattle.gage_planes_spec.specs.Rounds.{LEAST, MOST, permuted};

// The largest state whose planes are drawn out, in bytes.
const MOST: usize = 50;

// The bytes of a state whose planes are as wide as a number, and all ones of one.
const WORD: usize = 64;

const ONES: u64 = 0xFFFFFFFFFFFFFFFF;

// k rounds of a state of at most 50 bytes.
fn permuted_drawn(t: State, n: usize, k: usize) -> State
    requires { (judged n k ≡ Ok tt) × (LEAST ≤ n) × (n ≤ MOST) × (1 ≤ k) × (k ≤ MOST-ROUNDS) }
    ensures { result ≡ permuted n k t }
{
    let q = drawn::permuted(t.low, n, k);
    let m = drawn::ones(n as u64);
    State {
        low: gage_turn::cut(q, m),
        rest: 0,
    }
}

// k rounds of a state of 64 bytes.
fn permuted_around(t: State, k: usize) -> State
    requires { (judged 64 k ≡ Ok tt) × (1 ≤ k) × (k ≤ MOST-ROUNDS) }
    ensures { result ≡ permuted 64 k t }
{
    let q = around::permuted(t.low, k);
    State {
        low: gage_turn::cut(q, ONES),
        rest: 0,
    }
}

// k rounds of a state of 68 to 72 bytes, h being half of it.
fn permuted_windows(t: State, h: u64, k: usize) -> State
    requires { (judged (h + h) k ≡ Ok tt) × (34 ≤ h) × (h ≤ 36) × (1 ≤ k) × (k ≤ MOST-ROUNDS) }
    ensures { result ≡ permuted (h + h) k t }
{
    let w = windows::split(t, h);
    let q = windows::permuted(w, h, k);
    windows::join(q, h)
}

// k rounds of a state of n bytes; of another size or count it stays as it was.
pub fn permuted(t: State, n: usize, k: usize) -> State
    ensures { result ≡ permuted n k t }
{
    let Ok(()) = gage_spec::judge(n, k) else {
        return t;
    };
    if n <= MOST {
        return permuted_drawn(t, n, k);
    }
    if n == WORD {
        return permuted_around(t, k);
    }
    permuted_windows(t, (n / 2) as u64, k)
}
