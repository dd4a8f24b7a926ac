// GAGE's round permutation and its inverse, on a state by value with its size in bytes and a count of rounds (document 000, section 1.1;
// document 01, 'The permutation'; order W9): the permutation in planes, its inverse byte by byte. The promises cite gage_spec/specs/Permutation.antt.
#![tactic(auto)]

ghost use Rattle.std.specs.Prelude.{◌≡◌, ◌++◌, ◌≤◌, take, drop};
ghost use Rattle.gage_cells.specs.Sizes.{LARGEST};
ghost use Rattle.gage_shuffle.specs.Sizes.{SMALLEST};
ghost use Rattle.gage_leaders.specs.Leaders.{MOST-ROUNDS};
ghost use Rattle.gage_spec.specs.Permutation.{permute, unpermute, judged, answered};

use gage_spec::{LARGEST, Permuted, judge};

// The first k rounds of the permutation on the first n bytes of s: in planes, and out again.
fn turned(s: [u8; LARGEST], n: usize, k: usize) -> [u8; LARGEST]
    requires { (judged n k ≡ Ok tt) × (n ≤ LARGEST) }
    ensures { result ≡ permute k (take n s) ++ drop n s }
{
    let t = gage_weave::weave(&s[..n]);
    let q = gage_planes::permuted(t, n, k);
    let mut r = s;
    gage_weave::tell(q, &mut r[..n]);
    r
}

// The first n bytes of s before k rounds of the permutation.
fn unturned(s: [u8; LARGEST], n: usize, k: usize) -> [u8; LARGEST]
    requires { (SMALLEST ≤ n) × (n ≤ LARGEST) × (1 ≤ k) × (k ≤ MOST-ROUNDS) }
    ensures { result ≡ unpermute k (take n s) ++ drop n s }
{
    let leaders = gage_leaders::table();
    let mut a = s;
    for i in (1..k).rev() {
        let b = gage_substitute::restore(a, n, leaders[i]);
        a = gage_shuffle::unshuffle(b, n);
    }
    gage_substitute::restore(a, n, leaders[0])
}

// k rounds of the permutation. A state goes by value with its size, no slice: `answered`, permute-undone and unpermute-undone are of such a state.
// One function over this call and the next would have to promise what either change asks and gives, which is longer than both.
pub fn permute(s: [u8; LARGEST], n: usize, k: usize) -> Permuted
    ensures { result ≡ answered permute s n k }
{
    let answer = judge(n, k);
    let Ok(()) = answer else {
        return Permuted { answer, state: s };
    };
    let state = turned(s, n, k);
    Permuted { answer, state }
}

// Their inverse.
pub fn unpermute(s: [u8; LARGEST], n: usize, k: usize) -> Permuted
    ensures { result ≡ answered unpermute s n k }
{
    let answer = judge(n, k);
    let Ok(()) = answer else {
        return Permuted { answer, state: s };
    };
    let state = unturned(s, n, k);
    Permuted { answer, state }
}
