// Rounds on planes of 28 to 50 digits in numbers of 64: the planes are drawn out around their end, so many turns are made as their spare digits allow, and they
// are drawn out again. The promises cite gage_planes_spec/specs/Rounds.antt.
ghost use Rattle.std.specs.Prelude.{◌≡◌, ◌+◌, ◌-◌, ◌*◌, ◌<◌, ◌≤◌, ◌^◌, ◌%◌};
ghost use Rattle.std.specs.Int.Bits.{bit_xor};
ghost use Rattle.gage_leaders.specs.Leaders.{MOST-ROUNDS};
ghost use Rattle.gage_planes_spec.specs.Planes.{turned, doubled, uppers, lowers};
ghost use Rattle.gage_planes_spec.specs.Rounds.{LEAST, MOST, Room, Permuted};

use gage_planes_spec::Planes;
use gage_turn::{drawn_out, substituted, turned};

// The largest state for which the spare digits allow four turns.
const FOUR: usize = 36;

// How many turns they allow, where a state has n bytes: four, or at least two.
fn room(n: usize) -> usize
    requires { (LEAST ≤ n) × (n ≤ MOST) }
    ensures { Room n result }
{
    if n <= FOUR {
        return 4;
    }
    2
}

// The rounds to be made in groups of four: all where four turns have room, else none.
fn grouped(n: usize, k: usize) -> usize
    ensures { (result ≤ k) × (0 < result → n ≤ 36) }
{
    if n <= FOUR {
        return k;
    }
    0
}

// The digits at which a state of n bytes begins.
fn starts(n: u64) -> u64
    requires { n < 64 }
    ensures { result ≡ bit_xor (1 * 2 ^ n % 2 ^ 64) 1 }
{
    (1u64 << n) ^ 1
}

// n ones.
pub fn ones(n: u64) -> u64
    requires { n < 64 }
    ensures { result ≡ 2 ^ n - 1 }
{
    (1u64 << n) - 1
}

// The planes drawn out around their end.
fn doubled(p: Planes, m: u64, n: u64) -> Planes
    requires { n < 64 }
    ensures { result ≡ doubled p m n }
{
    drawn_out(p, p, m, n)
}

// One turn. What the bits of its leader put where a state begins is read from upper and lower, which costs nothing beside the XOR that takes it in.
fn turn(p: Planes, starts: u64, upper: &[u64], lower: &[u64], leader: u8) -> Planes
    requires { (upper.now ≡ uppers starts) × (lower.now ≡ lowers starts) × (leader < 4) }
    ensures { result ≡ turned p starts leader }
{
    let i = leader as usize;
    turned(p, starts, upper[i], lower[i])
}

// Four turns. This and the next are called in one place each, so that they are compiled in place, with the planes in registers.
fn four(p: Planes, starts: u64, upper: &[u64], lower: &[u64], a: u8, b: u8, c: u8, d: u8) -> Planes
    requires { (upper.now ≡ uppers starts) × (lower.now ≡ lowers starts) × (a < 4) × (b < 4) × (c < 4) × (d < 4) }
    ensures { result ≡ turned (turned (turned (turned p starts a) starts b) starts c) starts d }
{
    let x = turn(p, starts, upper, lower, a);
    let y = turn(x, starts, upper, lower, b);
    let z = turn(y, starts, upper, lower, c);
    turn(z, starts, upper, lower, d)
}

// Two turns.
fn pair(p: Planes, starts: u64, upper: &[u64], lower: &[u64], a: u8, b: u8) -> Planes
    requires { (upper.now ≡ uppers starts) × (lower.now ≡ lowers starts) × (a < 4) × (b < 4) }
    ensures { result ≡ turned (turned p starts a) starts b }
{
    let q = turn(p, starts, upper, lower, a);
    turn(q, starts, upper, lower, b)
}

// k rounds.
pub fn permuted(p: Planes, n: usize, k: usize) -> Planes
    requires { (LEAST ≤ n) × (n ≤ MOST) × (1 ≤ k) × (k ≤ MOST-ROUNDS) }
    ensures { Permuted n k p result }
{
    let ls = gage_leaders::table();
    let size = n as u64;
    let begins = starts(size);
    let upper = [0, 0, begins, begins];
    let lower = [0, begins, 0, begins];
    let m = ones(size);
    let most = room(n);
    let end = grouped(n, k);
    let mut r = substituted(doubled(p, m, size), begins, ls[0] as u64);
    // Counted by hand: `for` over ranges or `chunks_exact`, measured, takes 1.4 to 3.9 in a hundred more instructions for a digest by instance 1.
    let mut i = 1;
    while i + 3 < end {
        let q = four(
            r,
            begins,
            &upper,
            &lower,
            ls[i],
            ls[i + 1],
            ls[i + 2],
            ls[i + 3],
        );
        r = doubled(q, m, size);
        i += 4;
    }
    while i + 1 < k {
        let q = pair(r, begins, &upper, &lower, ls[i], ls[i + 1]);
        r = doubled(q, m, size);
        i += 2;
    }
    if i < k {
        return turn(r, begins, &upper, &lower, ls[i]);
    }
    r
}
