// Rounds on a state wider than a number, of 68 or 72 bytes: two windows of 64 digits a plane, from its first byte on and from its middle on. Four turns are
// made between two drawings, and the cell before the middle is carried from the first window to the second. The promises cite
// gage_planes_spec/specs/Planes.antt and Rounds.antt.
ghost use Rattle.std.specs.Prelude.{◌≡◌, ◌+◌, ◌-◌, ◌*◌, ◌<◌, ◌≤◌, ◌/◌, ◌%◌, ◌^◌};
ghost use Rattle.gage_leaders.specs.Leaders.{MOST-ROUNDS};
ghost use Rattle.gage_planes_spec.specs.Planes.{slid, turned, led_from, substituted_behind, substituted_both, turned_both, drawn_both, behind, second_of, rejoined};
ghost use Rattle.gage_planes_spec.specs.Rounds.{PermutedBoth};

use gage_planes_spec::{Planes, State, Windows};
use gage_turn::{drawn_out, led, products, slid};

// The digits of a plane.
const WORD: u64 = 64;

const ONES: u64 = 0xFFFFFFFFFFFFFFFF;

// A plane from digit h on, with a byte of the rest behind it.
#[tactic(auto, unfolding(gage_planes_spec::specs::Planes::behind))]
fn behind(x: u64, y: u64, h: u64) -> u64
    requires { (0 < h) × (h < 64) }
    ensures { result ≡ behind x y h }
{
    ((x >> h) & (ONES >> h)) ^ (y % 256 << (WORD - h))
}

// The second window of a state in planes.
fn second(t: State, h: u64) -> Planes
    requires { (0 < h) × (h < 64) }
    ensures { result ≡ second_of t h }
{
    let p = t.low;
    let y = t.rest;
    Planes {
        a: behind(p.a, y >> 56, h),
        b: behind(p.b, y >> 48, h),
        c: behind(p.c, y >> 40, h),
        d: behind(p.d, y >> 32, h),
        e: behind(p.e, y >> 24, h),
        f: behind(p.f, y >> 16, h),
        g: behind(p.g, y >> 8, h),
        h: behind(p.h, y, h),
    }
}

// Both windows of a state in planes.
pub fn split(t: State, h: u64) -> Windows
    requires { (0 < h) × (h < 64) }
    ensures { result ≡ record { first = t.low; second = second_of t h } }
{
    let first = t.low;
    let second = second(t, h);
    Windows { first, second }
}

// The cell's bit before each byte of the second window: before its first byte it is the first window's, of plane x.
fn led_from(y: u64, x: u64, h: u64, l: u64) -> u64
    requires { (0 < h) × (h < 64) }
    ensures { result ≡ led_from y x h (l % 2) }
{
    led(y, 1u64 << h, l) ^ ((x >> (h - 1)) % 2)
}

// The substitution of the second window q with a leader, p being the first.
fn substituted_behind(q: Planes, p: Planes, h: u64, leader: u64) -> Planes
    requires { (0 < h) × (h < 64) }
    ensures { result ≡ substituted_behind q p h leader }
{
    let y = led_from(q.g, p.g, h, leader / 2);
    let z = led_from(q.h, p.h, h, leader);
    products(y, z, q)
}

// The substitution of both.
fn substituted(w: Windows, h: u64, leader: u64) -> Windows
    requires { (0 < h) × (h < 64) }
    ensures { result ≡ substituted_both w h leader }
{
    Windows {
        first: gage_turn::substituted(w.first, 1, leader),
        second: substituted_behind(w.second, w.first, h, leader),
    }
}

// One turn of the first window, and one of the second.
fn turned_first(p: Planes, leader: u8) -> Planes
    ensures { result ≡ turned p 1 leader }
{
    gage_turn::substituted(slid(p), 1, leader as u64)
}

fn turned_behind(q: Planes, p: Planes, h: u64, leader: u8) -> Planes
    requires { (0 < h) × (h < 64) }
    ensures { result ≡ substituted_behind (slid q) (slid p) h leader }
{
    substituted_behind(slid(q), slid(p), h, leader as u64)
}

// Each window drawn out with the other behind it.
fn drawn(w: Windows, m: u64, h: u64) -> Windows
    requires { h < 64 }
    ensures { result ≡ drawn_both w m h }
{
    Windows {
        first: drawn_out(w.first, w.second, m, h),
        second: drawn_out(w.second, w.first, m, h),
    }
}

// Four turns, first of the one window and then of the other, so that eight planes at a time are in registers.
fn four(w: Windows, h: u64, a: u8, b: u8, c: u8, d: u8) -> Windows
    requires { (0 < h) × (h < 64) }
    ensures { result ≡ turned_both (turned_both (turned_both (turned_both w h a) h b) h c) h d }
{
    let x = turned_first(w.first, a);
    let y = turned_first(x, b);
    let z = turned_first(y, c);
    let first = turned_first(z, d);
    let s = turned_behind(w.second, w.first, h, a);
    let t = turned_behind(s, x, h, b);
    let u = turned_behind(t, y, h, c);
    let second = turned_behind(u, z, h, d);
    Windows { first, second }
}

// One turn.
fn turned(w: Windows, h: u64, leader: u8) -> Windows
    requires { (0 < h) × (h < 64) }
    ensures { result ≡ turned_both w h leader }
{
    let first = turned_first(w.first, leader);
    let second = turned_behind(w.second, w.first, h, leader);
    Windows { first, second }
}

// k rounds.
pub fn permuted(w: Windows, h: u64, k: usize) -> Windows
    requires { (34 ≤ h) × (h ≤ 36) × (1 ≤ k) × (k ≤ MOST-ROUNDS) }
    ensures { PermutedBoth h k w result }
{
    let leaders = gage_leaders::table();
    let m = crate::drawn::ones(h);
    let mut r = substituted(drawn(w, m, h), h, leaders[0] as u64);
    // Counted by hand: `for` over ranges, measured, takes 1.4 in a hundred more instructions for a digest by instance 10.
    let mut i = 1;
    while i + 3 < k {
        let q = four(
            r,
            h,
            leaders[i],
            leaders[i + 1],
            leaders[i + 2],
            leaders[i + 3],
        );
        r = drawn(q, m, h);
        i += 4;
    }
    while i < k {
        let q = turned(r, h, leaders[i]);
        r = drawn(q, m, h);
        i += 1;
    }
    r
}

// The state in planes that the windows hold.
pub fn join(w: Windows, h: u64) -> State
    requires { (0 < h) × (h < 64) }
    ensures { result ≡ rejoined w (2 ^ h - 1) h }
{
    let m = crate::drawn::ones(h);
    let last = gage_turn::cut(w.second, m);
    State {
        low: drawn_out(w.first, w.second, m, h),
        rest: gage_turn::taken(last, WORD - h),
    }
}
