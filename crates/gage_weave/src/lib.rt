// Between a state's bytes and its planes, eight bytes at a time: a block of eight is a table of 64 bits in a number, and is turned about its diagonal by
// three exchanges, the same way in and out. And a block XORed into a state in planes. Nothing is looked up, and nothing depends on the bytes. The promises
// cite gage_planes_spec/specs/Told.antt and specs/Weaving.antt.
#![tactic(auto)]

ghost use Rattle.std.specs.Prelude.{◌≡◌, [], ◌∷◌, ◌+◌, ◌-◌, ◌≤◌, ◌<◌, ◌%◌, min, length, get_or, take, drop};
ghost use Rattle.base_lists.specs.Buffers.{over};
ghost use Rattle.base_digits.specs.Digits.{digit};
ghost use Rattle.base_digits.specs.Joined.{joined};
ghost use Rattle.gage_planes_spec.specs.Told.{LOW, ROOM, byte_at, told, planes_of, rest_of, state_of, xor_planes, mixed};
ghost use Rattle.gage_weave.specs.Weaving.{exchanged, woven, drawn, eight_of, bytes_of};
ghost use Rattle.gage_weave.specs.Mixing.{MixedIn};

use gage_planes_spec::{Planes, State};
use gage_turn::{grown, taken};

// The bytes that planes of one number hold, and those that a state in planes has.
const LOW: usize = 64;

const ROOM: usize = 72;

// The bytes of a block.
const BLOCK: usize = 8;

// The bits that change places with those 7, 14 and 28 further on.
const BY_ONE: u64 = 0x00AA00AA00AA00AA;

const BY_TWO: u64 = 0x0000CCCC0000CCCC;

const BY_FOUR: u64 = 0x00000000F0F0F0F0;

// The digits where m has ones exchanged with those j further on.
#[tactic(auto, unfolding(crate::specs::Weaving::exchanged))]
fn exchanged(x: u64, j: u64, m: u64) -> u64
    requires { j < 64 }
    ensures { result ≡ exchanged x j m }
{
    let t = (x ^ (x >> j)) & m;
    x ^ t ^ (t << j)
}

// Eight bytes turned about: bit j of byte i goes to bit i of byte j.
fn woven(x: u64) -> u64
    ensures { result ≡ woven x }
{
    let y = exchanged(x, 7, BY_ONE);
    let z = exchanged(y, 14, BY_TWO);
    exchanged(z, 28, BY_FOUR)
}

// The block of s at a place, its first byte lowest.
fn word(s: &[u8], i: usize) -> u64
    requires { i + 8 ≤ length s.now }
    ensures { result ≡ joined (get_or s.now i 0 ∷ get_or s.now (i + 1) 0 ∷ get_or s.now (i + 2) 0 ∷ get_or s.now (i + 3) 0
        ∷ get_or s.now (i + 4) 0 ∷ get_or s.now (i + 5) 0 ∷ get_or s.now (i + 6) 0 ∷ get_or s.now (i + 7) 0 ∷ []) }
{
    let h = grown(0, s[i + 7] as u64);
    let g = grown(h, s[i + 6] as u64);
    let f = grown(g, s[i + 5] as u64);
    let e = grown(f, s[i + 4] as u64);
    let d = grown(e, s[i + 3] as u64);
    let c = grown(d, s[i + 2] as u64);
    let b = grown(c, s[i + 1] as u64);
    grown(b, s[i] as u64)
}

// A shorter block as a number, its first byte lowest.
fn word_of(block: &[u8]) -> u64
    ensures { result ≡ joined block.now }
{
    let mut w = 0;
    for b in block.iter().rev() {
        w = grown(w, *b as u64);
    }
    w
}

// A woven block put below the planes.
fn drawn(q: Planes, x: u64) -> Planes
    ensures { result ≡ drawn q x }
{
    Planes {
        a: grown(q.a, x >> 56),
        b: grown(q.b, x >> 48),
        c: grown(q.c, x >> 40),
        d: grown(q.d, x >> 32),
        e: grown(q.e, x >> 24),
        f: grown(q.f, x >> 16),
        g: grown(q.g, x >> 8),
        h: grown(q.h, x),
    }
}

// The planes of the first 64 bytes of s, the last block first.
fn planes(s: &[u8]) -> Planes
    ensures { result ≡ planes_of (take LOW s.now) }
{
    let none = Planes {
        a: 0,
        b: 0,
        c: 0,
        d: 0,
        e: 0,
        f: 0,
        g: 0,
        h: 0,
    };
    let n = s.len().min(LOW);
    let whole = n / BLOCK;
    let mut q = drawn(none, woven(word_of(&s[whole * BLOCK..n])));
    for i in (0..whole).rev() {
        q = drawn(q, woven(word(s, i * BLOCK)));
    }
    q
}

// The eight bytes behind them, woven.
fn rest(s: &[u8]) -> u64
    ensures { result ≡ rest_of (take (ROOM - LOW) (drop LOW s.now)) }
{
    if s.len() <= LOW {
        return 0;
    }
    let end = s.len().min(ROOM);
    woven(word_of(&s[LOW..end]))
}

// A state in planes: the first 72 bytes of s.
pub fn weave(s: &[u8]) -> State
    ensures { result ≡ state_of s.now }
{
    let low = planes(s);
    let rest = rest(s);
    State { low, rest }
}

// The XOR of planes.
fn xor_planes(p: Planes, q: Planes) -> Planes
    ensures { result ≡ xor_planes p q }
{
    Planes {
        a: p.a ^ q.a,
        b: p.b ^ q.b,
        c: p.c ^ q.c,
        d: p.d ^ q.d,
        e: p.e ^ q.e,
        f: p.f ^ q.f,
        g: p.g ^ q.g,
        h: p.h ^ q.h,
    }
}

// Digit j of a number.
#[tactic(auto, unfolding(base_digits::specs::Digits::digit))]
fn digit(x: u64, j: u64) -> u64
    requires { j < 64 }
    ensures { result ≡ digit x j }
{
    (x >> j) % 2
}

// A block of one byte XORed in: each plane takes one digit. Most blocks have one byte, and need no weaving.
fn mix_byte(t: State, x: u64) -> State
    ensures { result ≡ mixed (x ∷ []) t }
{
    let p = t.low;
    let low = Planes {
        a: digit(x, 7) ^ p.a,
        b: digit(x, 6) ^ p.b,
        c: digit(x, 5) ^ p.c,
        d: digit(x, 4) ^ p.d,
        e: digit(x, 3) ^ p.e,
        f: digit(x, 2) ^ p.f,
        g: digit(x, 1) ^ p.g,
        h: digit(x, 0) ^ p.h,
    };
    State { low, rest: t.rest }
}

// A block of any size.
fn mix_block(t: State, block: &[u8]) -> State
    ensures { result ≡ mixed block.now t }
{
    let w = weave(block);
    let low = xor_planes(w.low, t.low);
    State {
        low,
        rest: w.rest ^ t.rest,
    }
}

// A block XORed into a state's first bytes, of whatever size it is.
pub fn mix(t: State, block: &[u8]) -> State
    ensures state { result ≡ mixed block.now t }
    ensures bytes { MixedIn block.now t result }
{
    if block.len() == 1 {
        return mix_byte(t, block[0] as u64);
    }
    mix_block(t, block)
}

// The eight bytes of a state from byte i on, woven.
fn eight(t: State, i: usize) -> u64
    ensures { result ≡ eight_of t i }
{
    if i < LOW {
        return taken(t.low, i as u64);
    }
    t.rest
}

fn low_byte(x: u64) -> u8
    ensures { result ≡ x % 256 }
{
    (x % 256) as u8
}

// The lowest bytes of x over the whole of out.
fn put(out: &mut [u8], x: u64)
    requires { length out.old ≤ 8 }
    ensures { out.new ≡ bytes_of x (length out.old) }
{
    for (r, b) in out.iter_mut().enumerate() {
        *b = low_byte(x >> (8 * r as u64));
    }
}

// The first byte of a state, put together from a digit of each plane.
fn first_byte(t: State) -> u8
    ensures { result ≡ byte_at t 0 }
{
    let p = t.low;
    let left = p.a % 2 * 8 + p.b % 2 * 4 + p.c % 2 * 2 + p.d % 2;
    let right = p.e % 2 * 8 + p.f % 2 * 4 + p.g % 2 * 2 + p.h % 2;
    low_byte(left * 16 + right)
}

// A state's first bytes over out, 72 at most, in blocks.
fn tell_blocks(t: State, out: &mut [u8])
    ensures { out.new ≡ over (told (min (length out.old) ROOM) t) out.old }
{
    let n = out.len().min(ROOM);
    let whole = n / BLOCK * BLOCK;
    for i in 0..n / BLOCK {
        let at = i * BLOCK;
        let end = at + BLOCK;
        put(&mut out[at..end], woven(eight(t, at)));
    }
    put(&mut out[whole..n], woven(eight(t, whole)));
}

// A state's first bytes over out, 72 at most.
pub fn tell(t: State, out: &mut [u8])
    ensures { out.new ≡ over (told (min (length out.old) ROOM) t) out.old }
{
    if out.len() == 1 {
        out[0] = first_byte(t);
        return;
    }
    tell_blocks(t, out);
}
