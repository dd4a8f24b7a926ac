// One turn of the permutation on a state in planes (document 000, Algorithm 2): the shuffle is a shift of each plane, the substitution a few XOR and AND
// (document 003, formula 6), and now and then the planes are drawn out anew. Nothing is looked up, and nothing depends on the bytes. The promises cite
// gage_planes_spec/specs/Planes.antt.
#![tactic(auto)]

ghost use Rattle.std.specs.Prelude.{◌≡◌, ◌<◌, ◌/◌, ◌%◌};
ghost use Rattle.base_digits.specs.Joined.{grown};
ghost use Rattle.gage_planes_spec.specs.Planes.{slid, rolled, rolled_all, upper, lower, begun, led, products};
ghost use Rattle.gage_planes_spec.specs.Planes.{substituted, turned_by, turned_around, beside, drawn_out, cut, taken};

use gage_planes_spec::Planes;

const ONES: u64 = 0xFFFFFFFFFFFFFFFF;

// The digits of a plane.
const WORD: u64 = 64;

// The shuffle of planes drawn out: each plane shifted by what its element looks ahead, at its new place.
pub fn slid(p: Planes) -> Planes
    ensures { result ≡ slid p }
{
    Planes {
        a: p.h,
        b: p.b >> 6,
        c: p.g >> 1,
        d: p.a >> 7,
        e: p.f >> 2,
        f: p.c >> 5,
        g: p.d >> 4,
        h: p.e >> 3,
    }
}

// The left bit of every product of a cell of the planes y and z with one of u and v.
#[tactic(auto, unfolding(gage_planes_spec::specs::Planes::upper))]
fn upper(y: u64, z: u64, u: u64, v: u64) -> u64
    ensures { result ≡ upper y z u v }
{
    y ^ u ^ (z & (u ^ v))
}

// Its right bit.
#[tactic(auto, unfolding(gage_planes_spec::specs::Planes::lower))]
fn lower(y: u64, z: u64, u: u64, v: u64) -> u64
    ensures { result ≡ lower y z u v }
{
    ONES ^ (y ^ z) ^ v ^ (z & (u ^ v))
}

// A plane one byte further on, with other digits where a state begins.
#[tactic(auto, unfolding(gage_planes_spec::specs::Planes::begun))]
fn begun(x: u64, starts: u64, other: u64) -> u64
    ensures { result ≡ begun x starts other }
{
    ((x << 1) & (ONES ^ starts)) ^ other
}

// The same with a bit of the leader there.
pub fn led(x: u64, starts: u64, l: u64) -> u64
    ensures { result ≡ led x starts (l % 2) }
{
    begun(x, starts, l % 2 * starts)
}

// The products of every byte's cells, y and z being the bits of the cell before each byte.
pub fn products(y: u64, z: u64, p: Planes) -> Planes
    ensures { result ≡ products y z p }
{
    Planes {
        a: upper(y, z, p.a, p.b),
        b: lower(y, z, p.a, p.b),
        c: upper(p.a, p.b, p.c, p.d),
        d: lower(p.a, p.b, p.c, p.d),
        e: upper(p.c, p.d, p.e, p.f),
        f: lower(p.c, p.d, p.e, p.f),
        g: upper(p.e, p.f, p.g, p.h),
        h: lower(p.e, p.f, p.g, p.h),
    }
}

// The substitution with a leader.
pub fn substituted(p: Planes, starts: u64, leader: u64) -> Planes
    ensures { result ≡ substituted p starts leader }
{
    let y = led(p.g, starts, leader / 2);
    let z = led(p.h, starts, leader);
    products(y, z, p)
}

// One turn of planes drawn out, y and z being what the leader's bits put where a state begins.
pub fn turned(p: Planes, starts: u64, y: u64, z: u64) -> Planes
    ensures { result ≡ turned_by p starts y z }
{
    let q = slid(p);
    let u = begun(q.g, starts, y);
    let v = begun(q.h, starts, z);
    products(u, v, q)
}

// A plane of as many digits as a number has, turned by j.
#[tactic(auto, unfolding(gage_planes_spec::specs::Planes::rolled))]
fn rolled(x: u64, j: u64) -> u64
    requires { (0 < j) × (j < 64) }
    ensures { result ≡ rolled x j }
{
    ((x >> j) & (ONES >> j)) ^ (x << (WORD - j))
}

// The shuffle of a state of 64 bytes: each plane turned.
fn rolled_all(p: Planes) -> Planes
    ensures { result ≡ rolled_all p }
{
    Planes {
        a: p.h,
        b: rolled(p.b, 6),
        c: rolled(p.g, 1),
        d: rolled(p.a, 7),
        e: rolled(p.f, 2),
        f: rolled(p.c, 5),
        g: rolled(p.d, 4),
        h: rolled(p.e, 3),
    }
}

// One turn of a state of 64 bytes.
pub fn turned_around(p: Planes, leader: u64) -> Planes
    ensures { result ≡ turned_around p leader }
{
    substituted(rolled_all(p), 1, leader)
}

// The first n digits of x, m having as many ones, with those of y behind them.
#[tactic(auto, unfolding(gage_planes_spec::specs::Planes::beside))]
fn beside(x: u64, y: u64, m: u64, n: u64) -> u64
    requires { n < 64 }
    ensures { result ≡ beside x y m n }
{
    (x & m) ^ ((y & m) << n)
}

// The same of all planes, n below 64.
pub fn drawn_out(p: Planes, q: Planes, m: u64, n: u64) -> Planes
    ensures { result ≡ drawn_out p q m (n % 64) }
{
    let k = n % WORD;
    Planes {
        a: beside(p.a, q.a, m, k),
        b: beside(p.b, q.b, m, k),
        c: beside(p.c, q.c, m, k),
        d: beside(p.d, q.d, m, k),
        e: beside(p.e, q.e, m, k),
        f: beside(p.f, q.f, m, k),
        g: beside(p.g, q.g, m, k),
        h: beside(p.h, q.h, m, k),
    }
}

// The planes cut to the digits of m.
pub fn cut(p: Planes, m: u64) -> Planes
    ensures { result ≡ cut p m }
{
    Planes {
        a: p.a & m,
        b: p.b & m,
        c: p.c & m,
        d: p.d & m,
        e: p.e & m,
        f: p.f & m,
        g: p.g & m,
        h: p.h & m,
    }
}

// The lowest byte of x put below q.
#[tactic(auto, unfolding(base_digits::specs::Joined::grown))]
pub fn grown(q: u64, x: u64) -> u64
    ensures { result ≡ grown q x }
{
    (q << 8) ^ (x % 256)
}

// A byte of each plane, from digit i on, joined; i below 64.
pub fn taken(q: Planes, i: u64) -> u64
    ensures { result ≡ taken q (i % 64) }
{
    let k = i % WORD;
    let a = grown(0, q.a >> k);
    let b = grown(a, q.b >> k);
    let c = grown(b, q.c >> k);
    let d = grown(c, q.d >> k);
    let e = grown(d, q.e >> k);
    let f = grown(e, q.f >> k);
    let g = grown(f, q.g >> k);
    grown(g, q.h >> k)
}
