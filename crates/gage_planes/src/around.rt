// Rounds on planes of 64 digits, as many as a number has: they are turned around, and all digits stay held. The promises cite
// gage_planes_spec/specs/Rounds.antt.
ghost use Rattle.std.specs.Prelude.{◌≡◌, ◌≤◌};
ghost use Rattle.gage_leaders.specs.Leaders.{MOST-ROUNDS};
ghost use Rattle.gage_planes_spec.specs.Planes.{turned_around};
ghost use Rattle.gage_planes_spec.specs.Rounds.{Permuted};

use gage_planes_spec::Planes;
use gage_turn::{substituted, turned_around};

// Four turns, called in one place, so that they are compiled in place.
fn four(p: Planes, a: u8, b: u8, c: u8, d: u8) -> Planes
    ensures { result ≡ turned_around (turned_around (turned_around (turned_around p a) b) c) d }
{
    let x = turned_around(p, a as u64);
    let y = turned_around(x, b as u64);
    let z = turned_around(y, c as u64);
    turned_around(z, d as u64)
}

// k rounds.
pub fn permuted(p: Planes, k: usize) -> Planes
    requires { (1 ≤ k) × (k ≤ MOST-ROUNDS) }
    ensures { Permuted 64 k p result }
{
    let leaders = gage_leaders::table();
    let mut r = substituted(p, 1, leaders[0] as u64);
    // Counted by hand: `for` over ranges, measured, takes 1.2 in a hundred more instructions for a digest by instance 10, `chunks_exact` 1.1 at 64 bytes.
    let mut i = 1;
    while i + 3 < k {
        r = four(
            r,
            leaders[i],
            leaders[i + 1],
            leaders[i + 2],
            leaders[i + 3],
        );
        i += 4;
    }
    while i < k {
        r = turned_around(r, leaders[i] as u64);
        i += 1;
    }
    r
}
