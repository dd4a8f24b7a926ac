// The sponge's state and the unfinished block as bytes are fed (order W4): a block is taken in as it fills, and what fills none is kept. The promises
// cite specs/Growing.antt and running_spec/specs/Running.antt.
#![tactic(auto)]

ghost use Rattle.std.specs.Prelude.{◌≡◌, ◌++◌, ◌≤◌, take};
ghost use Rattle.std.proofs.Props.{props};
ghost use Rattle.gage_sponge.specs.Padding.{LARGEST-RATE};
ghost use Rattle.digest_sponge.specs.Parts.{within, taken_in};
ghost use Rattle.running_spec.specs.Running.{left_of};
ghost use Rattle.running_grow.specs.Growing.{Growing, grown_by};

use gage_spec::LARGEST;
use gage_sponge::LARGEST_RATE;

// The state after the blocks that fill, and the block that holds what is left.
#[derive(Clone, Copy)]
pub struct Grown {
    pub state: [u8; LARGEST],
    pub block: [u8; LARGEST_RATE],
}

// The first bytes of a block and as many more as fit, zeros behind them.
fn joined(block: [u8; LARGEST_RATE], held: usize, bytes: &[u8]) -> [u8; LARGEST_RATE]
    requires { held ≤ LARGEST-RATE }
    ensures { result ≡ within LARGEST-RATE (take held block ++ bytes.now) }
{
    let mut out = [0u8; LARGEST_RATE];
    base_lists::copy(&block[0..held], &mut out);
    base_lists::copy(bytes, &mut out[held..]);
    out
}

// A block begun by a known instance, of which some bytes are held and some missing.
#[derive(Clone, Copy)]
struct Begun {
    instance: usize,
    block: [u8; LARGEST_RATE],
    held: usize,
    missing: usize,
    ghost grows: { Growing instance held missing } by { Prim.hlevel props },
}

impl Begun {
    // A state after the blocks that fill: the one begun, and those whole in the bytes fed.
    fn state_after(self, state: [u8; LARGEST], bytes: &[u8]) -> [u8; LARGEST]
        ensures { result ≡ taken_in self.instance state (take self.held self.block ++ bytes.now) }
    {
        let block = self.block;
        if bytes.len() < self.missing {
            return digest_sponge::take_in(self.instance, state, &block[0..self.held]);
        }
        let first = joined(block, self.held, &bytes[0..self.missing]);
        let rate = self.held + self.missing;
        let filled = digest_sponge::take_in(self.instance, state, &first[0..rate]);
        digest_sponge::take_in(self.instance, filled, &bytes[self.missing..])
    }

    // The block after them: what fills none.
    fn block_after(self, bytes: &[u8]) -> [u8; LARGEST_RATE]
        ensures { result ≡ within LARGEST-RATE (left_of self.instance (take self.held self.block ++ bytes.now)) }
    {
        let fed = bytes.len();
        if fed < self.missing {
            return joined(self.block, self.held, bytes);
        }
        let rate = self.held + self.missing;
        let whole = (fed - self.missing) / rate * rate;
        let at = self.missing + whole;
        joined(self.block, 0, &bytes[at..])
    }
}

// State and block after the bytes that are fed, of a message of which so many were before; as they were for an unknown instance.
pub fn grow(
    instance: usize,
    state: [u8; LARGEST],
    block: [u8; LARGEST_RATE],
    total: usize,
    bytes: &[u8],
) -> Grown
    ensures { result ≡ grown_by instance state block total bytes.now }
{
    if digest_sponge::is_unknown(instance) {
        return Grown { state, block };
    }
    let shape = digest_sponge::sponge_of(instance);
    let held = total % shape.rate;
    let begun = Begun {
        instance,
        block,
        held,
        missing: shape.rate - held,
    };
    let after = begun.state_after(state, bytes);
    let left = begun.block_after(bytes);
    Grown {
        state: after,
        block: left,
    }
}
