// The sponge of the ten GAGE digests (document 000, section 1.1.4; document 01, 'The digest') over state size and rate, with the instances as
// rows of a table: a message taken up whole or in parts, and the digest given out. A state stays in planes from block to block; its bytes are woven in and told
// only where a call begins or ends. The promises cite specs/Parts.antt and the definitions of the crate digest_spec.
#![tactic(auto)]

ghost use Rattle.std.specs.Prelude.{◌≡◌, true, false, ◌*◌, ◌/◌, ◌≤◌, length, take, MatchOption};
ghost use Rattle.std.proofs.Props.{props};
ghost use Rattle.gage_spec.specs.Permutation.{LARGEST, ROUNDS, permitted, permute};
ghost use Rattle.gage_planes_spec.specs.Told.{told};
ghost use Rattle.gage_sponge.specs.Padding.{block_count, last_block};
ghost use Rattle.gage_sponge.specs.Absorbing.{from, xored};
ghost use Rattle.digest_spec.specs.Instances.{DIGEST, unknown, size_of, rate_of, outputs_of};
ghost use Rattle.digest_spec.specs.Shapes.{Fits};
ghost use Rattle.digest_spec.specs.Hashing.{absorbed, squeezed};
ghost use Rattle.digest_sponge.specs.Parts.{taken, sponge_of, taken_in, closed_by, hash_of};

use gage_planes_spec::State;
use gage_spec::LARGEST;

// The bits of a byte, and of a digest.
const BYTE: usize = 8;

const DIGEST_BITS: usize = 256;

// The bytes of a digest.
pub const DIGEST: usize = DIGEST_BITS / BYTE;

// Instances 1 to 10, state size b and rate r in bits (document 000, Table 1.4).
const INSTANCE_COUNT: usize = 10;

const INSTANCES: [[usize; 2]; INSTANCE_COUNT] = [
    [232, 8],
    [240, 16],
    [256, 32],
    [288, 64],
    [272, 16],
    [288, 32],
    [320, 64],
    [384, 128],
    [544, 32],
    [576, 64],
];

// What the sponge of an instance works with: state size and rate in bytes, and how often it gives out.
#[derive(Clone, Copy)]
pub struct Shape {
    pub size: usize,
    pub rate: usize,
    pub outputs: usize,
}

// Whether there is no such instance.
pub fn is_unknown(instance: usize) -> bool
    ensures { result ≡ unknown instance }
{
    if instance < 1 {
        return true;
    }
    instance > INSTANCE_COUNT
}

// The sponge of a known instance. Its size is permitted, and its rate, which has room for a block, makes the digest in whole outputs.
#[derive(Clone, Copy)]
struct Sponge {
    size: usize,
    rate: usize,
    outputs: usize,
    ghost fits: { Fits size rate } by { Prim.hlevel props },
    ghost makes: { outputs * rate ≡ DIGEST },
}

impl Sponge {
    // The sponge of an instance, where there is one.
    fn of(instance: usize) -> Option<Sponge>
        ensures { MatchOption result (unknown instance ≡ true) (λ z. (unknown instance ≡ false) × (z.size ≡ size_of instance)
            × (z.rate ≡ rate_of instance) × (z.outputs ≡ outputs_of instance)) }
    {
        if is_unknown(instance) {
            return None;
        }
        let rows = INSTANCES;
        let i = instance - 1;
        let b = rows[i][0];
        let r = rows[i][1];
        Some(Sponge {
            size: b / BYTE,
            rate: r / BYTE,
            outputs: DIGEST_BITS / r,
        })
    }

    // The permutation of a state.
    fn turned(self, s: State) -> State
        ensures { told self.size result ≡ permute ROUNDS (told self.size s) }
    {
        gage_planes::permuted(s, self.size, gage_spec::ROUNDS)
    }

    // A state's first bytes woven, as many as its size.
    fn woven(self, s: [u8; LARGEST]) -> State
        ensures { told self.size result ≡ take self.size s }
    {
        let bytes = s;
        gage_weave::weave(&bytes[0..self.size])
    }

    // A state after a message's whole blocks, taken straight from the message.
    fn absorb_whole(self, s: State, message: &[u8]) -> State
        ensures { told self.size result ≡ (taken self.rate message.now (from (told self.size s)) (length message.now / self.rate)).state }
    {
        let mut state = s;
        for block in message.chunks_exact(self.rate) {
            state = self.turned(gage_weave::mix(state, block));
        }
        state
    }

    // A state after what is left of the message, padded.
    fn absorb_last(self, s: State, rest: &[u8]) -> State
        ensures { told self.size result ≡ permute ROUNDS (xored (take self.rate (last_block rest.now)) (told self.size s)) }
    {
        let last = gage_sponge::last_block(rest);
        self.turned(gage_weave::mix(s, &last[0..self.rate]))
    }

    // The state after the message's whole blocks and its padded last block.
    fn absorb(self, message: &[u8]) -> State
        ensures { told self.size result ≡ (absorbed self.size self.rate message.now (block_count self.rate message.now)).state }
    {
        let s = self.absorb_whole(self.woven([0u8; LARGEST]), message);
        let at = message.len() / self.rate * self.rate;
        self.absorb_last(s, &message[at..])
    }

    // The digest given out of a state: before each output the permutation.
    fn squeeze(self, s: State) -> [u8; DIGEST]
        ensures { result ≡ (squeezed self.rate (from (told self.size s)) self.outputs).hash }
    {
        let mut hash = [0u8; DIGEST];
        let mut t = s;
        for k in 0..self.outputs {
            let next = self.turned(t);
            let at = k * self.rate;
            gage_weave::tell(next, &mut hash[at..at + self.rate]);
            t = next;
        }
        hash
    }
}

// What the sponge of an instance works with; nothing for an unknown one.
pub fn sponge_of(instance: usize) -> Shape
    ensures { result ≡ sponge_of instance }
{
    let Some(sponge) = Sponge::of(instance) else {
        return Shape {
            size: 0,
            rate: 0,
            outputs: 0,
        };
    };
    Shape {
        size: sponge.size,
        rate: sponge.rate,
        outputs: sponge.outputs,
    }
}

// A state after the whole blocks of a part of a message, zero past its size; of an unknown instance it stays.
pub fn take_in(instance: usize, s: [u8; LARGEST], part: &[u8]) -> [u8; LARGEST]
    ensures { result ≡ taken_in instance s part.now }
{
    let Some(sponge) = Sponge::of(instance) else {
        return s;
    };
    let state = sponge.absorb_whole(sponge.woven(s), part);
    let size = sponge.size;
    let mut out = [0u8; LARGEST];
    gage_weave::tell(state, &mut out[0..size]);
    out
}

// The digest of a message whose whole blocks made a state, from what is left of the message; zeros for an unknown instance.
pub fn close(instance: usize, s: [u8; LARGEST], rest: &[u8]) -> [u8; DIGEST]
    ensures { result ≡ closed_by instance s rest.now }
{
    let Some(sponge) = Sponge::of(instance) else {
        return [0u8; DIGEST];
    };
    let state = sponge.absorb_last(sponge.woven(s), rest);
    sponge.squeeze(state)
}

// The digest of a message; zeros for an unknown instance.
pub fn hash(instance: usize, message: &[u8]) -> [u8; DIGEST]
    ensures { result ≡ hash_of instance message.now }
{
    let Some(sponge) = Sponge::of(instance) else {
        return [0u8; DIGEST];
    };
    let s = sponge.absorb(message);
    sponge.squeeze(s)
}
