// The steps of InGAGE's Algorithms 5 and 6 (ingage_spec/specs/Cipher.antt) that pass no text: the start, the block of a piece of the associated data,
// and what is XORed in behind each text. The start is worked out in an array by value of which the first bytes count, as many as the instance's state has;
// from then on a state stays in planes. The promises cite specs/Arrays.antt.
#![tactic(auto)]

ghost use Rattle.std.specs.Prelude.{◌≡◌};
ghost use Rattle.ingage_spec.specs.Cipher.{AFTER-ASSOCIATED};
ghost use Rattle.ingage_steps.specs.Arrays.{whole_of, last_of, put_at, marked_of, start_of, last_mixed, finish_of};

use gage_planes_spec::State;
use gage_spec::{LARGEST, ROUNDS};
use gage_sponge::LARGEST_RATE;
use ingage_spec::Instance;

// What is XORed into the last block of the associated data, into the state after it, and into the state after the message (document 000,
// section 2.1).
const LAST_BLOCK: u8 = 0x01;

const AFTER_ASSOCIATED: u8 = 0x01;

const AFTER_MESSAGE: u8 = 0x02;

// All rounds of the permutation on the first n bytes of s.
#[tactic(auto, unfolding(crate::specs::Arrays::whole_of))]
fn whole(s: [u8; LARGEST], n: usize) -> [u8; LARGEST]
    ensures { result ≡ whole_of n s }
{
    let p = gage_permute::permute(s, n, ROUNDS);
    p.state
}

// v XORed into the last of the first n bytes of s, where there is one.
fn xor_last(s: [u8; LARGEST], n: usize, v: u8) -> [u8; LARGEST]
    ensures { result ≡ last_of v n s }
{
    if n < 1 {
        return s;
    }
    if n > LARGEST {
        return s;
    }
    let mut r = s;
    r[n - 1] = v ^ r[n - 1];
    r
}

// s with as much of b put at a place as there is room for.
fn put(s: [u8; LARGEST], at: usize, b: &[u8]) -> [u8; LARGEST]
    ensures { result ≡ put_at at b.now s }
{
    if at > LARGEST {
        return s;
    }
    let mut r = s;
    base_lists::copy(b, &mut r[at..LARGEST]);
    r
}

// 'Initialize state S': N||K||0* permuted, and 0||K||0* XORed in. N||K||0* is 0||K||0*, which is needed again after the permutation, with
// the nonce put in front.
#[tactic(auto, unfolding(crate::specs::Arrays::start_of))]
pub fn start(z: Instance, key: &[u8], nonce: &[u8]) -> [u8; LARGEST]
    ensures { result ≡ start_of z key.now nonce.now }
{
    let zeros = [0u8; LARGEST];
    let k = put(zeros, z.nonce, key);
    let s = whole(put(k, 0, nonce), z.state);
    gage_sponge::mix(s, &k)
}

// The block of one piece of the associated data, padded; the last one, which alone is shorter than a block, has its last bit set.
pub fn associated_block(rate: usize, p: &[u8]) -> [u8; LARGEST_RATE]
    ensures { result ≡ marked_of rate p.now }
{
    let b = gage_sponge::last_block(p);
    if p.len() >= rate {
        return b;
    }
    if rate > LARGEST_RATE {
        return b;
    }
    let mut m = b;
    m[rate - 1] = LAST_BLOCK ^ m[rate - 1];
    m
}

// v XORed into the last byte of a state of n bytes.
#[tactic(auto, unfolding(crate::specs::Arrays::last_mixed))]
fn mark(t: State, n: usize, v: u8) -> State
    ensures { result ≡ last_mixed v n t }
{
    let b = xor_last([0u8; LARGEST], n, v);
    gage_weave::mix(t, &b)
}

// 'Absorb associated data A', the step after its blocks.
pub fn after_associated(t: State, n: usize) -> State
    ensures { result ≡ last_mixed AFTER-ASSOCIATED n t }
{
    mark(t, n, AFTER_ASSOCIATED)
}

// The step before 'Finalization', and its step 1.
#[tactic(auto, unfolding(crate::specs::Arrays::finish_of))]
pub fn finish(t: State, n: usize) -> State
    ensures { result ≡ finish_of n t }
{
    gage_planes::permuted(mark(t, n, AFTER_MESSAGE), n, ROUNDS)
}
