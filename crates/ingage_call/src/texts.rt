// The texts of InGAGE's Algorithms 5 and 6 (ingage_spec/specs/Cipher.antt) over the sizes of an instance. A state stays in planes from block
// to block. One loop passes the blocks of every text: a block, the last one too, is its
// piece of the text, padded.
ghost use Rattle.std.specs.Prelude.{◌≡◌, ◌+◌, ◌≤◌, min, length, take};
ghost use Rattle.std.proofs.Props.{props};
ghost use Rattle.base_lists.specs.Buffers.{over};
ghost use Rattle.gage_sponge.specs.Padding.{block_count, last_block};
ghost use Rattle.gage_sponge.specs.Absorbing.{xored, from};
ghost use Rattle.ingage_spec.specs.Instances.{Fitting};
ghost use Rattle.ingage_call.specs.Ways.{piece_block, piece_text, given, flow};
ghost use Rattle.ingage_spec.specs.Cipher.{half, passed, absorbed, begun, masked, finished, seal_of};
ghost use Rattle.gage_planes_spec.specs.Told.{told};
ghost use Rattle.gage_weave.specs.Mixing.{MixedIn};
ghost use Rattle.ingage_steps.specs.Arrays.{marked_block};

use gage_planes_spec::State;
use gage_spec::{LARGEST, ROUNDS};
use gage_sponge::LARGEST_RATE;
use ingage_spec::Instance;

// What a text is passed for: 'Absorb associated data A', 'Absorb and encrypt the plaintext P', 'Process the ciphertext C'.
#[derive(Clone, Copy)]
pub enum Way {
    Absorb,
    Encrypt,
    Decrypt,
}

// Where the piece of a text that starts at a place ends: a block further, or at the text's end.
fn end_of(length: usize, at: usize, rate: usize) -> usize
    requires { at ≤ length }
    ensures { result ≡ min (at + rate) length }
{
    at + rate.min(length - at)
}

// How much has been given out where a text was passed up to a place: of associated data nothing is.
fn given(way: Way, at: usize) -> usize
    ensures { result ≡ given way at }
{
    match way {
        Way::Absorb => 0,
        Way::Encrypt => at,
        Way::Decrypt => at,
    }
}

// The cipher at an instance whose sizes fit together.
#[derive(Clone, Copy)]
pub struct Cipher {
    pub z: Instance,
    ghost fits: { Fitting z } by { Prim.hlevel props },
}

impl Cipher {
    // Half the rounds, as after each block.
    fn half(self, s: State) -> State
        ensures { told self.z.state result ≡ half (told self.z.state s) }
    {
        gage_planes::permuted(s, self.z.state, ROUNDS / 2)
    }

    // A block XORed into the state, for the associated data and for both texts: its first bytes, as many as the rate has.
    fn mix_block(self, s: State, b: [u8; LARGEST_RATE]) -> State
        ensures { MixedIn (take self.z.rate b) s result }
    {
        let rate = self.z.rate;
        gage_weave::mix(s, &b[0..rate])
    }

    // Step 4 of absorbing, for one piece p of the associated data: its block is XORed in.
    fn absorb_piece(self, s: State, p: &[u8]) -> State
        ensures { told self.z.state result ≡ xored (marked_block self.z.rate p.now) (told self.z.state s) }
    {
        self.mix_block(s, ingage_steps::associated_block(self.z.rate, p))
    }

    // Steps 3 and 4 of encrypting, for one piece p of the message: its ciphertext fills out, and the piece, padded, is XORed in. The piece is
    // shorter than a block only where the message ends, so that out never needs room for the padding.
    fn encrypt_piece(self, s: State, p: &[u8], out: &mut [u8]) -> State
        requires { (length p.now ≤ self.z.rate) × (length out.old ≡ length p.now) }
        ensures state { told self.z.state result ≡ xored (take self.z.rate (last_block p.now)) (told self.z.state s) }
        ensures text { out.new ≡ masked p.now (told self.z.state s) }
    {
        let x = self.mix_block(s, gage_sponge::last_block(p));
        gage_weave::tell(x, out);
        x
    }

    // The same for one piece c of the ciphertext: its piece of the message fills out, and is then padded and XORed in from there, as in sealing.
    fn decrypt_piece(self, s: State, c: &[u8], out: &mut [u8]) -> State
        requires { (length c.now ≤ self.z.rate) × (length out.old ≡ length c.now) }
        ensures state { told self.z.state result ≡ xored (take self.z.rate (last_block (masked c.now (told self.z.state s)))) (told self.z.state s) }
        ensures text { out.new ≡ masked c.now (told self.z.state s) }
    {
        let m = gage_weave::mix(s, c);
        gage_weave::tell(m, out);
        self.mix_block(s, gage_sponge::last_block(out))
    }

    // One piece of a text, XORed in the way its text goes.
    fn mix_piece(self, s: State, way: Way, p: &[u8], out: &mut [u8]) -> State
        requires { (length p.now ≤ self.z.rate) × (length out.old ≡ given way (length p.now)) }
        ensures state { told self.z.state result ≡ xored (piece_block way self.z.rate p.now (told self.z.state s)) (told self.z.state s) }
        ensures text { out.new ≡ piece_text way p.now (told self.z.state s) }
    {
        match way {
            Way::Absorb => self.absorb_piece(s, p),
            Way::Encrypt => self.encrypt_piece(s, p, out),
            Way::Decrypt => self.decrypt_piece(s, p, out),
        }
    }

    // The same, and the permutation after it: the one place where half the rounds run.
    fn pass_piece(self, s: State, way: Way, p: &[u8], out: &mut [u8]) -> State
        requires { (length p.now ≤ self.z.rate) × (length out.old ≡ given way (length p.now)) }
        ensures state { told self.z.state result ≡ (passed (piece_block way self.z.rate p.now (told self.z.state s)) (from (told self.z.state s))).state }
        ensures text { out.new ≡ piece_text way p.now (told self.z.state s) }
    {
        self.half(self.mix_piece(s, way, p, out))
    }

    // A text passed block by block, the associated data, a message or a ciphertext: what is given out goes over the start of out.
    pub fn pass(self, s: State, way: Way, text: &[u8], out: &mut [u8]) -> State
        requires { given way (length text.now) ≤ length out.old }
        ensures state { told self.z.state result ≡ (flow way self.z (from (told self.z.state s)) text.now
            (block_count self.z.rate text.now)).run.state }
        ensures text { out.new ≡ over (flow way self.z (from (told self.z.state s)) text.now (block_count self.z.rate text.now)).text
            out.old }
    {
        let rate = self.z.rate;
        let count = text.len() / rate + 1;
        let mut r = s;
        for i in 0..count {
            let at = i * rate;
            let end = end_of(text.len(), at, rate);
            let from = given(way, at);
            let to = given(way, end);
            let next = self.pass_piece(r, way, &text[at..end], &mut out[from..to]);
            r = next;
        }
        r
    }

    // 'Absorb associated data A'.
    fn absorb(self, s: State, assoc: &[u8]) -> State
        ensures { told self.z.state result ≡ (absorbed self.z (from (told self.z.state s)) assoc.now).state }
    {
        let mut nothing = [0u8; 0];
        let r = self.pass(s, Way::Absorb, assoc, &mut nothing);
        ingage_steps::after_associated(r, self.z.state)
    }

    // The first bytes of an array woven, as many as the instance's state has.
    fn woven(self, s: [u8; LARGEST]) -> State
        ensures { told self.z.state result ≡ take self.z.state s }
    {
        let n = self.z.state;
        let bytes = s;
        gage_weave::weave(&bytes[0..n])
    }

    // The state when the message comes: 'Initialize state S', then the associated data.
    pub fn begin(self, key: &[u8], nonce: &[u8], assoc: &[u8]) -> State
        requires { (length key.now ≡ self.z.key) × (length nonce.now ≡ self.z.nonce) }
        ensures { told self.z.state result ≡ (begun self.z key.now nonce.now assoc.now).state }
    {
        self.absorb(self.woven(ingage_steps::start(self.z, key, nonce)), assoc)
    }

    // The step before 'Finalization', and its step 1: the bytes of the finished state, and some behind them that mean nothing.
    pub fn finish(self, s: State) -> [u8; LARGEST]
        ensures { take self.z.state result ≡ (finished (from (told self.z.state s))).state }
    {
        let f = ingage_steps::finish(s, self.z.state);
        let mut out = [0u8; LARGEST];
        gage_weave::tell(f, &mut out);
        out
    }

    // 'Finalization', step 2: the part of a finished state that is the seal.
    pub fn seal_of(self, s: &[u8]) -> &[u8]
        requires { self.z.state ≤ length s.now }
        ensures { result.now ≡ seal_of self.z (take self.z.state s.now) }
    {
        let from = self.z.rate;
        let to = from + self.z.seal;
        &s[from..to]
    }
}
