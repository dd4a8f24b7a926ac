// What GAGE's digest and InGAGE's cipher share: a block XORed into a state by value, and the last block of a message, padded.
// The promises cite specs/Padding.antt and specs/Absorbing.antt.
#![tactic(auto)]

ghost use Rattle.std.specs.Prelude.{◌≡◌};
ghost use Rattle.gage_sponge.specs.Absorbing.{xored};
ghost use Rattle.gage_sponge.specs.Padding.{last_block};

use gage_spec::LARGEST;

// The largest rate in bytes (document 000, Table 1.4).
pub const LARGEST_RATE: usize = 16;
// The byte behind a message (document 000, Algorithm 3).
const STOP: u8 = 0x80;

// The state with a block XORed into its first bytes.
pub fn mix(s: [u8; LARGEST], block: &[u8]) -> [u8; LARGEST]
    ensures { result ≡ xored block.now s }
{
    let mut out = s;
    for i in 0..block.len().min(LARGEST) {
        out[i] ^= block[i];
    }
    out
}

// What is left of a message behind its whole blocks, at most 15 bytes of it, then 0x80, then zeros.
// Its first R bytes are the message's last block at a rate of R bytes.
pub fn last_block(rest: &[u8]) -> [u8; LARGEST_RATE]
    ensures { result ≡ last_block rest.now }
{
    let mut out = [0u8; LARGEST_RATE];
    base_lists::copy(rest, &mut out);
    out[rest.len().min(LARGEST_RATE - 1)] = STOP;
    out
}
