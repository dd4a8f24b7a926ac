// The nonces that accepting a stream has seen (order W12), as numbers: the first eight bytes of each in one list and the last four in another, so that
// one comparison of two numbers takes the place of twelve of bytes. The promises cite specs/Words.antt and specs/Seen.antt.
#![tactic(auto)]

ghost use Rattle.std.specs.Prelude.{◌≡◌};
ghost use Rattle.accept_nonces.specs.Words.{words_of};
ghost use Rattle.accept_nonces.specs.Seen.{pair_at, pair_in};

use frame_body::NONCE_LENGTH;

// A nonce as two numbers, high byte first: its first eight bytes and its last four.
#[derive(Clone, Copy)]
pub struct Words {
    pub high: u64,
    pub low: u32,
}

// The numbers of a nonce.
pub fn words_of(n: [u8; NONCE_LENGTH]) -> Words
    ensures { result ≡ words_of n }
{
    Words {
        high: u64::from_be_bytes([n[0], n[1], n[2], n[3], n[4], n[5], n[6], n[7]]),
        low: u32::from_be_bytes([n[8], n[9], n[10], n[11]]),
    }
}

// Whether these numbers stand at place i of the two lists; past the end of either nothing does.
#[tactic(auto, unfolding(crate::specs::Seen::pair_at))]
fn is_at(highs: &[u64], lows: &[u32], i: usize, high: u64, low: u32) -> bool
    ensures { result ≡ pair_at highs.now lows.now high low i }
{
    highs.get(i) == Some(&high) && lows.get(i) == Some(&low)
}

// Whether they stand at one of the first n places.
pub fn met(highs: &[u64], lows: &[u32], n: usize, high: u64, low: u32) -> bool
    ensures { result ≡ pair_in highs.now lows.now high low 0 n }
{
    (0..n).any(|i| is_at(highs, lows, i, high, low))
}
