// Accepting a bureau's stream (order W12): yes exactly when each stretch reads as a line and no nonce occurs in two of them, else the first stretch at
// fault. The promises cite accept_spec/specs/Accepting.antt. Nothing is lent: the nonces seen stand in memory of the call's own.
#![tactic(auto)]

ghost use Rattle.std.specs.Prelude.{◌≡◌, [], ◌≤◌, length};
ghost use Rattle.frame_spec.specs.Told.{told};
ghost use Rattle.read_spec.specs.Judged.{number_in};
ghost use Rattle.read_spec.specs.Judging.{judge};
ghost use Rattle.read_spec.specs.Sizes.{Sizes};
ghost use Rattle.read_nonce.specs.Nonces.{nonce_of};
ghost use Rattle.accept_nonces.specs.Words.{words_of};
ghost use Rattle.accept_spec.specs.Accepting.{most_stretches, refused, stretches_in, read_all, accept_from, accept_answer, accept_number};

use accept_nonces::{Words, met, words_of};
use accept_spec::{AcceptFault, Accepted};
use frame_body::{DIGEST_LENGTH, LONGEST_LINE};
use frame_spec::KEY_LENGTH;
use index_count::stretches_from;
use line_layout::Layout;
use read_call::{ALL_WORK, Asked, LONGEST_STREAM, judge};
use read_nonce::nonce_of;
use read_numbers::read_number;
use read_stretch::next_span;

// The most stretches of a stream that is accepted.
pub const MOST_STRETCHES: usize = 512;

// The call is refused.
fn refused_with(answer: Result<(), AcceptFault>) -> Accepted
    ensures { result ≡ refused answer }
{
    Accepted {
        first: 0,
        closing: 0,
        answer,
    }
}

// The reader's number of a stretch, with all the work allowed: 0 for a line.
fn number_in(stretch: &[u8], key: &[u8], font: &[u8], editions: usize, layout: Layout) -> u32
    requires { Sizes (told key.now font.now layout) }
    ensures { result ≡ number_in (judge (told key.now font.now layout) editions stretch.now) }
{
    let mut line = [0u8; LONGEST_LINE];
    let asked = Asked {
        editions,
        allowed: ALL_WORK,
        layout,
    };
    let verdict = judge(stretch, key, font, asked, &mut line);
    let answer = verdict.answer;
    read_number(answer)
}

// The nonce of a stretch as numbers.
fn words_in(stretch: &[u8]) -> Words
    ensures { result ≡ words_of (nonce_of stretch.now) }
{
    let nonce = nonce_of(stretch);
    let bytes = nonce.bytes;
    words_of(bytes)
}

// Judges the stretches of a stream, as many as were counted, one after the other; each is judged once.
fn accept_all(
    stream: &[u8],
    counted: usize,
    key: &[u8],
    font: &[u8],
    editions: usize,
    layout: Layout,
) -> Accepted
    requires counted_value { (counted ≡ stretches_in stream.now) × (counted ≤ most_stretches) }
    requires sizes { Sizes (told key.now font.now layout) }
    ensures { result ≡ accept_from stream.now [] (read_all (told key.now font.now layout) editions stream.now) }
{
    let mut highs = [0u64; MOST_STRETCHES];
    let mut lows = [0u32; MOST_STRETCHES];
    let mut at = 0;
    for n in 0..counted {
        let span = next_span(stream, at);
        let first = span.first;
        let closing = span.closing;
        let stretch = &stream[first..closing];
        let number = number_in(stretch, key, font, editions, layout);
        if number != 0 {
            let answer = Err(AcceptFault::Refused(number));
            return Accepted {
                first,
                closing,
                answer,
            };
        }
        let words = words_in(stretch);
        if met(&highs, &lows, n, words.high, words.low) {
            let answer = Err(AcceptFault::Repeated);
            return Accepted {
                first,
                closing,
                answer,
            };
        }
        highs[n] = words.high;
        lows[n] = words.low;
        at = closing;
    }
    let end = stream.len();
    let answer = Ok(());
    Accepted {
        first: end,
        closing: end,
        answer,
    }
}

// Tells yes, or the first stretch at fault with its number; stretches are counted before any is read.
pub fn accept(stream: &[u8], key: &[u8], font: &[u8], editions: usize, layout: Layout) -> Accepted
    ensures { result ≡ accept_answer (told key.now font.now layout) editions stream.now }
{
    if key.len() != KEY_LENGTH {
        return refused_with(Err(AcceptFault::Sizes));
    }
    if font.len() != DIGEST_LENGTH {
        return refused_with(Err(AcceptFault::Sizes));
    }
    if stream.len() > LONGEST_STREAM {
        return refused_with(Err(AcceptFault::TooLong));
    }
    let counted = stretches_from(stream, 0);
    if counted > MOST_STRETCHES {
        return refused_with(Err(AcceptFault::TooMany));
    }
    accept_all(stream, counted, key, font, editions, layout)
}

// The number of what accepting answers.
pub fn accept_number(answer: Result<(), AcceptFault>) -> u32
    ensures { result ≡ accept_number answer }
{
    match answer {
        Ok(()) => 0,
        Err(AcceptFault::Sizes) => 2,
        Err(AcceptFault::TooLong) => 3,
        Err(AcceptFault::TooMany) => 19,
        Err(AcceptFault::Refused(number)) => number,
        Err(AcceptFault::Repeated) => 22,
    }
}
