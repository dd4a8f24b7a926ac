// The next stretch of a stream (document 01, 'A frame and a stream'): its places, and the stretch itself as a part of the lent stream.
// Streams of any length, places of any size. The promises cite specs/Stretches.antt; specs/Meaning.antt says what they mean.
#![tactic(auto)]

ghost use Rattle.std.specs.Prelude.{◌≡◌, ◌+◌, ◌≤◌, ◌<◌, length, get_or, drop};
ghost use Rattle.read_stretch.specs.Stretches.{SaysMark, after_mark, next_span, next_stretch};

use frame_stuff_spec::MARK;

// Where a stretch stands: the place of its first byte and that of its closing mark. At the end of the stream both are its length.
#[derive(Clone, Copy)]
pub struct Span {
    pub first: usize,
    pub closing: usize,
}

// Whether a mark stands at place i: the byte there decides, whatever stands before it.
fn mark_at(stream: &[u8], i: usize) -> bool
    requires { i < length stream.now }
    ensures { SaysMark result (get_or stream.now i 0) }
{
    stream[i] == MARK
}

// The first stretch that opens with the mark just before the place from, or with a later one.
#[tactic(auto, using(crate::proofs::Looking::steps))]
fn span_after(stream: &[u8], from: usize) -> Span
    requires { from ≤ length stream.now }
    ensures { result ≡ after_mark from from (drop from stream.now) }
{
    let end = stream.len();
    let mut first = from;
    for i in from..end {
        if mark_at(stream, i) {
            if first < i {
                return Span { first, closing: i };
            }
            first = i + 1;
        }
    }
    Span {
        first: end,
        closing: end,
    }
}

// The places of the next stretch: the first whose opening mark stands at the place from or later.
#[tactic(auto, using(crate::proofs::Looking::steps))]
pub fn next_span(stream: &[u8], from: usize) -> Span
    ensures { result ≡ next_span stream.now from }
{
    let end = stream.len();
    for i in from..end {
        if mark_at(stream, i) {
            return span_after(stream, i + 1);
        }
    }
    Span {
        first: end,
        closing: end,
    }
}

// The next stretch itself, a part of the caller's stream: its bytes and where it stands. If there is none, the empty part at the end.
#[tactic(auto, using(crate::proofs::Looking::within), unfolding(crate::specs::Stretches::next_stretch))]
pub fn next_stretch(stream: &[u8], from: usize) -> &[u8]
    ensures result_value { result.now ≡ next_stretch stream.now from }
    ensures ref_ptr_value { result.ref_ptr ≡ (stream.entry.ref_ptr.0, (next_span stream.now from).first + stream.entry.ref_ptr.1) }
{
    let span = next_span(stream, from);
    &stream[span.first..span.closing]
}
