// How many stretches stand in a stream from a place on (order W10): counted without judging any. The promise cites specs/Counted.antt.
#![tactic(auto)]

ghost use Rattle.std.specs.Prelude.{◌≡◌};
ghost use Rattle.index_count.specs.Counted.{stretches_from};

use read_stretch::next_span;

// The stretches that open at the place from or later. A stream of any length, a place of any size.
pub fn stretches_from(stream: &[u8], from: usize) -> usize
    ensures { result ≡ stretches_from stream.now from }
{
    let mut n: usize = 0;
    let mut at = from;
    // A `while`: where a stretch closes decides where the next one is looked for, so no range and no part of the stream is gone through in order.
    while at < stream.len() {
        let span = next_span(stream, at);
        if span.first == span.closing {
            return n;
        }
        n += 1;
        at = span.closing;
    }
    n
}
