// Accepting a bureau's stream, and the nonce of a stretch. The promises cite specs/Accepting.antt and the definitions of `accept_spec` and `read_nonce`.
ghost use Rattle.std.specs.Prelude.{◌≡◌};
ghost use Rattle.line_layout.specs.Layouts.{layout_of};
ghost use Rattle.frame_spec.specs.Told.{told};
ghost use Rattle.read_nonce.specs.Nonces.{nonce_answer};
ghost use Rattle.accept_spec.specs.Accepting.{accept_answer};
ghost use Rattle.lubdhvani.specs.Accepting.{accepted_out};

use crate::answers::field;
use accept_call::{accept, accept_number};
use line_layout::layout_of;
use read_nonce::{Nonce, nonce_of};

// What accepting a stream comes to.
#[repr(C)]
#[derive(Clone, Copy)]
pub struct Accepted {
    pub number: usize,
    pub first: usize,
    pub closing: usize,
}

// What accepting answers, for C.
fn accepted_of(accepted: accept_spec::Accepted) -> Accepted
    ensures { result ≡ accepted_out accepted }
{
    let answer = accepted.answer;
    Accepted {
        number: field(accept_number(answer)),
        first: accepted.first,
        closing: accepted.closing,
    }
}

// Tells yes, or the first stretch at fault with its number.
pub fn lubdhvani_accept(
    stream: &[u8],
    key: &[u8],
    font: &[u8],
    editions: usize,
    layout: usize,
) -> Accepted
    ensures { result ≡ accepted_out (accept_answer (told key.now font.now (layout_of layout)) editions stream.now) }
{
    accepted_of(accept(stream, key, font, editions, layout_of(layout)))
}

// The nonce of a stretch, and whether there is one.
pub fn lubdhvani_nonce(stretch: &[u8]) -> Nonce
    ensures { result ≡ nonce_answer stretch.now }
{
    nonce_of(stretch)
}
