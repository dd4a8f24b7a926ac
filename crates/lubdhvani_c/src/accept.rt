// Accepting a bureau's stream, and the nonce of a stretch.
ghost use Rattle.std.specs.Prelude.{◌≡◌};
ghost use Rattle.line_layout.specs.Layouts.{layout_of};
ghost use Rattle.frame_spec.specs.Told.{told};
ghost use Rattle.read_nonce.specs.Nonces.{nonce_answer};
ghost use Rattle.accept_spec.specs.Accepting.{accept_answer};
ghost use Rattle.lubdhvani.specs.Accepting.{accepted_out};

use lubdhvani::accept::Accepted;
use read_nonce::Nonce;

// Tells yes, or the first stretch at fault with its number.
#[unsafe(no_mangle)]
pub extern "C" fn lubdhvani_accept(
    stream: &[u8],
    key: &[u8],
    font: &[u8],
    editions: usize,
    layout: usize,
) -> Accepted
    ensures { result ≡ accepted_out (accept_answer (told key.now font.now (layout_of layout)) editions stream.now) }
{
    lubdhvani::accept::lubdhvani_accept(stream, key, font, editions, layout)
}

// The nonce of a stretch, and whether there is one.
#[unsafe(no_mangle)]
pub extern "C" fn lubdhvani_nonce(stretch: &[u8]) -> Nonce
    ensures { result ≡ nonce_answer stretch.now }
{
    lubdhvani::accept::lubdhvani_nonce(stretch)
}
