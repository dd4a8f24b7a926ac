// The writers of both editions. The promises cite specs/Answers.antt and the definitions of `frame_write`.
ghost use Rattle.std.specs.Prelude.{◌≡◌, []};
ghost use Rattle.line_layout.specs.Layouts.{layout_of};
ghost use Rattle.frame_body.specs.declared.Edition.TheVariants.{One, Two};
ghost use Rattle.frame_body.specs.Fields.{own_of};
ghost use Rattle.frame_spec.specs.Told.{told};
ghost use Rattle.frame_write.specs.Answers.{write_call};
ghost use Rattle.lubdhvani.specs.Answers.{written};

use crate::answers::field;
use frame_write::{FrameRefusal, Written, write_count, write_length, write_number};
use line_layout::layout_of;

// A number, the frame's length, and the count of the calls of the permutation.
#[repr(C)]
#[derive(Clone, Copy)]
pub struct Framed {
    pub number: usize,
    pub length: usize,
    pub calls: usize,
}

// Those of what a writer answers.
fn framed_of(answer: Result<Written, FrameRefusal>) -> Framed
    ensures { result ≡ written answer }
{
    Framed {
        number: field(write_number(answer)),
        length: write_length(answer),
        calls: write_count(answer),
    }
}

// Writes the frame of a line in edition one.
pub fn lubdhvani_write(
    key: &[u8],
    nonce: &[u8],
    font: &[u8],
    layout: usize,
    line: &[u8],
    frame: &mut [u8],
) -> Framed
    ensures value { result ≡ written (write_call (told key.now font.now (layout_of layout)) (own_of One nonce.now [])
        line.now frame.old).answer }
    ensures frame_after { frame.new ≡ (write_call (told key.now font.now (layout_of layout)) (own_of One nonce.now [])
        line.now frame.old).frame }
{
    framed_of(frame_write::write(key, nonce, font, layout_of(layout), line, frame))
}

// Writes the frame of a line in edition two, with its job.
pub fn lubdhvani_write_two(
    key: &[u8],
    nonce: &[u8],
    font: &[u8],
    layout: usize,
    job: &[u8],
    line: &[u8],
    frame: &mut [u8],
) -> Framed
    ensures value { result ≡ written (write_call (told key.now font.now (layout_of layout))
        (own_of Two nonce.now job.now) line.now frame.old).answer }
    ensures frame_after { frame.new ≡ (write_call (told key.now font.now (layout_of layout))
        (own_of Two nonce.now job.now) line.now frame.old).frame }
{
    framed_of(frame_write::write_two(key, nonce, font, layout_of(layout), job, line, frame))
}
