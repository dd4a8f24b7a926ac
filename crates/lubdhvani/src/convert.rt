// The converter, both ways. The promises cite specs/Answers.antt and the definitions of `convert_spec`.
ghost use Rattle.std.specs.Prelude.{◌≡◌, []};
ghost use Rattle.line_layout.specs.Layouts.{layout_of};
ghost use Rattle.frame_body.specs.declared.Edition.TheVariants.{One, Two};
ghost use Rattle.frame_body.specs.Fields.{own_of};
ghost use Rattle.frame_spec.specs.Told.{told};
ghost use Rattle.convert_spec.specs.Answers.{convert_call};
ghost use Rattle.lubdhvani.specs.Answers.{converted};

use crate::answers::{Measured, field};
use convert_spec::ConvertFault;
use line_layout::layout_of;

// The number and the length of what the converter answers.
fn measured(answer: Result<usize, ConvertFault>) -> Measured
    ensures { result ≡ converted answer }
{
    Measured {
        number: field(convert_call::number(answer)),
        length: convert_call::frame_length(answer),
    }
}

// Seals the line of a stretch of edition two anew in edition one.
pub fn lubdhvani_to_one(
    stretch: &[u8],
    key: &[u8],
    font: &[u8],
    layout: usize,
    nonce: &[u8],
    frame: &mut [u8],
) -> Measured
    ensures value { result ≡ converted (convert_call (told key.now font.now (layout_of layout)) (own_of One nonce.now [])
        stretch.now frame.old).answer }
    ensures frame_after { frame.new ≡ (convert_call (told key.now font.now (layout_of layout)) (own_of One nonce.now [])
        stretch.now frame.old).frame }
{
    measured(convert_call::to_one(stretch, key, font, layout_of(layout), nonce, frame))
}

// Seals the line of a stretch of edition one anew in edition two, with a job.
pub fn lubdhvani_to_two(
    stretch: &[u8],
    key: &[u8],
    font: &[u8],
    layout: usize,
    nonce: &[u8],
    job: &[u8],
    frame: &mut [u8],
) -> Measured
    ensures value { result ≡ converted (convert_call (told key.now font.now (layout_of layout))
        (own_of Two nonce.now job.now) stretch.now frame.old).answer }
    ensures frame_after { frame.new ≡ (convert_call (told key.now font.now (layout_of layout))
        (own_of Two nonce.now job.now) stretch.now frame.old).frame }
{
    measured(convert_call::to_two(stretch, key, font, layout_of(layout), nonce, job, frame))
}
