// The converter, both ways.
ghost use Rattle.std.specs.Prelude.{◌≡◌, []};
ghost use Rattle.line_layout.specs.Layouts.{layout_of};
ghost use Rattle.frame_body.specs.declared.Edition.TheVariants.{One, Two};
ghost use Rattle.frame_body.specs.Fields.{own_of};
ghost use Rattle.frame_spec.specs.Told.{told};
ghost use Rattle.convert_spec.specs.Answers.{convert_call};
ghost use Rattle.lubdhvani.specs.Answers.{converted};

use lubdhvani::answers::Measured;

// Seals the line of a stretch of edition two anew in edition one.
#[unsafe(no_mangle)]
pub extern "C" fn lubdhvani_to_one(
    stretch: &[u8],
    key: &[u8],
    font: &[u8],
    layout: usize,
    nonce: &[u8],
    frame: &mut [u8],
) -> Measured
    ensures value { result ≡ converted (convert_call (told key.now font.now (layout_of layout)) (own_of One nonce.now [])
        stretch.now frame.old).answer }
    ensures frame_after { frame.new ≡ (convert_call (told key.now font.now (layout_of layout)) (own_of One nonce.now [])
        stretch.now frame.old).frame }
{
    lubdhvani::convert::lubdhvani_to_one(stretch, key, font, layout, nonce, frame)
}

// Seals the line of a stretch of edition one anew in edition two, with a job.
#[unsafe(no_mangle)]
pub extern "C" fn lubdhvani_to_two(
    stretch: &[u8],
    key: &[u8],
    font: &[u8],
    layout: usize,
    nonce: &[u8],
    job: &[u8],
    frame: &mut [u8],
) -> Measured
    ensures value { result ≡ converted (convert_call (told key.now font.now (layout_of layout))
        (own_of Two nonce.now job.now) stretch.now frame.old).answer }
    ensures frame_after { frame.new ≡ (convert_call (told key.now font.now (layout_of layout))
        (own_of Two nonce.now job.now) stretch.now frame.old).frame }
{
    lubdhvani::convert::lubdhvani_to_two(stretch, key, font, layout, nonce, job, frame)
}
