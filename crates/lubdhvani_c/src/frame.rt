// The writers of both editions.
ghost use Rattle.std.specs.Prelude.{◌≡◌, []};
ghost use Rattle.line_layout.specs.Layouts.{layout_of};
ghost use Rattle.frame_body.specs.declared.Edition.TheVariants.{One, Two};
ghost use Rattle.frame_body.specs.Fields.{own_of};
ghost use Rattle.frame_spec.specs.Told.{told};
ghost use Rattle.frame_write.specs.Answers.{write_call};
ghost use Rattle.lubdhvani.specs.Answers.{written};

use lubdhvani::frame::Framed;

// Writes the frame of a line in edition one.
#[unsafe(no_mangle)]
pub extern "C" fn lubdhvani_write(
    key: &[u8],
    nonce: &[u8],
    font: &[u8],
    layout: usize,
    line: &[u8],
    frame: &mut [u8],
) -> Framed
    ensures value { result ≡ written (write_call (told key.now font.now (layout_of layout)) (own_of One nonce.now [])
        line.now frame.old).answer }
    ensures frame_after { frame.new ≡ (write_call (told key.now font.now (layout_of layout)) (own_of One nonce.now [])
        line.now frame.old).frame }
{
    lubdhvani::frame::lubdhvani_write(key, nonce, font, layout, line, frame)
}

// Writes the frame of a line in edition two, with its job.
#[unsafe(no_mangle)]
pub extern "C" fn lubdhvani_write_two(
    key: &[u8],
    nonce: &[u8],
    font: &[u8],
    layout: usize,
    job: &[u8],
    line: &[u8],
    frame: &mut [u8],
) -> Framed
    ensures value { result ≡ written (write_call (told key.now font.now (layout_of layout))
        (own_of Two nonce.now job.now) line.now frame.old).answer }
    ensures frame_after { frame.new ≡ (write_call (told key.now font.now (layout_of layout))
        (own_of Two nonce.now job.now) line.now frame.old).frame }
{
    lubdhvani::frame::lubdhvani_write_two(key, nonce, font, layout, job, line, frame)
}
