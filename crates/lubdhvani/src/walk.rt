// A walker (document 01, 'A frame and a stream'): a small struct of the caller's that holds the stream and the place reached, thin over the read call.
// Its steps are readings from the place reached; it then stands where the reading ends. The promises cite specs/Steps.antt.
ghost use Rattle.std.specs.Prelude.{◌≡◌};
ghost use Rattle.line_layout.specs.Layouts.{layout_of};
ghost use Rattle.frame_spec.specs.Told.{told};
ghost use Rattle.read_call.specs.Answers.{read_answer, read_out};
ghost use Rattle.lubdhvani.specs.Readings.{asked_of, reading_out};
ghost use Rattle.lubdhvani.specs.Steps.{step_out};

use crate::read::{Asked, Reading, lubdhvani_read};

// C makes it of a pointer, a length and a place.
#[repr(C)]
#[derive(Drop)]
pub struct Walker<'a> {
    stream: &'a [u8],
    at: usize,
}

// What one step comes to: the reading, and the place where the walker then stands.
#[derive(Clone, Copy)]
pub struct Step {
    pub reading: Reading,
    pub at: usize,
}

// A step from a place of a stream, over plain arguments.
fn one_step(
    stream: &[u8],
    at: usize,
    key: &[u8],
    font: &[u8],
    asked: Asked,
    line: &mut [u8],
) -> Step
    ensures value { result ≡ step_out (told key.now font.now (layout_of asked.layout)) (asked_of asked) stream.now at
        line.old }
    ensures line_after { line.new ≡ read_out (told key.now font.now (layout_of asked.layout)) (asked_of asked) stream.now
        at line.old }
{
    let reading = lubdhvani_read(stream, at, key, font, asked, line);
    Step {
        reading,
        at: reading.closing,
    }
}

// What the read call answers from the place reached, with the same line buffer; the walker goes to where that reading ends.
pub fn lubdhvani_next<'s, 'a, 'b, 'c, 'd>(
    walker: &'s mut Walker<'a>,
    key: &'b [u8],
    font: &'c [u8],
    asked: Asked,
    line: &'d mut [u8],
) -> Reading
    ensures { (result ≡ reading_out (read_answer (told key.now font.now (layout_of asked.layout)) (asked_of asked)
        walker.old.stream.now walker.old.at line.old))
        × (line.new ≡ read_out (told key.now font.now (layout_of asked.layout)) (asked_of asked)
        walker.old.stream.now walker.old.at line.old) × (walker.new.stream ≡ walker.old.stream)
        × (walker.new.at ≡ result.closing) }
{
    let s = one_step(walker.stream, walker.at, key, font, asked, line);
    walker.at = s.at;
    s.reading
}
