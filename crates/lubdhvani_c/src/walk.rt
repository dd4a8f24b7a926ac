// A walker's step.
ghost use Rattle.std.specs.Prelude.{◌≡◌};
ghost use Rattle.line_layout.specs.Layouts.{layout_of};
ghost use Rattle.frame_spec.specs.Told.{told};
ghost use Rattle.read_call.specs.Answers.{read_answer, read_out};
ghost use Rattle.lubdhvani.specs.Readings.{asked_of, reading_out};

use lubdhvani::read::{Asked, Reading};
use lubdhvani::walk::Walker;

// What the read call answers from the place reached, with the same line buffer; the walker goes to where that reading ends.
#[unsafe(no_mangle)]
pub extern "C" fn lubdhvani_next<'s, 'a, 'b, 'c, 'd>(
    walker: &'s mut Walker<'a>,
    key: &'b [u8],
    font: &'c [u8],
    asked: Asked,
    line: &'d mut [u8],
) -> Reading
    ensures { (result ≡ reading_out (read_answer (told key.now font.now (layout_of asked.layout)) (asked_of asked)
        walker.old.stream.now walker.old.at line.old))
        × (line.new ≡ read_out (told key.now font.now (layout_of asked.layout)) (asked_of asked)
        walker.old.stream.now walker.old.at line.old) × (walker.new.stream ≡ walker.old.stream)
        × (walker.new.at ≡ result.closing) }
{
    lubdhvani::walk::lubdhvani_next(walker, key, font, asked, line)
}
