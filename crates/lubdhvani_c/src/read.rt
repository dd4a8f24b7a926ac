// Stretches and their reading.
ghost use Rattle.std.specs.Prelude.{◌≡◌};
ghost use Rattle.line_layout.specs.Layouts.{layout_of};
ghost use Rattle.frame_spec.specs.Told.{told};
ghost use Rattle.read_stretch.specs.Stretches.{next_span};
ghost use Rattle.read_call.specs.Answers.{read_answer, read_out};
ghost use Rattle.lubdhvani.specs.Readings.{asked_of, reading_out, span_out};

use lubdhvani::read::{Asked, Reading, Span};

// The places of the next stretch.
#[unsafe(no_mangle)]
pub extern "C" fn lubdhvani_next_stretch(stream: &[u8], from: usize) -> Span
    ensures { result ≡ span_out (next_span stream.now from) }
{
    lubdhvani::read::lubdhvani_next_stretch(stream, from)
}

// Judges the next stretch from a place, and gives out its line.
#[unsafe(no_mangle)]
pub extern "C" fn lubdhvani_read(
    stream: &[u8],
    from: usize,
    key: &[u8],
    font: &[u8],
    asked: Asked,
    line: &mut [u8],
) -> Reading
    ensures value { result ≡ reading_out (read_answer (told key.now font.now (layout_of asked.layout)) (asked_of asked) stream.now
        from line.old) }
    ensures line_after { line.new ≡ read_out (told key.now font.now (layout_of asked.layout)) (asked_of asked) stream.now
        from line.old }
{
    lubdhvani::read::lubdhvani_read(stream, from, key, font, asked, line)
}
