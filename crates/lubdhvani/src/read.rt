// Stretches and their reading. The promises cite specs/Readings.antt and the definitions of `read_stretch` and `read_call`.
ghost use Rattle.std.specs.Prelude.{◌≡◌};
ghost use Rattle.line_layout.specs.Layouts.{layout_of};
ghost use Rattle.frame_spec.specs.Told.{told};
ghost use Rattle.read_stretch.specs.Stretches.{next_span};
ghost use Rattle.read_call.specs.Answers.{read_answer, read_out};
ghost use Rattle.lubdhvani.specs.Readings.{asked_of, reading_out, span_out};

use crate::answers::field;
use line_layout::layout_of;
use read_numbers::numbers;

// The places of a stretch's first byte and of its closing mark.
#[repr(C)]
#[derive(Clone, Copy)]
pub struct Span {
    pub first: usize,
    pub closing: usize,
}

// The places of the next stretch.
pub fn lubdhvani_next_stretch(stream: &[u8], from: usize) -> Span
    ensures { result ≡ span_out (next_span stream.now from) }
{
    let span = read_stretch::next_span(stream, from);
    Span {
        first: span.first,
        closing: span.closing,
    }
}

// What a reader is told anew at each call.
#[repr(C)]
#[derive(Clone, Copy)]
pub struct Asked {
    pub editions: usize,
    pub allowed: usize,
    pub layout: usize,
}

// What a reading comes to.
#[repr(C)]
#[derive(Clone, Copy)]
pub struct Reading {
    pub outcome: usize,
    pub number: usize,
    pub first: usize,
    pub closing: usize,
    pub length: usize,
    pub calls: usize,
    pub edition: usize,
    pub job: usize,
}

// What a reading answers, for C.
fn reading_of(reading: read_call::Reading) -> Reading
    ensures { result ≡ reading_out reading }
{
    let answer = reading.answer;
    let its = numbers(answer);
    Reading {
        outcome: field(its.outcome),
        number: field(its.number),
        first: reading.first,
        closing: reading.closing,
        length: its.length,
        calls: its.calls,
        edition: reading.edition,
        job: reading.job,
    }
}

// What is told anew, from C.
fn told_anew(asked: Asked) -> read_call::Asked
    ensures { result ≡ asked_of asked }
{
    read_call::Asked {
        editions: asked.editions,
        allowed: asked.allowed,
        layout: layout_of(asked.layout),
    }
}

// Judges the next stretch from a place, and gives out its line.
pub fn lubdhvani_read(
    stream: &[u8],
    from: usize,
    key: &[u8],
    font: &[u8],
    asked: Asked,
    line: &mut [u8],
) -> Reading
    ensures value { result ≡ reading_out (read_answer (told key.now font.now (layout_of asked.layout)) (asked_of asked) stream.now
        from line.old) }
    ensures line_after { line.new ≡ read_out (told key.now font.now (layout_of asked.layout)) (asked_of asked) stream.now
        from line.old }
{
    reading_of(read_call::read(stream, from, key, font, told_anew(asked), line))
}
