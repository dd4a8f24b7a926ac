// A walker (document 01, 'A frame and a stream'): a small struct that holds the stream and the place reached, thin over the read call.
// `next` reads and moves in one: its reading is that of `read` from the place reached, and the walker then stands where that reading
// ends. What moves it is its own reading, of its own stream. The promises cite specs/Steps.antt.
#![tactic(auto)]

ghost use Rattle.std.specs.Prelude.{◌≡◌};
ghost use Rattle.frame_spec.specs.Told.{told};
ghost use Rattle.read_call.specs.Answers.{read_answer, read_out};
ghost use Rattle.read_walk.specs.Steps.{step_of};

use read_call::{Asked, Reading, read};

#[derive(Drop)]
pub struct Walker<'a> {
    stream: &'a [u8],
    at: usize,
}

// What one step comes to: the reading, and the place where the walker then stands.
#[derive(Clone, Copy)]
pub struct Step {
    pub reading: Reading,
    pub at: usize,
}

// A step from a place of a stream: at the closing mark that the reading names, at the stream's length at the end, and where it was if
// the call was refused. All that a walker does, over plain arguments.
fn one_step(
    stream: &[u8],
    at: usize,
    key: &[u8],
    font: &[u8],
    asked: Asked,
    line: &mut [u8],
) -> Step
    ensures value { result ≡ step_of (told key.now font.now asked.layout) asked stream.now at line.old }
    ensures line_after { line.new ≡ read_out (told key.now font.now asked.layout) asked stream.now at
        line.old }
{
    let reading = read(stream, at, key, font, asked, line);
    Step {
        reading,
        at: reading.closing,
    }
}

// A walker at the stream's start.
pub fn new<'a>(stream: &'a [u8]) -> Walker<'a>
    ensures { (result.stream ≡ stream.entry) × (result.at ≡ 0) }
{
    Walker { stream, at: 0 }
}

// Where it stands.
pub fn place<'a>(w: Walker<'a>) -> usize
    ensures { result ≡ w.entry.at }
{
    w.at
}

// What the read call answers from the place reached, with the same line buffer; the walker goes to where that reading ends.
pub fn next<'s, 'a, 'b, 'c, 'd>(
    w: &'s mut Walker<'a>,
    key: &'b [u8],
    font: &'c [u8],
    asked: Asked,
    line: &'d mut [u8],
) -> Reading
    ensures { (result ≡ read_answer (told key.now font.now asked.layout) asked w.old.stream.now w.old.at
        line.old) × (line.new ≡ read_out (told key.now font.now asked.layout) asked w.old.stream.now
        w.old.at line.old) × (w.new.stream ≡ w.old.stream) × (w.new.at ≡ result.closing) }
{
    let s = one_step(w.stream, w.at, key, font, asked, line);
    w.at = s.at;
    s.reading
}

// From a slice to a walker and back, for a caller that keeps the place itself: one step of a walker that stands there.
pub fn walked(
    stream: &[u8],
    from: usize,
    key: &[u8],
    font: &[u8],
    asked: Asked,
    line: &mut [u8],
) -> Step
    ensures { (result ≡ step_of (told key.now font.now asked.layout) asked stream.now from line.old) ×
        (line.new ≡ read_out (told key.now font.now asked.layout) asked stream.now from line.old) }
{
    let mut w = Walker { stream, at: from };
    let reading = next(&mut w, key, font, asked, line);
    Step { reading, at: w.at }
}
