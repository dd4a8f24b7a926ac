// The reader (document 01, 'A frame and a stream', and orders W6 and W7): judging a stretch and the read call.
// The promises cite specs/Answers.antt; the order in which a stretch is judged stands in read_spec/specs/Judging.antt.
#![tactic(auto)]

ghost use Rattle.std.specs.Prelude.{◌≡◌, ◌+◌, ◌≤◌, length};
ghost use Rattle.read_stretch.specs.Stretches.{span};
ghost use Rattle.line_spec.specs.Lines.{longest};
ghost use Rattle.frame_body.specs.Fields.{job_length, fields_of};
ghost use Rattle.frame_body.specs.Answers.{edition_number, judged};
ghost use Rattle.frame_body.specs.Job.{job_number};
ghost use Rattle.frame_body.specs.Places.{job_at};
ghost use Rattle.read_spec.specs.Editions.{among};
ghost use Rattle.read_spec.specs.Judged.{label};
ghost use Rattle.read_spec.specs.Judging.{judge_fields, held};
ghost use Rattle.read_spec.specs.Ceiling.{within};
ghost use Rattle.read_spec.specs.Sizes.{Sizes};
ghost use Rattle.frame_spec.specs.Told.{key_length, told};
ghost use Rattle.read_call.specs.Parts.{job_in, Parts, open_parts, judge_parts};
ghost use Rattle.read_call.specs.Answers.{plain, answer_to, barred_answer, stuffing_answer, verdict_on, verdict_of, judged_within, judge_answer, judge_out, line_over, reading_at, read_answer, read_out};

use frame_body::{
    ASSOCIATED_AT, ASSOCIATED_LENGTH, CIPHER_AT, DIGEST_AT, DIGEST_LENGTH, Edition, HEAD_LENGTH,
    HIGH_BYTE, JOB_AT, JOB_LENGTH, LONGEST_LINE, NONCE_AT, NONCE_LENGTH, SEAL_LENGTH,
    job_field_length, judge_body,
};
use frame_spec::{BESIDE_LINE, KEY_LENGTH};
use frame_stuff::unstuff;
use frame_stuff_spec::{LONGEST_STRETCH, UnstuffFault};
use line_layout::Layout;
use read_bar::{Bar, judge_asked};
use read_open::{OpenFault, open_line};
use read_stretch::next_span;

// The longest stream in bytes (document 01, number 3).
pub const LONGEST_STREAM: usize = 65536;

// All the work that a stretch can take, in calls of the permutation: that of the longest line, in edition two.
pub const ALL_WORK: usize = LONGEST_LINE + BESIDE_LINE + HEAD_LENGTH + JOB_LENGTH;

// What a reader is told anew at each call: which editions it allows, how many calls of the permutation one stretch is allowed, and which layout
// a line must have.
#[derive(Clone, Copy)]
pub struct Asked {
    // Two bits, 1 for edition one and 2 for edition two; other bits say nothing.
    pub editions: usize,
    pub allowed: usize,
    pub layout: Layout,
}

// The editions that a reader can allow.
pub const EDITION_ONE: usize = 1;

pub const EDITION_TWO: usize = 2;

pub const BOTH_EDITIONS: usize = 3;

// What is reported for edition and job where no line is given (order W6).
const NO_EDITION: usize = 0;

const NO_JOB: usize = 0;

// What one read call answers: the place of the stretch's first byte, that of its closing mark, where the next call starts, what is found there,
// and the edition and the job of a line that is given; both are 0 unless one is.
#[derive(Clone, Copy)]
pub struct Reading {
    pub first: usize,
    pub closing: usize,
    pub answer: Answer,
    pub edition: usize,
    pub job: usize,
}

// What a stretch is found to be, with the edition and the job of a line that is given.
#[derive(Clone, Copy)]
pub struct Verdict {
    pub answer: Answer,
    pub edition: usize,
    pub job: usize,
}

#[derive(Clone, Copy)]
pub enum Answer {
    // The call is refused: key or font digest not of their sizes, stream too long, line buffer too short, place beyond the end.
    // Both places are the place asked for.
    Sizes,
    TooLong,
    NoRoom,
    Beyond,
    // The end of the stream: both places are its length.
    End,
    // A stretch that is too long, or whose fields are not as they must be.
    Shape,
    // Bad stuffing.
    Stuffing,
    // Sealed to another font.
    Font,
    // Opening it takes more calls of the permutation than are allowed; none was made.
    Work,
    // The seal is not the one worked out; with the calls of the permutation made, as the next four.
    Seal(usize),
    // The line holds a byte that is not listed.
    Unlisted(usize),
    // The line's bytes are listed, but it is not the trade's line.
    Trade(usize),
    // It is the trade's line, but not of the layout named.
    Layout(usize),
    // A line of that length is given.
    Line { length: usize, calls: usize },
}

// The edition's number.
fn number_of(edition: Edition) -> usize
    ensures { result ≡ edition_number edition }
{
    match edition {
        Edition::One => EDITION_ONE,
        Edition::Two => EDITION_TWO,
    }
}

// The job of a body as a number, high byte first; 0 in edition one.
fn job_of(body: &[u8], edition: Edition) -> usize
    requires { job_at + job_length ≤ length body.now }
    ensures { result ≡ job_number (job_in edition body.now) }
{
    match edition {
        Edition::One => 0,
        Edition::Two => {
            let high = body[JOB_AT] as usize * HIGH_BYTE + body[JOB_AT + 1] as usize;
            let low = body[JOB_AT + 2] as usize * HIGH_BYTE + body[JOB_AT + 3] as usize;
            high * HIGH_BYTE * HIGH_BYTE + low
        }
    }
}

// A refusal, which has no edition and no job.
fn refused(answer: Answer) -> Verdict
    ensures { result ≡ plain answer }
{
    Verdict {
        answer,
        edition: NO_EDITION,
        job: NO_JOB,
    }
}

// The answer where a line that was opened is not given.
fn answer_to(fault: OpenFault) -> Answer
    ensures { result ≡ answer_to fault }
{
    match fault {
        // Never: sizes, lengths and room are right where a line is opened.
        OpenFault::Sizes => Answer::Shape,
        OpenFault::Seal(calls) => Answer::Seal(calls),
        OpenFault::Unlisted(calls) => Answer::Unlisted(calls),
        OpenFault::Trade(calls) => Answer::Trade(calls),
        OpenFault::Layout(calls) => Answer::Layout(calls),
    }
}

// The verdict on a sealed line of so many bytes: it is given with this edition and job.
fn verdict_on(found: Result<usize, OpenFault>, edition: usize, job: usize, length: usize) -> Verdict
    ensures { result ≡ verdict_on (label edition job) length found }
{
    match found {
        Ok(calls) => Verdict {
            answer: Answer::Line { length, calls },
            edition,
            job,
        },
        Err(fault) => refused(answer_to(fault)),
    }
}

// Opens the line of a body of this edition, whose ciphertext has n bytes.
fn open_parts(
    body: &[u8],
    edition: Edition,
    n: usize,
    key: &[u8],
    layout: Layout,
    line: &mut [u8],
) -> Result<usize, OpenFault>
    requires { Parts body.now edition n }
    ensures value { result ≡ (open_parts layout edition n key.now body.now line.old).answer }
    ensures line_after { line.new ≡ (open_parts layout edition n key.now body.now line.old).line }
{
    let more = job_field_length(edition);
    let nonce = &body[NONCE_AT..NONCE_AT + NONCE_LENGTH];
    let assoc = &body[ASSOCIATED_AT..ASSOCIATED_AT + ASSOCIATED_LENGTH + more];
    let cipher_at = CIPHER_AT + more;
    let cipher = &body[cipher_at..cipher_at + n];
    let seal_at = cipher_at + n + HEAD_LENGTH;
    let seal = &body[seal_at..seal_at + SEAL_LENGTH];
    open_line(layout, key, nonce, assoc, cipher, seal, line)
}

// Opens the line of a body of this edition and says what it is found to be, with its edition and its job.
fn open_fields(
    body: &[u8],
    edition: Edition,
    n: usize,
    key: &[u8],
    layout: Layout,
    line: &mut [u8],
) -> Verdict
    requires parts { Parts body.now edition n }
    requires key_len { (length key.now ≡ key_length) × (longest ≤ length line.old) }
    ensures value { result ≡ verdict_of (judge_parts layout edition n key.now body.now) }
    ensures line_after { line.new ≡ line_over (judge_parts layout edition n key.now body.now) line.old }
{
    let number = number_of(edition);
    let job = job_of(body, edition);
    let found = open_parts(body, edition, n, key, layout, line);
    verdict_on(found, number, job, n)
}

// The answer where a body is barred from being opened.
fn barred_answer(bar: Bar) -> Answer
    ensures { result ≡ barred_answer bar }
{
    match bar {
        Bar::Edition => Answer::Shape,
        Bar::Font => Answer::Font,
        Bar::Work => Answer::Work,
    }
}

// Judges a body of this edition by whether it is allowed, the font it was sealed to, the work that opening it takes, its seal and its line. The
// work is compared with what is allowed before any call of the permutation.
fn judge_edition(
    body: &[u8],
    edition: Edition,
    n: usize,
    key: &[u8],
    font: &[u8],
    asked: Asked,
    line: &mut [u8],
) -> Verdict
    requires parts { Parts body.now edition n }
    requires sizes { Sizes (told key.now font.now asked.layout) }
    requires longest_in_bounds { longest ≤ length line.old }
    ensures value { result ≡ verdict_of (within asked.allowed
        (judge_fields (told key.now font.now asked.layout) (among asked.editions (fields_of body.now)))) }
    ensures line_after { line.new ≡ line_over (within asked.allowed
        (judge_fields (told key.now font.now asked.layout) (among asked.editions (fields_of body.now))))
        line.old }
{
    let digest = &body[DIGEST_AT..DIGEST_AT + DIGEST_LENGTH];
    match judge_asked(asked.editions, asked.allowed, edition, n, digest, font) {
        Some(bar) => refused(barred_answer(bar)),
        None => open_fields(body, edition, n, key, asked.layout, line),
    }
}

// Judges a body by its fields.
fn judge_fields(body: &[u8], key: &[u8], font: &[u8], asked: Asked, line: &mut [u8]) -> Verdict
    requires sizes { Sizes (told key.now font.now asked.layout) }
    requires longest_in_bounds { longest ≤ length line.old }
    ensures value { result ≡ verdict_of (within asked.allowed
        (judge_fields (told key.now font.now asked.layout) (among asked.editions (fields_of body.now)))) }
    ensures line_after { line.new ≡ line_over (within asked.allowed
        (judge_fields (told key.now font.now asked.layout) (among asked.editions (fields_of body.now))))
        line.old }
{
    match judge_body(body) {
        None => refused(Answer::Shape),
        Some((edition, n)) => judge_edition(body, edition, n, key, font, asked, line),
    }
}

// The answer where a stretch holds no body.
fn stuffing_answer(fault: UnstuffFault) -> Answer
    ensures { result ≡ stuffing_answer fault }
{
    match fault {
        UnstuffFault::Bad => Answer::Stuffing,
        // No room is never the case: the body has room for the longest stretch.
        UnstuffFault::TooLong | UnstuffFault::NoRoom => Answer::Shape,
    }
}

// Judges the bytes of a stretch.
fn judge_stretch(stretch: &[u8], key: &[u8], font: &[u8], asked: Asked, line: &mut [u8]) -> Verdict
    requires sizes { Sizes (told key.now font.now asked.layout) }
    requires longest_in_bounds { longest ≤ length line.old }
    ensures value { result ≡ verdict_of (judged_within (told key.now font.now asked.layout) asked stretch.now) }
    ensures line_after { line.new ≡ line_over (judged_within (told key.now font.now asked.layout) asked stretch.now)
        line.old }
{
    let mut body = [0u8; LONGEST_STRETCH];
    let n = match unstuff(stretch, &mut body) {
        Ok(n) => n,
        Err(fault) => return refused(stuffing_answer(fault)),
    };
    judge_fields(&body[0..n], key, font, asked, line)
}

// Judges the bytes of a stretch that is handed in, what stands between two marks. A line that is given is written to the start of line; nothing
// else is written.
pub fn judge(stretch: &[u8], key: &[u8], font: &[u8], asked: Asked, line: &mut [u8]) -> Verdict
    ensures value { result ≡ judge_answer (told key.now font.now asked.layout) asked stretch.now line.old }
    ensures line_after { line.new ≡ judge_out (told key.now font.now asked.layout) asked stretch.now
        line.old }
{
    if key.len() != KEY_LENGTH {
        return refused(Answer::Sizes);
    }
    if font.len() != DIGEST_LENGTH {
        return refused(Answer::Sizes);
    }
    if line.len() < LONGEST_LINE {
        return refused(Answer::NoRoom);
    }
    judge_stretch(stretch, key, font, asked, line)
}

// What the fields are that a stretch holds, of whatever edition; none where it is too long or badly stuffed.
pub fn fields_in(stretch: &[u8]) -> Option<(Edition, usize)>
    ensures { result ≡ judged (held stretch.now) }
{
    let mut body = [0u8; LONGEST_STRETCH];
    // A stretch that is refused holds no body, for the body has room for the longest.
    let Ok(n) = unstuff(stretch, &mut body) else {
        return None;
    };
    judge_body(&body[0..n])
}

// An answer with one place for both.
fn at(place: usize, answer: Answer) -> Reading
    ensures { result ≡ reading_at (span place place) (plain answer) }
{
    Reading {
        first: place,
        closing: place,
        answer,
        edition: NO_EDITION,
        job: NO_JOB,
    }
}

// Judges the next stretch from a place. A line that is given is written to the start of line; nothing else is written.
pub fn read(
    stream: &[u8],
    from: usize,
    key: &[u8],
    font: &[u8],
    asked: Asked,
    line: &mut [u8],
) -> Reading
    ensures value { result ≡ read_answer (told key.now font.now asked.layout) asked stream.now from line.old }
    ensures line_after { line.new ≡ read_out (told key.now font.now asked.layout) asked stream.now from
        line.old }
{
    if key.len() != KEY_LENGTH {
        return at(from, Answer::Sizes);
    }
    if font.len() != DIGEST_LENGTH {
        return at(from, Answer::Sizes);
    }
    if stream.len() > LONGEST_STREAM {
        return at(from, Answer::TooLong);
    }
    if line.len() < LONGEST_LINE {
        return at(from, Answer::NoRoom);
    }
    if from > stream.len() {
        return at(from, Answer::Beyond);
    }
    let span = next_span(stream, from);
    let first = span.first;
    let closing = span.closing;
    if first == closing {
        return at(closing, Answer::End);
    }
    let verdict = judge_stretch(&stream[first..closing], key, font, asked, line);
    let answer = verdict.answer;
    Reading {
        first,
        closing,
        answer,
        edition: verdict.edition,
        job: verdict.job,
    }
}
