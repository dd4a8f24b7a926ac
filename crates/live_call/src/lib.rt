// Reading a link that never ends: a step takes a piece in, up to and with the first mark that closes a stretch, and reads that stretch; a last call
// tells what was cut off at the link's ends. The window is lent, the numbers go in and come back. The promises cite live_spec/specs.
#![tactic(auto)]

ghost use Rattle.std.specs.Prelude.{◌≡◌, true, cond, ◌+◌, ◌-◌, ◌<◌, ◌≤◌, eqb, length};
ghost use Rattle.frame_stuff_spec.specs.Stuffing.{longest_stretch};
ghost use Rattle.line_spec.specs.Lines.{longest};
ghost use Rattle.frame_spec.specs.Told.{told};
ghost use Rattle.read_stretch.specs.Stretches.{span};
ghost use Rattle.read_spec.specs.Judged.{shape};
ghost use Rattle.read_spec.specs.Sizes.{Sizes};
ghost use Rattle.read_nonce.specs.Nonces.{nonce_of};
ghost use Rattle.read_call.specs.Answers.{LINE, outcome_of, judged_within, line_over};
ghost use Rattle.live_spec.specs.Taking.{possible, closes, behind_mark, behind_byte, kept, taken_in};
ghost use Rattle.live_spec.specs.Steps.{most_bytes, judged_in, found_in, no_nonce, no_reading, step_of, line_of, step_answer, step_window, step_line, step_number};
ghost use Rattle.live_spec.specs.Ends.{ends_answer, ends_number};
ghost use Rattle.live_call.specs.Parts.{taken_by, taken_of, read_of};

use frame_body::{DIGEST_LENGTH, LONGEST_LINE, NONCE_LENGTH};
use frame_spec::KEY_LENGTH;
use frame_stuff_spec::{LONGEST_STRETCH, MARK};
use live_spec::{Cut, LiveRefusal, Numbers, Step};
use read_call::{Asked, judge};
use read_nonce::nonce_of;
use read_numbers::{LINE, numbers, read_number};

// The most bytes that are counted.
const MOST_BYTES: u64 = 18446744073709551615;

// Whether a mark came.
const NO_MARK: u32 = 0;

const MARKED: u32 = 1;

// What is reported for edition and job where no line is given.
const NO_EDITION: usize = 0;

const NO_JOB: usize = 0;

// What taking a piece in comes to: the numbers then, how many bytes were taken, and the places of the stretch that was closed, which are one where none
// was.
#[derive(Clone, Copy)]
struct Taking {
    numbers: Numbers,
    took: usize,
    first: u64,
    closing: u64,
}

// What a stretch is found to be, with the edition, the job and the nonce of a line that is given.
#[derive(Clone, Copy)]
struct Read {
    answer: read_call::Answer,
    edition: usize,
    job: usize,
    nonce: [u8; NONCE_LENGTH],
}

// Whether a taking-in gives these numbers.
fn is_possible(n: Numbers) -> bool
    ensures { result ≡ possible n }
{
    if n.marked == NO_MARK {
        if n.mark == 0 {
            return n.first == 0;
        }
        return false;
    }
    if n.marked == MARKED {
        if n.mark < n.first {
            return n.first <= n.received;
        }
        return false;
    }
    false
}

// Whether a mark closes a stretch here.
fn closes_here(n: Numbers) -> bool
    ensures { result ≡ closes n }
{
    if n.marked == NO_MARK {
        return false;
    }
    n.first < n.received
}

// The place of the first mark, where a mark comes now.
fn first_mark(n: Numbers) -> u64
    ensures { result ≡ cond (eqb n.marked 0) n.received n.mark }
{
    if n.marked == NO_MARK {
        return n.received;
    }
    n.mark
}

// The numbers behind a mark.
fn behind_mark(n: Numbers) -> Numbers
    requires { n.received < most_bytes }
    ensures { result ≡ behind_mark n }
{
    let next = n.received + 1;
    Numbers {
        received: next,
        marked: MARKED,
        mark: first_mark(n),
        first: next,
    }
}

// The numbers behind any other byte.
fn behind_byte(n: Numbers) -> Numbers
    requires { n.received < most_bytes }
    ensures { result ≡ behind_byte n }
{
    Numbers {
        received: n.received + 1,
        marked: n.marked,
        mark: n.mark,
        first: n.first,
    }
}

// Keeps a byte of an unfinished stretch, if the window has room for it.
fn keep(window: &mut [u8], n: Numbers, byte: u8)
    requires window_len { length window.old ≡ longest_stretch }
    requires first_le_received { n.first ≤ n.received }
    ensures { window.new ≡ kept n window.old byte }
{
    if n.marked == NO_MARK {
        return;
    }
    let held = n.received - n.first;
    if held < LONGEST_STRETCH as u64 {
        let at = held as usize;
        window[at] = byte;
    }
}

// Takes a piece in, up to and with the first mark that closes a stretch.
fn take_in(window: &mut [u8], n: Numbers, piece: &[u8]) -> Taking
    requires window_len { length window.old ≡ longest_stretch }
    requires n_value { possible n ≡ true }
    requires piece_bound { n.received + length piece.now ≤ most_bytes }
    ensures value { result ≡ taken_by (taken_in n window.old piece.now) }
    ensures first_le_closing { result.first ≤ result.closing }
    ensures window_after { window.new ≡ (taken_in n window.old piece.now).window }
{
    let mut seen = n;
    for (i, byte) in piece.iter().enumerate() {
        if *byte == MARK {
            if closes_here(seen) {
                return Taking {
                    numbers: behind_mark(seen),
                    took: i + 1,
                    first: seen.first,
                    closing: seen.received,
                };
            }
            seen = behind_mark(seen);
        } else {
            keep(window, seen, *byte);
            seen = behind_byte(seen);
        }
    }
    Taking {
        numbers: seen,
        took: piece.len(),
        first: seen.received,
        closing: seen.received,
    }
}

// The nonce of a stretch that is answered with a line; zeros with anything else.
fn nonce_given(stretch: &[u8], answer: read_call::Answer) -> [u8; NONCE_LENGTH]
    ensures { result ≡ cond (eqb (outcome_of answer) LINE) (nonce_of stretch.now) no_nonce }
{
    let report = numbers(answer);
    if report.outcome == LINE {
        let nonce = nonce_of(stretch);
        let bytes = nonce.bytes;
        return bytes;
    }
    [0u8; NONCE_LENGTH]
}

// Reads a stretch of which every byte was kept.
fn read_kept(stretch: &[u8], key: &[u8], font: &[u8], asked: Asked, line: &mut [u8]) -> Read
    requires sizes { Sizes (told key.now font.now asked.layout) }
    requires longest_in_bounds { longest ≤ length line.old }
    ensures value { result ≡ read_of (judged_within (told key.now font.now asked.layout) asked stretch.now) }
    ensures line_after { line.new ≡ line_over (judged_within (told key.now font.now asked.layout) asked stretch.now)
        line.old }
{
    let verdict = judge(stretch, key, font, asked, line);
    let answer = verdict.answer;
    let nonce = nonce_given(stretch, answer);
    Read {
        answer,
        edition: verdict.edition,
        job: verdict.job,
        nonce,
    }
}

// What an over-long stretch is found to be.
fn over_long() -> Read
    ensures { result ≡ read_of shape }
{
    let answer = read_call::Answer::Shape;
    Read {
        answer,
        edition: NO_EDITION,
        job: NO_JOB,
        nonce: [0u8; NONCE_LENGTH],
    }
}

// Reads the stretch at these places, whose first bytes stand at the window's start.
fn read_closed(
    window: &[u8],
    first: u64,
    closing: u64,
    key: &[u8],
    font: &[u8],
    asked: Asked,
    line: &mut [u8],
) -> Read
    requires window_len { (length window.now ≡ longest_stretch) × (first ≤ closing) }
    requires sizes { Sizes (told key.now font.now asked.layout) }
    requires longest_in_bounds { longest ≤ length line.old }
    ensures value { result ≡ read_of (judged_in (told key.now font.now asked.layout) asked window.now (span first closing)) }
    ensures line_after { line.new ≡ line_over (judged_in (told key.now font.now asked.layout) asked window.now
        (span first closing)) line.old }
{
    let bytes = closing - first;
    if bytes > LONGEST_STRETCH as u64 {
        return over_long();
    }
    let n = bytes as usize;
    read_kept(&window[0..n], key, font, asked, line)
}

// An answer with no reading.
fn no_reading(
    numbers: Numbers,
    took: usize,
    answer: Result<Option<read_call::Answer>, LiveRefusal>,
) -> Step
    ensures { result ≡ no_reading numbers took answer }
{
    Step {
        numbers,
        took,
        first: numbers.received,
        closing: numbers.received,
        answer,
        edition: NO_EDITION,
        job: NO_JOB,
        nonce: [0u8; NONCE_LENGTH],
    }
}

// Answers for what was taken in: wait, or the stretch that was closed.
fn answer_for(
    window: &[u8],
    taking: Taking,
    key: &[u8],
    font: &[u8],
    asked: Asked,
    line: &mut [u8],
) -> Step
    requires window_len { (length window.now ≡ longest_stretch) × (taking.first ≤ taking.closing) }
    requires sizes { Sizes (told key.now font.now asked.layout) }
    requires longest_in_bounds { longest ≤ length line.old }
    ensures value { result ≡ step_of taking.numbers (found_in (told key.now font.now asked.layout) asked
        (taken_of taking window.now)) }
    ensures line_after { line.new ≡ line_of line.old (found_in (told key.now font.now asked.layout) asked
        (taken_of taking window.now)) }
{
    let numbers = taking.numbers;
    let first = taking.first;
    let closing = taking.closing;
    if first == closing {
        return no_reading(numbers, taking.took, Ok(None));
    }
    let read = read_closed(window, first, closing, key, font, asked, line);
    let nonce = read.nonce;
    let its = read.answer;
    let answer = Ok(Some(its));
    Step {
        numbers,
        took: taking.took,
        first,
        closing,
        answer,
        edition: read.edition,
        job: read.job,
        nonce,
    }
}

// The step, over a window that is lent as any bytes.
fn step_over(
    window: &mut [u8],
    numbers: Numbers,
    piece: &[u8],
    key: &[u8],
    font: &[u8],
    asked: Asked,
    line: &mut [u8],
) -> Step
    requires { length window.old ≡ longest_stretch }
    ensures value { result ≡ step_answer (told key.now font.now asked.layout) asked numbers window.old piece.now
        line.old }
    ensures window_after { window.new ≡ step_window (told key.now font.now asked.layout) asked numbers window.old
        piece.now line.old }
    ensures line_after { line.new ≡ step_line (told key.now font.now asked.layout) asked numbers window.old
        piece.now line.old }
{
    if !is_possible(numbers) {
        return no_reading(numbers, 0, Err(LiveRefusal::Numbers));
    }
    if key.len() != KEY_LENGTH {
        return no_reading(numbers, 0, Err(LiveRefusal::Sizes));
    }
    if font.len() != DIGEST_LENGTH {
        return no_reading(numbers, 0, Err(LiveRefusal::Sizes));
    }
    if piece.len() as u64 > MOST_BYTES - numbers.received {
        return no_reading(numbers, 0, Err(LiveRefusal::TooLong));
    }
    if line.len() < LONGEST_LINE {
        return no_reading(numbers, 0, Err(LiveRefusal::NoRoom));
    }
    let taking = take_in(window, numbers, piece);
    answer_for(window, taking, key, font, asked, line)
}

// A step: takes bytes of the piece in and reads the stretch that they close. A line that is given is written to the start of line. The window's bytes
// are not judged: where the numbers are not those that came back with it, it reads what it finds there.
pub fn step(
    window: &mut [u8; LONGEST_STRETCH],
    numbers: Numbers,
    piece: &[u8],
    key: &[u8],
    font: &[u8],
    asked: Asked,
    line: &mut [u8],
) -> Step
    ensures value { result ≡ step_answer (told key.now font.now asked.layout) asked numbers window.old piece.now
        line.old }
    ensures window_after { window.new ≡ step_window (told key.now font.now asked.layout) asked numbers window.old
        piece.now line.old }
    ensures line_after { line.new ≡ step_line (told key.now font.now asked.layout) asked numbers window.old
        piece.now line.old }
{
    step_over(window, numbers, piece, key, font, asked, line)
}

// The last call, at the end of the link: what was cut off; nothing for numbers that no taking-in gives.
pub fn end(n: Numbers) -> Option<Cut>
    ensures { result ≡ ends_answer n }
{
    if !is_possible(n) {
        return None;
    }
    if n.marked == NO_MARK {
        return Some(Cut {
            before: n.received,
            behind: 0,
        });
    }
    Some(Cut {
        before: n.mark,
        behind: n.received - n.first,
    })
}

// The number of what a step answers.
pub fn step_number(answer: Result<Option<read_call::Answer>, LiveRefusal>) -> u32
    ensures { result ≡ step_number answer }
{
    match answer {
        Err(LiveRefusal::Numbers) => 1,
        Err(LiveRefusal::Sizes) => 2,
        Err(LiveRefusal::TooLong) => 3,
        Err(LiveRefusal::NoRoom) => 4,
        Ok(None) => 0,
        Ok(Some(its)) => read_number(its),
    }
}

// The number of what the last call answers.
pub fn end_number(ends: Option<Cut>) -> u32
    ensures { result ≡ ends_number ends }
{
    match ends {
        None => 1,
        Some(_) => 0,
    }
}
