// What `read` answers in document 01's numbers ('Numbers returned'; orders W2, W5 and W7), for callers that report them: one `match` gives them all.
// The promises cite specs/Reports.antt and read_call/specs/Answers.antt.
#![tactic(auto)]

ghost use Rattle.std.specs.Prelude.{◌≡◌};
ghost use Rattle.read_call.specs.Answers.{answer_number, length_of, calls_of};
ghost use Rattle.read_numbers.specs.Reports.{report, report_of};

use read_call::Answer;

// Which of four a reading is: the end of the stream, a line, a stretch refused, the call refused.
pub const END: u32 = 0;

pub const LINE: u32 = 1;

pub const REFUSED: u32 = 2;

pub const CALL_REFUSED: u32 = 3;

// What a refusal that makes no call of the permutation counts, and the end of the stream.
const NO_CALLS: usize = 0;

// The number, which of the four it is, the line's length, 0 where none is given, and the count.
#[derive(Clone, Copy)]
pub struct Report {
    pub number: u32,
    pub outcome: u32,
    pub length: usize,
    pub calls: usize,
}

// These four together.
fn told(number: u32, outcome: u32, length: usize, calls: usize) -> Report
    ensures { result ≡ report number outcome length calls }
{
    Report {
        number,
        outcome,
        length,
        calls,
    }
}

// The numbers of what `read` answers; the end of the stream has the number 0, as a line has.
pub fn numbers(answer: Answer) -> Report
    ensures { result ≡ report_of answer }
{
    match answer {
        Answer::Sizes => told(2, CALL_REFUSED, 0, NO_CALLS),
        Answer::TooLong => told(3, CALL_REFUSED, 0, NO_CALLS),
        Answer::NoRoom => told(4, CALL_REFUSED, 0, NO_CALLS),
        Answer::Beyond => told(10, CALL_REFUSED, 0, NO_CALLS),
        Answer::End => told(0, END, 0, NO_CALLS),
        Answer::Shape => told(7, REFUSED, 0, NO_CALLS),
        Answer::Stuffing => told(6, REFUSED, 0, NO_CALLS),
        Answer::Font => told(8, REFUSED, 0, NO_CALLS),
        Answer::Work => told(15, REFUSED, 0, NO_CALLS),
        Answer::Seal(calls) => told(5, REFUSED, 0, calls),
        Answer::Unlisted(calls) => told(9, REFUSED, 0, calls),
        Answer::Trade(calls) => told(13, REFUSED, 0, calls),
        Answer::Layout(calls) => told(17, REFUSED, 0, calls),
        Answer::Line { length, calls } => told(0, LINE, length, calls),
    }
}

// The number alone.
pub fn read_number(answer: Answer) -> u32
    ensures { result ≡ answer_number answer }
{
    let its = numbers(answer);
    its.number
}

// The line's length alone, 0 where no line is given.
pub fn read_length(answer: Answer) -> usize
    ensures { result ≡ length_of answer }
{
    let its = numbers(answer);
    its.length
}

// The count alone.
pub fn read_count(answer: Answer) -> usize
    ensures { result ≡ calls_of answer }
{
    let its = numbers(answer);
    its.calls
}
