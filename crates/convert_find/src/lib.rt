// The line of a stretch of the edition named, as the converter finds it (order W6), and what it asks of an edition for it. The promises cite
// specs/Finding.antt and convert_spec/specs/Answers.antt, and specs/Sorted.antt says that what is found is what the definition of the converter sorts a
// stretch to.
#![tactic(auto)]

ghost use Rattle.std.specs.Prelude.{◌≡◌};
ghost use Rattle.frame_spec.specs.Told.{told};
ghost use Rattle.read_spec.specs.Judging.{held};
ghost use Rattle.read_spec.specs.Editions.{only as only_of};
ghost use Rattle.convert_spec.specs.Answers.{other as other_of, same_edition, other_than, converted_of};
ghost use Rattle.convert_find.specs.Finding.{found_in, line_in};

use convert_spec::{ConvertFault, Found};
use frame_body::Edition;
use line_layout::Layout;
use read_call::{ALL_WORK, Answer, Asked, EDITION_ONE, EDITION_TWO, fields_in, judge};
use read_numbers::{REFUSED, numbers};

// The other edition.
pub fn other(edition: Edition) -> Edition
    ensures { result ≡ other_of edition }
{
    match edition {
        Edition::One => Edition::Two,
        Edition::Two => Edition::One,
    }
}

// That edition alone, as a reader is told it.
pub fn only(edition: Edition) -> usize
    ensures { result ≡ only_of edition }
{
    match edition {
        Edition::One => EDITION_ONE,
        Edition::Two => EDITION_TWO,
    }
}

// Whether two editions are the same.
fn same(one: Edition, two: Edition) -> bool
    ensures { result ≡ same_edition one two }
{
    match one {
        Edition::One => match two {
            Edition::One => true,
            Edition::Two => false,
        },
        Edition::Two => match two {
            Edition::One => false,
            Edition::Two => true,
        },
    }
}

// Whether a stretch holds fields of the edition not named.
pub fn misnamed(stretch: &[u8], named: Edition) -> bool
    ensures { result ≡ other_than named (held stretch.now) }
{
    match fields_in(stretch) {
        None => false,
        Some((edition, _)) => !same(named, edition),
    }
}

// The converter's answer for what a stretch is judged to be; a line is done with its length.
fn converted_of(answer: Answer) -> Result<usize, ConvertFault>
    ensures { result ≡ converted_of answer }
{
    match answer {
        Answer::Sizes => Err(ConvertFault::Sizes),
        Answer::NoRoom => Err(ConvertFault::NoRoom),
        Answer::TooLong => Err(ConvertFault::Shape),
        Answer::Beyond => Err(ConvertFault::Shape),
        Answer::End => Err(ConvertFault::Shape),
        Answer::Shape => Err(ConvertFault::Shape),
        Answer::Work => Err(ConvertFault::Shape),
        Answer::Stuffing => Err(ConvertFault::Stuffing),
        Answer::Font => Err(ConvertFault::Font),
        Answer::Seal(_) => Err(ConvertFault::Seal),
        Answer::Unlisted(_) => Err(ConvertFault::Unlisted),
        Answer::Trade(_) => Err(ConvertFault::Trade),
        Answer::Layout(_) => Err(ConvertFault::Layout),
        Answer::Line { length, calls: _ } => Ok(length),
    }
}

// Finds the line of a stretch of the edition named and writes it to the start of line; where there is none, line stays.
pub fn line_in(
    stretch: &[u8],
    named: Edition,
    key: &[u8],
    font: &[u8],
    layout: Layout,
    line: &mut [u8],
) -> Found
    ensures value { result ≡ found_in (told key.now font.now layout) named stretch.now line.old }
    ensures line_after { line.new ≡ line_in (told key.now font.now layout) named stretch.now line.old }
{
    if misnamed(stretch, named) {
        let answer = Err(ConvertFault::Edition);
        return Found {
            answer,
            outcome: REFUSED,
            length: 0,
        };
    }
    let asked = Asked {
        editions: only(named),
        allowed: ALL_WORK,
        layout,
    };
    let verdict = judge(stretch, key, font, asked, line);
    let judged = verdict.answer;
    let answer = converted_of(judged);
    let its = numbers(judged);
    Found {
        answer,
        outcome: its.outcome,
        length: its.length,
    }
}
