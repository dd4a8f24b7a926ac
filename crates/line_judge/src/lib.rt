// The rule of a line (order W2; line_spec/specs/Lines.antt) in one pass over its bytes, which counts the digits between the trade's transit
// symbols. The promise of the whole cites the rule, those of its steps specs/Passing.antt.
#![tactic(auto)]

ghost use Rattle.std.specs.Prelude.{◌≡◌};
ghost use Rattle.line_spec.specs.Lines.{line_rule};
ghost use Rattle.line_judge.specs.Passing.{at_transit, at_digit, at_other, passing, judged_by};

use line_spec::{FIRST_DIGIT, LAST_DIGIT, TRANSIT, TradeFault, listed};

// How many digits stand between two transit symbols (order W2).
pub const BETWEEN: usize = 9;

// What the bytes passed so far hold.
#[derive(Clone, Copy)]
enum Met {
    // No transit symbol and no digit.
    Nothing,
    // A digit and no transit symbol.
    Digit,
    // One transit symbol, and behind it so many digits and no other byte.
    Inside(usize),
    // Two transit symbols as they must be.
    Closed,
    // Transit symbols as no line of the trade has them.
    Broken,
}

// A transit symbol opens the nine digits or closes them; a third is one too many.
fn at_transit(met: Met) -> Met
    ensures { result ≡ at_transit met }
{
    match met {
        Met::Nothing | Met::Digit => Met::Inside(0),
        Met::Inside(BETWEEN) => Met::Closed,
        Met::Inside(_) | Met::Closed | Met::Broken => Met::Broken,
    }
}

// Between two transit symbols digits are counted.
fn at_digit(met: Met) -> Met
    ensures { result ≡ at_digit met }
{
    match met {
        Met::Nothing | Met::Digit => Met::Digit,
        // An `if` in the arm: a guard on it, measured, takes twice the time for a line of digits.
        Met::Inside(n) => {
            if n < BETWEEN {
                Met::Inside(n + 1)
            } else {
                Met::Broken
            }
        }
        Met::Closed => Met::Closed,
        Met::Broken => Met::Broken,
    }
}

// Any other byte may stand everywhere but between two transit symbols.
fn at_other(met: Met) -> Met
    ensures { result ≡ at_other met }
{
    match met {
        Met::Inside(_) => Met::Broken,
        other => other,
    }
}

// One byte more.
#[tactic(auto, unfolding(crate::specs::Passing::passing, line_spec::specs::Lines::is_transit, line_spec::specs::Lines::is_digit))]
fn pass(met: Met, b: u8) -> Met
    ensures { result ≡ passing met b }
{
    match b {
        TRANSIT => at_transit(met),
        FIRST_DIGIT..=LAST_DIGIT => at_digit(met),
        _ => at_other(met),
    }
}

// What a line of listed bytes is found to be, at its end.
fn judged_by(met: Met) -> Result<(), TradeFault>
    ensures { result ≡ judged_by met }
{
    match met {
        Met::Digit | Met::Closed => Ok(()),
        Met::Nothing | Met::Inside(_) | Met::Broken => Err(TradeFault::Trade),
    }
}

// Judges a line by the rule, in one pass over its bytes.
pub fn judge_line(line: &[u8]) -> Result<(), TradeFault>
    ensures { result ≡ line_rule line.now }
{
    let mut met = Met::Nothing;
    for b in line {
        if !listed(*b) {
            return Err(TradeFault::Unlisted);
        }
        met = pass(met, *b);
    }
    judged_by(met)
}
