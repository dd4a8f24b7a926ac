// Stuffing as in RFC 1662 (document 01, 'A frame and a stream') by definition, and the two rules of the unstuffed length. The calls that stuff
// and unstuff are in the crate frame_stuff. The promises cite specs/Answers.antt; the paper's words stand in specs/Stuffing.antt and specs/Rules.antt.
#![tactic(auto)]

ghost use Rattle.std.specs.Prelude.{◌≡◌, ◌≤◌, length};
ghost use Rattle.frame_stuff_spec.specs.Stuffing.{longest_stretch};
ghost use Rattle.frame_stuff_spec.specs.Rules.{length_outside, length_inside, one_more, AtMost, stands};
ghost use Rattle.frame_stuff_spec.specs.Answers.{length_answer};

// The mark that opens and closes a frame (document 01).
pub const MARK: u8 = 0x7E;

// The byte that opens an escape (RFC 1662).
pub const ESCAPE: u8 = 0x7D;

// What stands for the mark inside an escape (document 01).
pub const ESCAPED_MARK: u8 = 0x5E;

// What stands for the escape byte inside an escape (document 01).
pub const ESCAPED_ESCAPE: u8 = 0x5D;

// The longest stretch that is judged (document 01, number 7: 274; order W6: 288 for every reader).
pub const LONGEST_STRETCH: usize = 288;

// Why a stretch's bytes come to no body.
#[derive(Clone, Copy)]
pub enum UnstuffFault {
    // Bad stuffing.
    Bad,
    // A stretch over the longest one.
    TooLong,
    // A buffer shorter than the body.
    NoRoom,
}

// Why a body is not stuffed.
#[derive(Clone, Copy)]
pub enum StuffRefusal {
    // A buffer with fewer than twice the body's bytes.
    NoRoom,
}

// One byte more.
fn one_more(count: Option<usize>) -> Option<usize>
    requires { AtMost longest_stretch count }
    ensures { result ≡ one_more count }
{
    match count {
        Some(n) => Some(n + 1),
        None => None,
    }
}

// The rule outside an escape.
#[cycle(length_inside_length_outside)]
#[tactic(auto, unfolding(crate::specs::Rules::length_outside))]
fn length_outside(s: &[u8]) -> Option<usize>
    requires { length s.now ≤ longest_stretch }
    ensures { result ≡ length_outside s.now }
{
    match s {
        [] => Some(0),
        [MARK, ..] => None,
        [ESCAPE, rest @ ..] => length_inside(rest),
        [_, rest @ ..] => one_more(length_outside(rest)),
    }
}

// Whether a byte stands for one inside an escape.
fn stands(b: u8) -> bool
    ensures { result ≡ stands b }
{
    matches!(b, ESCAPED_MARK | ESCAPED_ESCAPE)
}

// The rule inside an escape: the byte before was the escape byte.
#[cycle(length_inside_length_outside)]
#[tactic(auto, unfolding(crate::specs::Rules::length_inside))]
fn length_inside(s: &[u8]) -> Option<usize>
    requires { length s.now ≤ longest_stretch }
    ensures { result ≡ length_inside s.now }
{
    match s {
        [b, rest @ ..] if stands(*b) => one_more(length_outside(rest)),
        _ => None,
    }
}

// The unstuffed length of the stretch s.
#[tactic(auto, unfolding(crate::specs::Answers::length_answer))]
pub fn unstuffed_length(s: &[u8]) -> Result<usize, UnstuffFault>
    ensures { result ≡ length_answer s.now }
{
    if s.len() > LONGEST_STRETCH {
        return Err(UnstuffFault::TooLong);
    }
    match length_outside(s) {
        Some(n) => Ok(n),
        None => Err(UnstuffFault::Bad),
    }
}
