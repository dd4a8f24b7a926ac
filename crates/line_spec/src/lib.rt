// Which bytes and which lines are accepted (document 01, 'A frame and a stream', and order W2): the one place for the rule of a line. The
// promises cite specs/Lines.antt. The pass over a line that judges it by the rule is in the crate line_judge. How long a line may be is the
// writer's and the reader's business; the longest is named here.
#![tactic(auto)]

ghost use Rattle.std.specs.Prelude.{◌≡◌};
ghost use Rattle.line_spec.specs.Lines.{is_listed};

// The longest line in bytes (document 01, field 03).
pub const LONGEST: usize = 65;

// The digits run from 0x30 (document 01).
pub const FIRST_DIGIT: u8 = 0x30;

// They run to 0x39 (document 01).
pub const LAST_DIGIT: u8 = 0x39;

// The first of the four symbols: A transit, B amount, C on-us, D dash (document 01).
pub const TRANSIT: u8 = b'A';

// The third, by itself (order W7).
pub const ON_US: u8 = b'C';

// The last of them.
const DASH: u8 = b'D';

// The blank (document 01).
const BLANK: u8 = 0x20;

// Why bytes are no line of the trade.
#[derive(Clone, Copy)]
pub enum TradeFault {
    // It holds a byte that is not listed.
    Unlisted,
    // Its bytes are listed, but it is not the trade's line: it has no digit, or its transit symbols are not as they must be.
    Trade,
}

// Whether a line may hold the byte b: a digit, a symbol or the blank, and no other.
#[tactic(auto, unfolding(crate::specs::Lines::is_listed, crate::specs::Lines::is_digit))]
pub fn listed(b: u8) -> bool
    ensures { result ≡ is_listed b }
{
    matches!(b, FIRST_DIGIT..=LAST_DIGIT | TRANSIT..=DASH | BLANK)
}
