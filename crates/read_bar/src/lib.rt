// What a reader asks of a body before it opens it (document 01, number 8; orders W5 and W6): the edition, the font, the work. The promise cites
// specs/Asked.antt; the judgement of which this is a part stands in read_spec/specs/Judging.antt.
#![tactic(auto)]

ghost use Rattle.std.specs.Prelude.{◌≡◌};
ghost use Rattle.read_spec.specs.Editions.{allows as allowed};
ghost use Rattle.read_bar.specs.Asked.{bar_in};

use base_lists::compare;
use frame_body::Edition;
use frame_spec::beside_line;

// What bars a body from being opened.
#[derive(Clone, Copy)]
pub enum Bar {
    // Its edition is not among those allowed.
    Edition,
    // It was sealed to another font.
    Font,
    // Opening it takes more calls of the permutation than are allowed.
    Work,
}

// Whether the edition is among those allowed: two bits, 1 for edition one and 2 for edition two.
fn allows(editions: usize, edition: Edition) -> bool
    ensures { result ≡ allowed editions edition }
{
    match edition {
        Edition::One => editions % 2 == 1,
        Edition::Two => editions / 2 % 2 == 1,
    }
}

// What bars a body of this edition with a line ciphertext of n bytes, sealed to this digest, where these editions and so many calls of the
// permutation are allowed and the font has that digest. No call of the permutation is made.
pub fn judge_asked(
    editions: usize,
    calls: usize,
    edition: Edition,
    n: usize,
    digest: &[u8],
    font: &[u8],
) -> Option<Bar>
    ensures { result ≡ bar_in editions calls edition n digest.now font.now }
{
    if !allows(editions, edition) {
        return Some(Bar::Edition);
    }
    if !compare(digest, font) {
        return Some(Bar::Font);
    }
    let beside = beside_line(edition);
    if calls < beside {
        return Some(Bar::Work);
    }
    // What is left is compared, since a sum with n could be more than a number holds.
    let left = calls - beside;
    if left < n {
        return Some(Bar::Work);
    }
    None
}
