// GAGE's round permutation and its inverse by definition (document 000, section 1.1; document 01, 'The permutation'; order W9), that each undoes
// the other, and which sizes and counts of rounds there are. Leaders, substitution and shuffle are crates of their own, and so is the
// permutation's code, rounds. The promises cite specs/Permutation.antt.
#![tactic(auto)]

ghost use Rattle.std.specs.Prelude.{◌≡◌};
ghost use Rattle.gage_spec.specs.Permutation.{judged_number, permitted, judged};

// The largest permitted state, in bytes.
pub const LARGEST: usize = gage_cells::LARGEST;

// ROUNDS of document 000, section 1.1.2: the digest runs so many, and the cipher these and their half.
pub const ROUNDS: usize = 32;

// The permitted state sizes in bytes (document 01, 'The permutation', and order W8's 64).
const SIZES: [usize; 10] = [29, 30, 32, 34, 36, 40, 48, 64, 68, LARGEST];

// Why a permutation is refused: a state size that is not permitted, a count of rounds that is not 1 to 255.
#[derive(Clone, Copy)]
pub enum PermuteRefusal {
    Size,
    Rounds,
}

// What the permutation and its inverse give: the state changed where it is done, else as it was.
#[derive(Clone, Copy)]
pub struct Permuted {
    pub answer: Result<(), PermuteRefusal>,
    pub state: [u8; LARGEST],
}

// Document 01's number of an answer.
pub fn number(answer: Result<(), PermuteRefusal>) -> u32
    ensures { result ≡ judged_number answer }
{
    match answer {
        Ok(()) => 0,
        Err(PermuteRefusal::Size) => 1,
        Err(PermuteRefusal::Rounds) => 18,
    }
}

// Whether a state may have n bytes.
fn is_permitted(n: usize) -> bool
    ensures { result ≡ permitted n }
{
    // `contains`, measured, takes 4.2 in a hundred more instructions for a digest by instance 1.
    for size in SIZES {
        if size == n {
            return true;
        }
    }
    false
}

// What is made of a size and a count of rounds: the size is judged first.
#[tactic(auto, unfolding(crate::specs::Permutation::judged))]
pub fn judge(n: usize, k: usize) -> Result<(), PermuteRefusal>
    ensures { result ≡ judged n k }
{
    let size = is_permitted(n);
    let count = gage_leaders::is_count(k);
    if !size {
        return Err(PermuteRefusal::Size);
    }
    if !count {
        return Err(PermuteRefusal::Rounds);
    }
    Ok(())
}
