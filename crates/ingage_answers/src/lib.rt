// What seal and open answer and leave in the buffers lent (document 01, 'Numbers returned'), by definition, and that open gives back what seal
// was given. The only code is what both ask about lengths, and the number and count of each answer; the calls that meet the definitions are in the
// crate ingage_call. The promises cite specs/Answers.antt.
#![tactic(auto)]

ghost use Rattle.std.specs.Prelude.{◌≡◌};
ghost use Rattle.ingage_answers.specs.Answers.{too_long, calls_of, seal_number, seal_count, open_number, open_count};

use ingage_spec::Instance;

// The longest associated data, and the longest message or ciphertext, in bytes (document 01, number 3).
const LONGEST_ASSOCIATED: usize = 1024;

const LONGEST_TEXT: usize = 4096;

// Why nothing is sealed: Instance is a number that names none. A seal that is given counts the calls of the permutation.
#[derive(Clone, Copy)]
pub enum SealRefusal {
    Instance,
    Sizes,
    TooLong,
    NoRoom,
}

// Why nothing is opened: the same, and a seal that is not the one worked out, with the calls of the finished work.
#[derive(Clone, Copy)]
pub enum OpenRefusal {
    Instance,
    Sizes,
    TooLong,
    NoRoom,
    Seal(usize),
}

pub fn is_too_long(assoc: usize, text: usize) -> bool
    ensures { result ≡ too_long assoc text }
{
    if assoc > LONGEST_ASSOCIATED {
        return true;
    }
    text > LONGEST_TEXT
}

// How often the permutation is called for so many bytes of associated data and of text: not at all where they are too long, or a block has no
// byte.
pub fn calls(z: Instance, assoc: usize, text: usize) -> usize
    ensures { result ≡ calls_of z assoc text }
{
    let each = z.rate;
    if each < 1 {
        return 0;
    }
    if is_too_long(assoc, text) {
        return 0;
    }
    1 + (assoc / each + 1) + (text / each + 1) + 1
}

// What a refusal that makes no call of the permutation counts.
const NO_CALLS: usize = 0;

// The number of what `seal` answers.
pub fn seal_number(answer: Result<usize, SealRefusal>) -> u32
    ensures { result ≡ seal_number answer }
{
    match answer {
        Ok(_) => 0,
        Err(SealRefusal::Instance) => 1,
        Err(SealRefusal::Sizes) => 2,
        Err(SealRefusal::TooLong) => 3,
        Err(SealRefusal::NoRoom) => 4,
    }
}

// The count of what `seal` answers.
pub fn seal_count(answer: Result<usize, SealRefusal>) -> usize
    ensures { result ≡ seal_count answer }
{
    answer.unwrap_or(NO_CALLS)
}

// The number of what `open` answers.
pub fn open_number(answer: Result<usize, OpenRefusal>) -> u32
    ensures { result ≡ open_number answer }
{
    match answer {
        Ok(_) => 0,
        Err(OpenRefusal::Instance) => 1,
        Err(OpenRefusal::Sizes) => 2,
        Err(OpenRefusal::TooLong) => 3,
        Err(OpenRefusal::NoRoom) => 4,
        Err(OpenRefusal::Seal(_)) => 5,
    }
}

// The count of what `open` answers.
pub fn open_count(answer: Result<usize, OpenRefusal>) -> usize
    ensures { result ≡ open_count answer }
{
    match answer {
        Ok(calls) => calls,
        Err(OpenRefusal::Instance) => NO_CALLS,
        Err(OpenRefusal::Sizes) => NO_CALLS,
        Err(OpenRefusal::TooLong) => NO_CALLS,
        Err(OpenRefusal::NoRoom) => NO_CALLS,
        Err(OpenRefusal::Seal(calls)) => calls,
    }
}
