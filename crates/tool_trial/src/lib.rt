// What `permutation` makes of its words: a size and a count of rounds in decimal, a state in hexadecimal, and what becomes of it. Nothing here
// touches the system. The promises cite specs/Trial.antt.
#![tactic(auto)]

ghost use Rattle.std.specs.Prelude.{◌≡◌, ◌≤◌};
ghost use Rattle.gage_spec.specs.Permutation.{permute, unpermute};
ghost use Rattle.tool_trial.specs.Trial.{LARGE, fault_of, is_back, grown, number_in, state_in, is_state, told, refusal, tried, outcome_number};

use gage_spec::{LARGEST, PermuteRefusal, Permuted};

// The decimal digits.
const ZERO: u8 = 0x30;

const NINE: u8 = 0x39;

// A number this large or larger is as good as this one: no size and no count of rounds comes near it.
const LARGE: usize = 1000;

// Why a trial is refused: document 01's 1, order W9's 18, size or rounds no number, the state not of the size.
#[derive(Clone, Copy)]
pub enum TrialFault {
    Size,
    Rounds,
    NoNumber,
    NoState,
}

impl From<PermuteRefusal> for TrialFault {
    ghost from_gives = { λ refusal fault. fault ≡ fault_of refusal };

    fn from(refusal: PermuteRefusal) -> TrialFault {
        match refusal {
            PermuteRefusal::Size => TrialFault::Size,
            PermuteRefusal::Rounds => TrialFault::Rounds,
        }
    }
}

// With done the size and, in its first bytes, the new state; else nothing.
#[derive(Clone, Copy)]
pub struct Trial {
    pub outcome: Result<(), TrialFault>,
    pub size: usize,
    pub state: [u8; LARGEST],
}

// The number of what becomes of a trial: document 01's for the size, order W9's for the rounds; words that are no trial have none.
pub fn outcome_number(outcome: Result<(), TrialFault>) -> u32
    ensures { result ≡ outcome_number outcome }
{
    match outcome {
        Ok(()) => 0,
        Err(TrialFault::Size) => 1,
        Err(TrialFault::Rounds) => 18,
        Err(TrialFault::NoNumber) => 0,
        Err(TrialFault::NoState) => 0,
    }
}

// Whether a word asks for the way back.
#[tactic(auto, unfolding(crate::specs::Trial::is_back))]
pub fn is_back(word: &[u8]) -> bool
    ensures { result ≡ is_back word.now }
{
    base_lists::compare(word, b"back")
}

// A number with one digit more.
#[tactic(auto, unfolding(crate::specs::Trial::grown))]
fn grow(v: usize, digit: usize) -> usize
    requires { (v ≤ LARGE) × (digit ≤ 9) }
    ensures { result ≡ grown v digit }
{
    (10 * v + digit).min(LARGE)
}

// The number that a word of decimal digits is.
fn read_number(word: &[u8]) -> Option<usize>
    ensures { result ≡ number_in word.now }
{
    if word.is_empty() {
        return None;
    }
    let mut v = 0;
    for c in word {
        if *c < ZERO || *c > NINE {
            return None;
        }
        v = grow(v, (*c - ZERO) as usize);
    }
    Some(v)
}

// Whether a text has two hexadecimal digits for each byte of the size.
#[tactic(auto, unfolding(crate::specs::Trial::is_state))]
fn is_state(text: &[u8], n: usize) -> bool
    ensures { result ≡ is_state text.now n }
{
    text.len() % 2 == 0 && text.len() / 2 == n && base_hex::all_digits(text)
}

// The bytes that a text's digits are, high digit first; zeros behind them.
fn state(text: &[u8]) -> [u8; LARGEST]
    ensures { result ≡ state_in text.now }
{
    let mut bytes = [0u8; LARGEST];
    for (i, byte) in bytes.iter_mut().enumerate() {
        *byte = base_hex::digit_at(text, 2 * i) * 16 + base_hex::digit_at(text, 2 * i + 1);
    }
    bytes
}

#[tactic(auto, unfolding(crate::specs::Trial::refusal))]
fn refuse(outcome: Result<(), TrialFault>) -> Trial
    ensures { result ≡ refusal outcome }
{
    let state = [0u8; LARGEST];
    Trial {
        outcome,
        size: 0,
        state,
    }
}

// What a call's answer says of a trial: the size is refused before the rounds, and both before a text that is no state.
fn tell(p: Permuted, n: usize, text: &[u8]) -> Trial
    ensures { result ≡ told p n text.now }
{
    let answer = p.answer;
    let state = p.state;
    if let Err(refusal) = answer {
        return refuse(Err(refusal.into()));
    }
    if !is_state(text, n) {
        return refuse(Err(TrialFault::NoState));
    }
    Trial {
        outcome: Ok(()),
        size: n,
        state,
    }
}

// The permutation of a state, all told in words.
pub fn forth(size: &[u8], rounds: &[u8], text: &[u8]) -> Trial
    ensures { result ≡ tried permute size.now rounds.now text.now }
{
    let Some(n) = read_number(size) else {
        return refuse(Err(TrialFault::NoNumber));
    };
    let Some(k) = read_number(rounds) else {
        return refuse(Err(TrialFault::NoNumber));
    };
    tell(gage_permute::permute(state(text), n, k), n, text)
}

// Its inverse.
pub fn back(size: &[u8], rounds: &[u8], text: &[u8]) -> Trial
    ensures { result ≡ tried unpermute size.now rounds.now text.now }
{
    let Some(n) = read_number(size) else {
        return refuse(Err(TrialFault::NoNumber));
    };
    let Some(k) = read_number(rounds) else {
        return refuse(Err(TrialFault::NoNumber));
    };
    tell(gage_permute::unpermute(state(text), n, k), n, text)
}
