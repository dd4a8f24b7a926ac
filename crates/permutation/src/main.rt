// So many rounds of the permutation on a state given in hexadecimal, or their inverse: `permutation SIZE ROUNDS STATE` and
// `permutation back SIZE ROUNDS STATE`. Only bytes are moved here; what the words mean, and what becomes of them, is decided by `tool_trial`.
#![tactic(auto)]

use gage_spec::LARGEST;
use std::rt::Env;
use tool_trial::{Trial, TrialFault};

// The longest word that is looked at: a longer one counts as empty.
const WORD: usize = 256;

// Two digits a byte and a newline.
const ROW: usize = 2 * LARGEST + 1;

const NEWLINE: u8 = 0x0A;

// The words of the way there, the program's own name among them; those of the way back have one more.
const THERE: usize = 4;

const BACK: usize = 5;

fn complain(rt: &impl Eprint, text: &str) {
    let _ = rt.eprint(text);
}

fn usage(rt: &impl Eprint) {
    complain(
        rt,
        "usage: permutation [back] SIZE ROUNDS STATE (SIZE in bytes, ROUNDS from 1 to 255, STATE in hexadecimal)\n",
    );
}

// The digits of a state with a newline behind those of its first n bytes.
fn row(state: [u8; LARGEST], n: usize) -> [u8; ROW] {
    let mut digits = [0u8; ROW];
    base_hex::put_hex(&state, &mut digits);
    if n <= LARGEST {
        digits[2 * n] = NEWLINE;
    }
    digits
}

// The first n bytes of a state, written at once.
fn print(rt: &(impl Print + Eprint), state: [u8; LARGEST], n: usize) {
    let digits = row(state, n);
    // Never: every permitted size is at most the largest.
    if n > LARGEST {
        return;
    }
    if rt.write_all(&digits[0..2 * n + 1]).is_err() {
        complain(rt, "permutation: not written whole\n");
    }
}

// The number of a refusal, and why.
fn refused(rt: &impl Eprint, number: u32, why: &str) {
    complain(rt, "refused ");
    let _ = rt.eprint(number);
    complain(rt, why);
}

fn say(rt: &(impl Print + Eprint), trial: Trial) {
    let outcome = trial.outcome;
    let number = tool_trial::outcome_number(outcome);
    let state = trial.state;
    match outcome {
        Ok(()) => print(rt, state, trial.size),
        Err(TrialFault::Size) => refused(rt, number, ": the size is not permitted\n"),
        Err(TrialFault::Rounds) => refused(rt, number, ": the rounds are not 1 to 255\n"),
        Err(TrialFault::NoNumber) => usage(rt),
        Err(TrialFault::NoState) => complain(
            rt,
            "no state: two hexadecimal digits for each byte of the size\n",
        ),
    }
}

// The trial that the three words at these places ask for.
fn run(rt: &(impl Env + Print + Eprint), first: usize, second: usize, third: usize, back: bool) {
    let mut size = [0u8; WORD];
    let mut rounds = [0u8; WORD];
    let mut state = [0u8; WORD];
    let a = tool_files::word_at(rt, first, &mut size);
    let b = tool_files::word_at(rt, second, &mut rounds);
    let c = tool_files::word_at(rt, third, &mut state);
    // Never: no word is longer than its buffer.
    if a > WORD {
        return;
    }
    if b > WORD {
        return;
    }
    if c > WORD {
        return;
    }
    if back {
        say(
            rt,
            tool_trial::back(&size[0..a], &rounds[0..b], &state[0..c]),
        );
    } else {
        say(
            rt,
            tool_trial::forth(&size[0..a], &rounds[0..b], &state[0..c]),
        );
    }
}

fn main(rt: HostRuntime) {
    let words = tool_files::word_count(&rt);
    if words == THERE {
        run(&rt, 1, 2, 3, false);
        return;
    }
    if words != BACK {
        usage(&rt);
        return;
    }
    let mut word = [0u8; WORD];
    let n = tool_files::word_at(&rt, 1, &mut word);
    // Never: no word is longer than its buffer.
    if n > WORD {
        return;
    }
    if tool_trial::is_back(&word[0..n]) {
        run(&rt, 2, 3, 4, true);
    } else {
        usage(&rt);
    }
}
