// The permutation and its inverse, on a state where it stands. The promises cite specs/Calls.antt.
ghost use Rattle.std.specs.Prelude.{◌≡◌, length, replicate};
ghost use Rattle.base_lists.specs.Buffers.{copied};
ghost use Rattle.gage_cells.specs.Sizes.{LARGEST};
ghost use Rattle.gage_spec.specs.Permutation.{permute, unpermute};
ghost use Rattle.lubdhvani.specs.Calls.{permute_number, permute_state};

use gage_spec::{LARGEST, PermuteRefusal};

// A state of at most LARGEST bytes at the start of a whole one.
fn widened(state: &[u8]) -> [u8; LARGEST]
    ensures { result ≡ copied state.now (replicate LARGEST 0) }
{
    let mut s = [0u8; LARGEST];
    base_lists::copy(state, &mut s);
    s
}

// So many rounds of the permutation on a state where it stands.
pub fn lubdhvani_permute(state: &mut [u8], rounds: usize) -> u32
    ensures value { result ≡ permute_number (length state.old) rounds }
    ensures state_after { state.new ≡ permute_state permute state.old rounds }
{
    let n = state.len();
    if n > LARGEST {
        return gage_spec::number(Err(PermuteRefusal::Size));
    }
    let r = gage_permute::permute(widened(state), n, rounds);
    let permuted = r.state;
    let answer = r.answer;
    base_lists::copy(&permuted, state);
    gage_spec::number(answer)
}

// Their inverse.
pub fn lubdhvani_unpermute(state: &mut [u8], rounds: usize) -> u32
    ensures value { result ≡ permute_number (length state.old) rounds }
    ensures state_after { state.new ≡ permute_state unpermute state.old rounds }
{
    let n = state.len();
    if n > LARGEST {
        return gage_spec::number(Err(PermuteRefusal::Size));
    }
    let r = gage_permute::unpermute(widened(state), n, rounds);
    let permuted = r.state;
    let answer = r.answer;
    base_lists::copy(&permuted, state);
    gage_spec::number(answer)
}
