// The permutation and its inverse.
ghost use Rattle.std.specs.Prelude.{◌≡◌, length};
ghost use Rattle.gage_spec.specs.Permutation.{permute, unpermute};
ghost use Rattle.lubdhvani.specs.Calls.{permute_number, permute_state};

// So many rounds of the permutation on a state where it stands.
#[unsafe(no_mangle)]
pub extern "C" fn lubdhvani_permute(state: &mut [u8], rounds: usize) -> u32
    ensures value { result ≡ permute_number (length state.old) rounds }
    ensures state_after { state.new ≡ permute_state permute state.old rounds }
{
    lubdhvani::gage::lubdhvani_permute(state, rounds)
}

// Their inverse.
#[unsafe(no_mangle)]
pub extern "C" fn lubdhvani_unpermute(state: &mut [u8], rounds: usize) -> u32
    ensures value { result ≡ permute_number (length state.old) rounds }
    ensures state_after { state.new ≡ permute_state unpermute state.old rounds }
{
    lubdhvani::gage::lubdhvani_unpermute(state, rounds)
}
