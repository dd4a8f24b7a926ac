// Bytes of one lent buffer over the start of another. Copied in one go they would take `memmove` where both buffers are the caller's, and the archives for C
// ask for `memcpy` and `memset` alone: so they go one by one. The promise cites base_lists/specs/Buffers.antt.
#![tactic(auto)]

ghost use Rattle.std.specs.Prelude.{◌≡◌};
ghost use Rattle.base_lists.specs.Buffers.{copied};

// Copies src to the start of out, as much of it as fits; the rest of out stays.
pub fn copy(src: &[u8], out: &mut [u8])
    ensures { out.new ≡ copied src.now out.old }
{
    for i in 0..src.len().min(out.len()) {
        out[i] = src[i];
    }
}
