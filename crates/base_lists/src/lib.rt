// Small helpers on byte slices: copy, compare, clear. Each takes every input.
// Their promises cite specs/Buffers.antt; laws that other crates cite stand beside it.
#![tactic(auto)]

ghost use Rattle.std.specs.Prelude.{◌≡◌, length};
ghost use Rattle.base_lists.specs.Buffers.{copied, cleared, same};

// Copies src to the start of out, as much of it as fits; the rest of out stays.
pub fn copy(src: &[u8], out: &mut [u8])
    ensures { out.new ≡ copied src.now out.old }
{
    let n = src.len().min(out.len());
    out[..n].copy_from_slice(&src[..n]);
}

// Clears the first n bytes of out, or all of them where it has fewer; the rest stays.
pub fn clear(out: &mut [u8], n: usize)
    ensures { out.new ≡ cleared n out.old }
{
    let end = n.min(out.len());
    out[..end].fill(0);
}

// Whether a and b, of one length, differ nowhere; every byte is looked at.
fn same_bytes(a: &[u8], b: &[u8]) -> bool
    requires { length a.now ≡ length b.now }
    ensures { result ≡ same a.now b.now }
{
    let mut equal = true;
    for (x, y) in a.iter().zip(b) {
        if x != y {
            equal = false;
        }
    }
    equal
}

// Whether a and b are the same bytes. Bytes of equal length are compared to the end, without leaving early.
pub fn compare(a: &[u8], b: &[u8]) -> bool
    ensures { result ≡ same a.now b.now }
{
    a.len() == b.len() && same_bytes(a, b)
}
