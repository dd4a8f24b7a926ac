// A body to the bytes of a stretch and back (document 01, 'A frame and a stream'), into lent buffers. The promises cite the definitions of the
// crate frame_stuff_spec, specs/Answers.antt.
#![tactic(auto)]

ghost use Rattle.std.specs.Prelude.{◌≡◌, ◌+◌, ◌≤◌, length};
ghost use Rattle.std.proofs.lemmas.List.Edits.{sets};
ghost use Rattle.base_lists.specs.Buffers.{over};
ghost use Rattle.frame_stuff_spec.specs.Stuffing.{stuff_byte, meant, unstuffed};
ghost use Rattle.frame_stuff_spec.specs.Answers.{unstuff_answer, unstuff_out, stuff_answer, stuff_out};

use frame_stuff_spec::{
    ESCAPE, ESCAPED_ESCAPE, ESCAPED_MARK, MARK, StuffRefusal, UnstuffFault, unstuffed_length,
};

// The byte that an escaped one stands for.
fn meaning(b: u8) -> u8
    ensures { result ≡ meant b }
{
    if b == ESCAPED_MARK { MARK } else { ESCAPE }
}

// Writes the unstuffed bytes of s, which out has room for, to the start of out.
fn write_body(s: &[u8], out: &mut [u8])
    requires { length (unstuffed s.now) ≤ length out.old }
    ensures { out.new ≡ over (unstuffed s.now) out.old }
{
    let mut k = 0;
    let mut escaped = false;
    for b in s {
        if escaped {
            out[k] = meaning(*b);
            k += 1;
            escaped = false;
        } else if *b == ESCAPE {
            escaped = true;
        } else {
            out[k] = *b;
            k += 1;
        }
    }
}

// Unstuffs the stretch s to the start of out; the rest of out stays. A refusal leaves out as it was.
#[tactic(auto, unfolding(frame_stuff_spec::specs::Answers::unstuff_answer, frame_stuff_spec::specs::Answers::unstuff_out))]
pub fn unstuff(s: &[u8], out: &mut [u8]) -> Result<usize, UnstuffFault>
    ensures value { result ≡ unstuff_answer s.now out.old }
    ensures out_after { out.new ≡ unstuff_out s.now out.old }
{
    let answer = unstuffed_length(s);
    let Ok(n) = answer else {
        return answer;
    };
    if n > out.len() {
        return Err(UnstuffFault::NoRoom);
    }
    write_body(s, out);
    Ok(n)
}

// Writes the byte b, stuffed, at place k of out, and gives the place behind it.
fn write_byte(out: &mut [u8], k: usize, b: u8) -> usize
    requires { k + 2 ≤ length out.old }
    ensures value { result ≡ k + length (stuff_byte b) }
    ensures out_after { out.new ≡ sets out.old k (stuff_byte b) }
{
    let stands = match b {
        MARK => ESCAPED_MARK,
        ESCAPE => ESCAPED_ESCAPE,
        _ => {
            out[k] = b;
            return k + 1;
        }
    };
    out[k] = ESCAPE;
    out[k + 1] = stands;
    k + 2
}

// Stuffs the body to the start of out; the rest of out stays. A refusal leaves out as it was.
pub fn stuff(body: &[u8], out: &mut [u8]) -> Result<usize, StuffRefusal>
    ensures value { result ≡ stuff_answer body.now out.old }
    ensures out_after { out.new ≡ stuff_out body.now out.old }
{
    if out.len() / 2 < body.len() {
        return Err(StuffRefusal::NoRoom);
    }
    let mut k = 0;
    for b in body {
        k = write_byte(out, k, *b);
    }
    Ok(k)
}
