// The ten GAGE digests (document 000, section 1.1.4; document 01, 'The digest'): the call, with its refusals and its count. The sponge is the
// crate digest_sponge. The promises cite specs/Answers.antt.
#![tactic(auto)]

ghost use Rattle.std.specs.Prelude.{◌≡◌};
ghost use Rattle.digest_call.specs.Answers.{digest_answer, digest_out, digest_number, count_of};

// The bytes of a digest, and the longest message in bytes (document 01, 'Numbers returned').
pub const DIGEST: usize = digest_sponge::DIGEST;

pub const LONGEST_MESSAGE: usize = 65536;

// Why a digest is refused: an unknown instance, a message too long, no room for the digest. One that is given counts the calls of the permutation.
#[derive(Clone, Copy)]
pub enum DigestRefusal {
    Instance,
    TooLong,
    NoRoom,
}

// The digest of a message over the first 32 bytes of out; the rest of out stays, and all of it on a refusal.
pub fn digest(instance: usize, message: &[u8], out: &mut [u8]) -> Result<usize, DigestRefusal>
    ensures { (result ≡ digest_answer instance message.now out.old)
        × (out.new ≡ digest_out instance message.now out.old) }
{
    if digest_sponge::is_unknown(instance) {
        return Err(DigestRefusal::Instance);
    }
    if message.len() > LONGEST_MESSAGE {
        return Err(DigestRefusal::TooLong);
    }
    if out.len() < DIGEST {
        return Err(DigestRefusal::NoRoom);
    }
    let shape = digest_sponge::sponge_of(instance);
    let rate = shape.rate;
    let hash = digest_sponge::hash(instance, message);
    base_lists::copy(&hash, out);
    Ok(message.len() / rate + 1 + shape.outputs)
}

// What a refusal counts.
const NO_CALLS: usize = 0;

// The number of what `digest` answers.
pub fn digest_number(answer: Result<usize, DigestRefusal>) -> u32
    ensures { result ≡ digest_number answer }
{
    match answer {
        Ok(_) => 0,
        Err(DigestRefusal::Instance) => 1,
        Err(DigestRefusal::TooLong) => 3,
        Err(DigestRefusal::NoRoom) => 4,
    }
}

// The count of what `digest` answers.
pub fn digest_count(answer: Result<usize, DigestRefusal>) -> usize
    ensures { result ≡ count_of answer }
{
    answer.unwrap_or(NO_CALLS)
}
