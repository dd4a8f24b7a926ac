// The digest of a message at once. The promises cite specs/Answers.antt and the definitions of `digest_call`.
ghost use Rattle.std.specs.Prelude.{◌≡◌};
ghost use Rattle.digest_call.specs.Answers.{digest_answer, digest_out};
ghost use Rattle.lubdhvani.specs.Answers.{digested};

use crate::answers::{Counted, field};
use digest_call::{DigestRefusal, digest_count, digest_number};

// The number and the count of what a digest answers.
fn counted(answer: Result<usize, DigestRefusal>) -> Counted
    ensures { result ≡ digested answer }
{
    Counted {
        number: field(digest_number(answer)),
        calls: digest_count(answer),
    }
}

// The digest of a message.
pub fn lubdhvani_digest(instance: usize, message: &[u8], out: &mut [u8]) -> Counted
    ensures value { result ≡ digested (digest_answer instance message.now out.old) }
    ensures out_after { out.new ≡ digest_out instance message.now out.old }
{
    counted(digest_call::digest(instance, message, out))
}
