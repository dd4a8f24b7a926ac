// The digest of a message at once.
ghost use Rattle.std.specs.Prelude.{◌≡◌};
ghost use Rattle.digest_call.specs.Answers.{digest_answer, digest_out};
ghost use Rattle.lubdhvani.specs.Answers.{digested};

use lubdhvani::answers::Counted;

// The digest of a message.
#[unsafe(no_mangle)]
pub extern "C" fn lubdhvani_digest(instance: usize, message: &[u8], out: &mut [u8]) -> Counted
    ensures value { result ≡ digested (digest_answer instance message.now out.old) }
    ensures out_after { out.new ≡ digest_out instance message.now out.old }
{
    lubdhvani::digest::lubdhvani_digest(instance, message, out)
}
