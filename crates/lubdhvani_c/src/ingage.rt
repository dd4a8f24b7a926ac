// Sealing and opening at an instance.
ghost use Rattle.std.specs.Prelude.{◌≡◌};
ghost use Rattle.ingage_spec.specs.Instances.{named};
ghost use Rattle.ingage_answers.specs.Answers.{seal_named, open_named};
ghost use Rattle.lubdhvani.specs.Answers.{sealed, opened};

use lubdhvani::answers::Counted;

// Seals a message at an instance.
#[unsafe(no_mangle)]
pub extern "C" fn lubdhvani_seal(
    instance: usize,
    key: &[u8],
    nonce: &[u8],
    associated: &[u8],
    message: &[u8],
    out: &mut [u8],
    seal: &mut [u8],
) -> Counted
    ensures value { result ≡ sealed (seal_named (named instance) key.now nonce.now associated.now message.now
        out.old seal.old).answer }
    ensures out_after { out.new ≡ (seal_named (named instance) key.now nonce.now associated.now message.now
        out.old seal.old).out }
    ensures seal_after { seal.new ≡ (seal_named (named instance) key.now nonce.now associated.now message.now
        out.old seal.old).seal }
{
    lubdhvani::ingage::lubdhvani_seal(instance, key, nonce, associated, message, out, seal)
}

// Opens a ciphertext at an instance.
#[unsafe(no_mangle)]
pub extern "C" fn lubdhvani_open(
    instance: usize,
    key: &[u8],
    nonce: &[u8],
    associated: &[u8],
    cipher: &[u8],
    seal: &[u8],
    out: &mut [u8],
) -> Counted
    ensures value { result ≡ opened (open_named (named instance) key.now nonce.now associated.now cipher.now
        seal.now out.old).answer }
    ensures out_after { out.new ≡ (open_named (named instance) key.now nonce.now associated.now cipher.now
        seal.now out.old).out }
{
    lubdhvani::ingage::lubdhvani_open(instance, key, nonce, associated, cipher, seal, out)
}
