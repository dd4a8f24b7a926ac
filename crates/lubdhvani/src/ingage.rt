// Sealing and opening at an instance. The promises cite specs/Answers.antt and the definitions of `ingage_answers`.
ghost use Rattle.std.specs.Prelude.{◌≡◌};
ghost use Rattle.ingage_spec.specs.Instances.{named};
ghost use Rattle.ingage_answers.specs.Answers.{seal_named, open_named};
ghost use Rattle.lubdhvani.specs.Answers.{sealed, opened};

use crate::answers::{Counted, field};
use ingage_answers::{OpenRefusal, SealRefusal, open_count, open_number, seal_count, seal_number};

// The number and the count of what a sealing answers.
fn counted_seal(answer: Result<usize, SealRefusal>) -> Counted
    ensures { result ≡ sealed answer }
{
    Counted {
        number: field(seal_number(answer)),
        calls: seal_count(answer),
    }
}

// Of what an opening answers.
fn counted_open(answer: Result<usize, OpenRefusal>) -> Counted
    ensures { result ≡ opened answer }
{
    Counted {
        number: field(open_number(answer)),
        calls: open_count(answer),
    }
}

// Seals a message at an instance.
pub fn lubdhvani_seal(
    instance: usize,
    key: &[u8],
    nonce: &[u8],
    associated: &[u8],
    message: &[u8],
    out: &mut [u8],
    seal: &mut [u8],
) -> Counted
    ensures value { result ≡ sealed (seal_named (named instance) key.now nonce.now associated.now message.now
        out.old seal.old).answer }
    ensures out_after { out.new ≡ (seal_named (named instance) key.now nonce.now associated.now message.now
        out.old seal.old).out }
    ensures seal_after { seal.new ≡ (seal_named (named instance) key.now nonce.now associated.now message.now
        out.old seal.old).seal }
{
    counted_seal(ingage_call::seal(instance, key, nonce, associated, message, out, seal))
}

// Opens a ciphertext at an instance.
pub fn lubdhvani_open(
    instance: usize,
    key: &[u8],
    nonce: &[u8],
    associated: &[u8],
    cipher: &[u8],
    seal: &[u8],
    out: &mut [u8],
) -> Counted
    ensures value { result ≡ opened (open_named (named instance) key.now nonce.now associated.now cipher.now
        seal.now out.old).answer }
    ensures out_after { out.new ≡ (open_named (named instance) key.now nonce.now associated.now cipher.now
        seal.now out.old).out }
{
    counted_open(ingage_call::open(instance, key, nonce, associated, cipher, seal, out))
}
