// InGAGE's cipher (document 000, section 2.1; document 01, 'The cipher'): seal and open, at each instance of the crate cipher's table. The
// texts are passed by the module texts, and the steps between them are the crate ingage_steps. The promises cite the definitions of the crates
// sealing and cipher.
#![tactic(auto)]

mod texts;

ghost use Rattle.std.specs.Prelude.{◌≡◌};
ghost use Rattle.ingage_spec.specs.Instances.{named};
ghost use Rattle.ingage_answers.specs.Answers.{sized, seal_named, open_named};

use ingage_answers::{OpenRefusal, SealRefusal, is_too_long};
use ingage_spec::Instance;
use texts::{Cipher, Way};

// Whether key, nonce and seal have the instance's sizes.
fn is_sized(z: Instance, key: usize, nonce: usize, seal: usize) -> bool
    ensures { result ≡ sized z key nonce seal }
{
    if key != z.key {
        return false;
    }
    if nonce != z.nonce {
        return false;
    }
    seal == z.seal
}

// Seals a message at an instance: the ciphertext goes over the start of out, the seal into its own buffer, which it fills.
// A refusal writes nothing.
pub fn seal(
    instance: usize,
    key: &[u8],
    nonce: &[u8],
    assoc: &[u8],
    message: &[u8],
    out: &mut [u8],
    seal: &mut [u8],
) -> Result<usize, SealRefusal>
    ensures answer { result ≡ (seal_named (named instance) key.now nonce.now assoc.now message.now
        out.old seal.old).answer }
    ensures ciphertext { out.new ≡ (seal_named (named instance) key.now nonce.now assoc.now
        message.now out.old seal.old).out }
    ensures seal { seal.new ≡ (seal_named (named instance) key.now nonce.now assoc.now message.now
        out.old seal.old).seal }
{
    let Some(z) = ingage_table::sizes_of(instance) else {
        return Err(SealRefusal::Instance);
    };
    if !is_sized(z, key.len(), nonce.len(), seal.len()) {
        return Err(SealRefusal::Sizes);
    }
    if is_too_long(assoc.len(), message.len()) {
        return Err(SealRefusal::TooLong);
    }
    if out.len() < message.len() {
        return Err(SealRefusal::NoRoom);
    }
    let sealer = Cipher { z };
    let s = sealer.begin(key, nonce, assoc);
    let e = sealer.pass(s, Way::Encrypt, message, out);
    let f = sealer.finish(e);
    base_lists::copy(sealer.seal_of(&f), seal);
    Ok(ingage_answers::calls(z, assoc.len(), message.len()))
}

// Opens a ciphertext at an instance: where its seal is the one worked out, the message goes over the start of out; where it is not, as many bytes of
// out as the ciphertext has are zero. Other refusals write nothing.
pub fn open(
    instance: usize,
    key: &[u8],
    nonce: &[u8],
    assoc: &[u8],
    cipher: &[u8],
    seal: &[u8],
    out: &mut [u8],
) -> Result<usize, OpenRefusal>
    ensures answer { result ≡ (open_named (named instance) key.now nonce.now assoc.now cipher.now
        seal.now out.old).answer }
    ensures message { out.new ≡ (open_named (named instance) key.now nonce.now assoc.now cipher.now
        seal.now out.old).out }
{
    let Some(z) = ingage_table::sizes_of(instance) else {
        return Err(OpenRefusal::Instance);
    };
    if !is_sized(z, key.len(), nonce.len(), seal.len()) {
        return Err(OpenRefusal::Sizes);
    }
    if is_too_long(assoc.len(), cipher.len()) {
        return Err(OpenRefusal::TooLong);
    }
    if out.len() < cipher.len() {
        return Err(OpenRefusal::NoRoom);
    }
    let count = ingage_answers::calls(z, assoc.len(), cipher.len());
    let opener = Cipher { z };
    let s = opener.begin(key, nonce, assoc);
    let d = opener.pass(s, Way::Decrypt, cipher, out);
    let f = opener.finish(d);
    if !base_lists::compare(opener.seal_of(&f), seal) {
        base_lists::clear(out, cipher.len());
        return Err(OpenRefusal::Seal(count));
    }
    Ok(count)
}
