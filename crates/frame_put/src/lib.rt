// Bodies and associated data written (document 01, 'A frame and a stream', and order W6): fields laid one behind the other into a lent buffer.
// The promises cite specs/Answers.antt; what a field is stands in fields.
#![tactic(auto)]

ghost use Rattle.std.specs.Prelude.{◌≡◌, ◌++◌, ◌+◌, ◌≤◌, length};
ghost use Rattle.std.proofs.lemmas.List.Edits.{sets};
ghost use Rattle.frame_body.specs.Fields.{digest_length, job_size, own_of, associated};
ghost use Rattle.frame_put.specs.Answers.{fitting_associated, fitting, put_answer, put_out, associated_answer, associated_out};

use base_fields::put_field;
use frame_body::{
    ASSOCIATED_LENGTH, BESIDE_CIPHER, CIPHER_TAG, DIGEST_TAG, Edition, JOB_TAG, NONCE_TAG,
    SEAL_TAG, job_field_length, rule_takes,
};

// Why a body is not written.
#[derive(Clone, Copy)]
pub enum PutRefusal {
    // A value with a length that its tag's rule doesn't take, or a job in edition one.
    Shape,
    // A buffer shorter than the body.
    NoRoom,
}

// Whether digest and job have lengths that their tags' rules take; edition one has no job.
#[tactic(auto, unfolding(crate::specs::Answers::fitting_associated))]
fn fit_associated(edition: Edition, digest: &[u8], job: &[u8]) -> bool
    ensures { result ≡ fitting_associated edition digest.now job.now }
{
    rule_takes(DIGEST_TAG, digest.len())
        && match edition {
            Edition::One => job.is_empty(),
            Edition::Two => rule_takes(JOB_TAG, job.len()),
        }
}

// Whether each value has a length that its tag's rule takes.
#[tactic(auto, unfolding(crate::specs::Answers::fitting))]
fn fit(
    edition: Edition,
    nonce: &[u8],
    digest: &[u8],
    job: &[u8],
    cipher: &[u8],
    seal: &[u8],
) -> bool
    ensures { result ≡ fitting (own_of edition nonce.now job.now) digest.now cipher.now seal.now }
{
    rule_takes(NONCE_TAG, nonce.len())
        && fit_associated(edition, digest, job)
        && rule_takes(CIPHER_TAG, cipher.len())
        && rule_takes(SEAL_TAG, seal.len())
}

// Writes field 02, and in edition two field 05 behind it, at a place of out that has room, and gives the place behind.
fn lay_associated(out: &mut [u8], at: usize, edition: Edition, digest: &[u8], job: &[u8]) -> usize
    requires job_in_bounds { at + length (associated edition digest.now job.now) ≤ length out.old }
    requires digest_len { (length digest.now ≡ digest_length) × (length job.now ≡ job_size edition) }
    ensures value { result ≡ at + length (associated edition digest.now job.now) }
    ensures out_after { out.new ≡ sets out.old at (associated edition digest.now job.now) }
{
    let job_at = put_field(out, at, DIGEST_TAG, digest);
    match edition {
        Edition::One => job_at,
        Edition::Two => put_field(out, job_at, JOB_TAG, job),
    }
}

// Writes the body with these values to the start of out; the rest of out stays. A refusal leaves out as it was.
pub fn put_body(
    edition: Edition,
    nonce: &[u8],
    digest: &[u8],
    job: &[u8],
    cipher: &[u8],
    seal: &[u8],
    out: &mut [u8],
) -> Result<usize, PutRefusal>
    ensures value { result ≡ put_answer (own_of edition nonce.now job.now) digest.now cipher.now seal.now
        out.old }
    ensures out_after { out.new ≡ put_out (own_of edition nonce.now job.now) digest.now cipher.now
        seal.now out.old }
{
    if !fit(edition, nonce, digest, job, cipher, seal) {
        return Err(PutRefusal::Shape);
    }
    if out.len() < BESIDE_CIPHER + job_field_length(edition) + cipher.len() {
        return Err(PutRefusal::NoRoom);
    }
    let digest_at = put_field(out, 0, NONCE_TAG, nonce);
    let cipher_at = lay_associated(out, digest_at, edition, digest, job);
    let seal_at = put_field(out, cipher_at, CIPHER_TAG, cipher);
    let end = put_field(out, seal_at, SEAL_TAG, seal);
    Ok(end)
}

// Writes the associated data, field 02 whole and in edition two field 05 whole behind it, to the start of out; the rest of out stays. A
// refusal leaves out as it was.
pub fn put_associated(
    edition: Edition,
    digest: &[u8],
    job: &[u8],
    out: &mut [u8],
) -> Result<usize, PutRefusal>
    ensures value { result ≡ associated_answer edition digest.now job.now out.old }
    ensures out_after { out.new ≡ associated_out edition digest.now job.now out.old }
{
    if !fit_associated(edition, digest, job) {
        return Err(PutRefusal::Shape);
    }
    if out.len() < ASSOCIATED_LENGTH + job_field_length(edition) {
        return Err(PutRefusal::NoRoom);
    }
    Ok(lay_associated(out, 0, edition, digest, job))
}
