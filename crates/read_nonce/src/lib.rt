// The nonce of a stretch (beyond the orders): who reads can tie a line to its order by it, and see a frame that was sent twice. Nothing is told and no
// seal is looked at. The promises cite specs/Nonces.antt.
#![tactic(auto)]

ghost use Rattle.std.specs.Prelude.{◌≡◌, ◌+◌, ◌≤◌, length, take, drop};
ghost use Rattle.frame_body.specs.Fields.{nonce_length, fields_of};
ghost use Rattle.frame_body.specs.Places.{nonce_at};
ghost use Rattle.read_nonce.specs.Nonces.{no_nonce, of_fields, nonce_answer};

use frame_body::{NONCE_AT, NONCE_LENGTH, judge_body};
use frame_stuff::unstuff;
use frame_stuff_spec::LONGEST_STRETCH;

// Whether a stretch holds the fields of a body (1 or 0), of whatever edition, and their nonce; zeros where it holds none. It has no padding.
#[repr(C)]
#[derive(Clone, Copy)]
pub struct Nonce {
    pub found: u32,
    pub bytes: [u8; NONCE_LENGTH],
}

const NONE: u32 = 0;

const FOUND: u32 = 1;

fn none() -> Nonce
    ensures { result ≡ no_nonce }
{
    Nonce {
        found: NONE,
        bytes: [0u8; NONCE_LENGTH],
    }
}

// The bytes of a body that are its nonce.
fn nonce_part(body: &[u8]) -> [u8; NONCE_LENGTH]
    requires { nonce_at + nonce_length ≤ length body.now }
    ensures { result ≡ take nonce_length (drop nonce_at body.now) }
{
    let mut bytes = [0u8; NONCE_LENGTH];
    base_lists::copy(&body[NONCE_AT..NONCE_AT + NONCE_LENGTH], &mut bytes);
    bytes
}

// The nonce of a body's fields.
fn in_body(body: &[u8]) -> Nonce
    ensures { result ≡ of_fields (fields_of body.now) }
{
    match judge_body(body) {
        None => none(),
        Some(_) => Nonce {
            found: FOUND,
            bytes: nonce_part(body),
        },
    }
}

// The nonce of a stretch that is handed in, what stands between two marks.
pub fn nonce_of(stretch: &[u8]) -> Nonce
    ensures { result ≡ nonce_answer stretch.now }
{
    let mut body = [0u8; LONGEST_STRETCH];
    // A stretch that is refused holds no body, for the body has room for the longest.
    let Ok(n) = unstuff(stretch, &mut body) else {
        return none();
    };
    in_body(&body[..n])
}
