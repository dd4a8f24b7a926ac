// The fields of a frame's body (document 01, 'A frame and a stream', and order W6): their tags, lengths and places, and bytes judged as a body.
// The promises cite specs/Answers.antt; the paper's words stand in specs/Fields.antt.
#![tactic(auto)]

ghost use Rattle.std.specs.Prelude.{◌≡◌, ◌+◌, ◌*◌, ◌≤◌, [], length, drop};
ghost use Rattle.frame_body.specs.Fields.{high_byte, takes, job_size, own_of, after_job, fields_of};
ghost use Rattle.frame_body.specs.Lengths.{job_field_length};
ghost use Rattle.frame_body.specs.Answers.{Found, judged};

// The fields' tags (document 01; tags are hexadecimal): nonce, font digest, line ciphertext, seal; and the job (order W6).
pub const NONCE_TAG: u8 = 0x01;

pub const DIGEST_TAG: u8 = 0x02;

pub const CIPHER_TAG: u8 = 0x03;

pub const SEAL_TAG: u8 = 0x04;

pub const JOB_TAG: u8 = 0x05;

// The lengths of their values in bytes (document 01); a line ciphertext has SHORTEST_LINE to LONGEST_LINE, as a line has.
pub const NONCE_LENGTH: usize = 12;

pub const DIGEST_LENGTH: usize = 32;

pub const SHORTEST_LINE: usize = 1;

pub const LONGEST_LINE: usize = line_spec::LONGEST;

pub const SEAL_LENGTH: usize = 16;

pub const JOB_LENGTH: usize = 4;

// What stands before a value: a tag of one byte and a length of two.
pub const HEAD_LENGTH: usize = base_fields::HEAD_LENGTH;

// What one in the high byte of a length counts.
pub const HIGH_BYTE: usize = base_fields::HIGH_BYTE;

// Where in a body the nonce stands, the associated data, the font digest, in edition two the job, and in edition one the line ciphertext;
// in edition two that stands so many bytes farther behind as field 05 has.
pub const NONCE_AT: usize = HEAD_LENGTH;

pub const ASSOCIATED_AT: usize = NONCE_AT + NONCE_LENGTH;

pub const DIGEST_AT: usize = ASSOCIATED_AT + HEAD_LENGTH;

pub const JOB_AT: usize = DIGEST_AT + DIGEST_LENGTH + HEAD_LENGTH;

pub const CIPHER_AT: usize = DIGEST_AT + DIGEST_LENGTH + HEAD_LENGTH;

// How long the associated data of edition one is, field 02 whole; edition two has field 05 whole behind it.
pub const ASSOCIATED_LENGTH: usize = HEAD_LENGTH + DIGEST_LENGTH;

pub const LONGEST_ASSOCIATED: usize = ASSOCIATED_LENGTH + HEAD_LENGTH + JOB_LENGTH;

// How many bytes a body of edition one has beside the line ciphertext; and the longest body of all.
pub const BESIDE_CIPHER: usize = CIPHER_AT + HEAD_LENGTH + SEAL_LENGTH;

pub const LONGEST_BODY: usize = BESIDE_CIPHER + HEAD_LENGTH + JOB_LENGTH + LONGEST_LINE;

// Document 01's edition, and the one with a job (order W6).
#[derive(Clone, Copy)]
pub enum Edition {
    One,
    Two,
}

// The decision over the tag byte, which picks the rule of the field: may its value have n bytes?
#[tactic(auto, unfolding(crate::specs::Fields::takes))]
pub fn rule_takes(tag: u8, n: usize) -> bool
    ensures { result ≡ takes tag n }
{
    match tag {
        NONCE_TAG => n == NONCE_LENGTH,
        DIGEST_TAG => n == DIGEST_LENGTH,
        CIPHER_TAG => matches!(n, SHORTEST_LINE..=LONGEST_LINE),
        SEAL_TAG => n == SEAL_LENGTH,
        JOB_TAG => n == JOB_LENGTH,
        _ => false,
    }
}

// How long a job is: edition one has none.
pub fn job_size(edition: Edition) -> usize
    ensures { result ≡ job_size edition }
{
    match edition {
        Edition::One => 0,
        Edition::Two => JOB_LENGTH,
    }
}

// How long field 05 is, which edition one has not: so much longer are its associated data and its body.
pub fn job_field_length(edition: Edition) -> usize
    ensures { result ≡ job_field_length edition }
{
    match edition {
        Edition::One => 0,
        Edition::Two => HEAD_LENGTH + JOB_LENGTH,
    }
}

// The field with this tag at a place of b: the place behind it. Where there is none, a place past the end of b.
fn field_at(b: &[u8], at: usize, tag: u8) -> usize
    requires { at ≤ length b.now + high_byte * high_byte }
    ensures { Found b.now tag at result }
{
    if at + HEAD_LENGTH <= b.len() && b[at] == tag {
        let n = usize::from(u16::from_be_bytes([b[at + 1], b[at + 2]]));
        if rule_takes(b[at], n) {
            return at + HEAD_LENGTH + n;
        }
    }
    b.len() + 1
}

// Judges the bytes from a place on as the line ciphertext's field and the seal's, with nothing behind, of a body of this edition.
fn judge_rest(b: &[u8], at: usize, edition: Edition) -> Option<(Edition, usize)>
    requires { at ≤ length b.now + high_byte * high_byte }
    ensures { result ≡ judged (after_job (own_of edition [] []) [] (drop at b.now)) }
{
    let seal = field_at(b, at, CIPHER_TAG);
    let end = field_at(b, seal, SEAL_TAG);
    if end == b.len() {
        Some((edition, seal - at - HEAD_LENGTH))
    } else {
        None
    }
}

// Judges bytes as a body: the fields in their order and once each, and nothing behind. Where they stand, the edition and the length of the line
// ciphertext, which together give all places. Past the end of b no field stands, so where one is
// missing none is found behind it either; a job that is found makes edition two.
pub fn judge_body(b: &[u8]) -> Option<(Edition, usize)>
    ensures { result ≡ judged (fields_of b.now) }
{
    let digest = field_at(b, 0, NONCE_TAG);
    let behind = field_at(b, digest, DIGEST_TAG);
    let cipher = field_at(b, behind, JOB_TAG);
    if cipher <= b.len() {
        judge_rest(b, cipher, Edition::Two)
    } else {
        judge_rest(b, behind, Edition::One)
    }
}
