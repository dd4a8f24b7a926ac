// A field written into a lent buffer (document 01, 'A frame and a stream'): a tag, a length of two bytes, the high one first, and the value.
// Frames and glyph bundles are made of fields. The promises cite specs/Fields.antt.
#![tactic(auto)]

ghost use Rattle.std.specs.Prelude.{◌≡◌, ◌+◌, ◌*◌, ◌≤◌, ◌<◌, length};
ghost use Rattle.std.proofs.lemmas.List.Edits.{sets};
ghost use Rattle.base_fields.specs.Fields.{high_byte, field, field_end, field_out};

// What stands before a value: a tag of one byte and a length of two.
pub const HEAD_LENGTH: usize = 3;

// What one in the high byte of a length counts.
pub const HIGH_BYTE: usize = 256;

// The field at a place of out that has room for it, and the place behind it.
fn lay(out: &mut [u8], at: usize, tag: u8, value: &[u8]) -> usize
    requires value_in_bounds { at + length (field tag value.now) ≤ length out.old }
    requires value_len_bound { length value.now < high_byte * high_byte }
    ensures value { result ≡ at + length (field tag value.now) }
    ensures out_after { out.new ≡ sets out.old at (field tag value.now) }
{
    let [high, low] = (value.len() as u16).to_be_bytes();
    let start = at + HEAD_LENGTH;
    let end = start + value.len();
    out[at..start].copy_from_slice(&[tag, high, low]);
    out[start..end].copy_from_slice(value);
    end
}

// Writes the field at a place of out, and gives the place behind it. Where out has no room for it there, or the value is longer than two
// bytes can say, nothing is written and the place is given back.
pub fn put_field(out: &mut [u8], at: usize, tag: u8, value: &[u8]) -> usize
    ensures value { result ≡ field_end out.old at tag value.now }
    ensures out_after { out.new ≡ field_out out.old at tag value.now }
{
    let whole = HEAD_LENGTH + value.len();
    if value.len() >= HIGH_BYTE * HIGH_BYTE || out.len() < whole || out.len() - whole < at {
        return at;
    }
    lay(out, at, tag, value)
}
