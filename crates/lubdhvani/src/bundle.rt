// Glyph bundles. The promises cite specs/Answers.antt and the definitions of `bundle_read` and `bundle_write`.
ghost use Rattle.std.specs.Prelude.{◌≡◌};
ghost use Rattle.bundle_read.specs.Answers as judging;
ghost use Rattle.bundle_write.specs.Answers as bundles;
ghost use Rattle.lubdhvani.specs.Answers.{bundled, judged, part_out};

use crate::answers::{Measured, field};
use bundle_read::BundleFault;
use bundle_write::BundleRefusal;

// Where a part of a bundle stands, and how long it is.
#[repr(C)]
#[derive(Clone, Copy)]
pub struct Part {
    pub first: usize,
    pub length: usize,
}

// The number and the length of what the writer answers.
fn measured_write(answer: Result<usize, BundleRefusal>) -> Measured
    ensures { result ≡ bundled answer }
{
    Measured {
        number: field(bundle_write::write_number(answer)),
        length: bundle_write::write_length(answer),
    }
}

// Of what the reader answers.
fn measured_read(answer: Result<usize, BundleFault>) -> Measured
    ensures { result ≡ judged answer }
{
    Measured {
        number: field(bundle_write::read_number(answer)),
        length: bundle_write::read_length(answer),
    }
}

// A part, for C.
fn part_of(part: bundle_write::Part) -> Part
    ensures { result ≡ part_out part }
{
    Part {
        first: part.first,
        length: part.length,
    }
}

// Writes the bundle of a name and rows.
pub fn lubdhvani_bundle_write(name: &[u8], rows: &[u8], bundle: &mut [u8]) -> Measured
    ensures value { result ≡ bundled (bundles.write_answer name.now rows.now bundle.old) }
    ensures bundle_after { bundle.new ≡ bundles.write_out name.now rows.now bundle.old }
{
    measured_write(bundle_write::write(name, rows, bundle))
}

// Judges bytes as a bundle.
pub fn lubdhvani_bundle_read(bundle: &[u8]) -> Measured
    ensures { result ≡ judged (judging.read_answer bundle.now) }
{
    measured_read(bundle_read::read(bundle))
}

// The font digest of a bundle.
pub fn lubdhvani_bundle_digest(bundle: &[u8], out: &mut [u8]) -> u32
    ensures value { result ≡ bundles.digest_number (bundles.digest_answer bundle.now out.old) }
    ensures out_after { out.new ≡ bundles.digest_out bundle.now out.old }
{
    bundle_write::digest_number(bundle_write::digest_of(bundle, out))
}

// Where the name of a bundle stands.
pub fn lubdhvani_bundle_name(bundle: &[u8]) -> Part
    ensures { result ≡ part_out (bundles.name_part bundle.now) }
{
    part_of(bundle_write::name_part(bundle))
}

// Where the rows of a character stand in a bundle.
pub fn lubdhvani_bundle_rows(bundle: &[u8], character: u8) -> Part
    ensures { result ≡ part_out (bundles.rows_part bundle.now character) }
{
    part_of(bundle_write::rows_part(bundle, character))
}
