// Glyph bundles.
ghost use Rattle.std.specs.Prelude.{◌≡◌};
ghost use Rattle.bundle_read.specs.Answers as judging;
ghost use Rattle.bundle_write.specs.Answers as bundles;
ghost use Rattle.lubdhvani.specs.Answers.{bundled, judged, part_out};

use lubdhvani::answers::Measured;
use lubdhvani::bundle::Part;

// Writes the bundle of a name and rows.
#[unsafe(no_mangle)]
pub extern "C" fn lubdhvani_bundle_write(name: &[u8], rows: &[u8], bundle: &mut [u8]) -> Measured
    ensures value { result ≡ bundled (bundles.write_answer name.now rows.now bundle.old) }
    ensures bundle_after { bundle.new ≡ bundles.write_out name.now rows.now bundle.old }
{
    lubdhvani::bundle::lubdhvani_bundle_write(name, rows, bundle)
}

// Judges bytes as a bundle.
#[unsafe(no_mangle)]
pub extern "C" fn lubdhvani_bundle_read(bundle: &[u8]) -> Measured
    ensures { result ≡ judged (judging.read_answer bundle.now) }
{
    lubdhvani::bundle::lubdhvani_bundle_read(bundle)
}

// The font digest of a bundle.
#[unsafe(no_mangle)]
pub extern "C" fn lubdhvani_bundle_digest(bundle: &[u8], out: &mut [u8]) -> u32
    ensures value { result ≡ bundles.digest_number (bundles.digest_answer bundle.now out.old) }
    ensures out_after { out.new ≡ bundles.digest_out bundle.now out.old }
{
    lubdhvani::bundle::lubdhvani_bundle_digest(bundle, out)
}

// Where the name of a bundle stands.
#[unsafe(no_mangle)]
pub extern "C" fn lubdhvani_bundle_name(bundle: &[u8]) -> Part
    ensures { result ≡ part_out (bundles.name_part bundle.now) }
{
    lubdhvani::bundle::lubdhvani_bundle_name(bundle)
}

// Where the rows of a character stand in a bundle.
#[unsafe(no_mangle)]
pub extern "C" fn lubdhvani_bundle_rows(bundle: &[u8], character: u8) -> Part
    ensures { result ≡ part_out (bundles.rows_part bundle.now character) }
{
    lubdhvani::bundle::lubdhvani_bundle_rows(bundle, character)
}
