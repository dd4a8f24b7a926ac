// What a program makes of the key and the font that it was told, from what was loaded of them: how the load ended, how many bytes, and
// the buffer. Nothing here touches the system; `tool_files` loads. The promises cite specs/Told.antt.
#![tactic(auto)]

ghost use Rattle.std.specs.Prelude.{◌≡◌};
ghost use Rattle.tool_key_font.specs.Told.{is_key, is_font, font_out};

use frame_spec::KEY_LENGTH;
use tool_files::LoadFault;

// Fonts are digested with this hash instance (document 01, 'The listing program').
pub const FONT_INSTANCE: usize = 1;

// Whether what was loaded is a key: whole, with exactly as many bytes as a key has.
pub fn is_key(loaded: Result<usize, LoadFault>) -> bool
    ensures { result ≡ is_key loaded }
{
    match loaded {
        Ok(n) => n == KEY_LENGTH,
        Err(_) => false,
    }
}

// The digest of the bytes loaded into a buffer, over the start of another; false, and that buffer as it was, where they are no font that the
// buffer holds, or the digest has no room.
pub fn digest_font(loaded: Result<usize, LoadFault>, buffer: &[u8], digest: &mut [u8]) -> bool
    ensures { (result ≡ is_font loaded buffer.now digest.old)
        × (digest.new ≡ font_out loaded buffer.now digest.old) }
{
    let Ok(n) = tool_files::held(loaded, buffer.len()) else {
        return false;
    };
    digest_call::digest(FONT_INSTANCE, &buffer[0..n], digest).is_ok()
}
