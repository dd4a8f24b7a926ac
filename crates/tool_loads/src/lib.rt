// What `lines` says in place of a listing (document 01, 'The listing program'), by how the loads of key, font and stream ended. Nothing here touches the
// system. The promise cites specs/Said.antt; that a font has its digest exactly where it is none of what is said stands in specs/Fonts.antt.
#![tactic(auto)]

ghost use Rattle.std.specs.Prelude.{◌≡◌, [], ◌≤◌, length, Err};
ghost use Rattle.tool_loads.specs.Said.{longest_text, font_loaded, text_of, stream_said, said_for};

use digest_call::LONGEST_MESSAGE;
use read_call::LONGEST_STREAM;
use tool_files::LoadFault;

// The longest text that is said.
pub const LONGEST_TEXT: usize = 10;

// A text in the first bytes, zeros behind it; of length 0 where nothing is said.
#[derive(Clone, Copy)]
pub struct Text {
    pub length: usize,
    pub bytes: [u8; LONGEST_TEXT],
}

fn as_text(said: &[u8]) -> Text
    requires { length said.now ≤ longest_text }
    ensures { result ≡ text_of said.now }
{
    let mut bytes = [0u8; LONGEST_TEXT];
    base_lists::copy(said, &mut bytes);
    Text {
        length: said.len(),
        bytes,
    }
}

fn nothing() -> Text
    ensures { result ≡ text_of [] }
{
    let bytes = [0u8; LONGEST_TEXT];
    Text { length: 0, bytes }
}

// Whether what was loaded is a font: whole, and no longer than a font may be.
fn is_font(loaded: Result<usize, LoadFault>) -> bool
    ensures { result ≡ font_loaded loaded }
{
    match loaded {
        Ok(n) => n <= LONGEST_MESSAGE,
        Err(_) => false,
    }
}

// What is said of a stream that is not loaded.
fn unloaded(fault: LoadFault) -> Text
    ensures { result ≡ text_of (stream_said (Err fault)) }
{
    match fault {
        LoadFault::Long => as_text(b"too long\n"),
        LoadFault::Failed => as_text(b"no stream\n"),
    }
}

// What is said, checked in this order: the key, the font, the stream. Nothing of the stream is asked where key or font are not right, so that a program may
// ask before it reads the stream, with a stream of no bytes.
pub fn said(
    key: Result<usize, LoadFault>,
    font: Result<usize, LoadFault>,
    stream: Result<usize, LoadFault>,
) -> Text
    ensures { result ≡ text_of (said_for key font stream) }
{
    if !tool_key_font::is_key(key) {
        return as_text(b"no key\n");
    }
    if !is_font(font) {
        return as_text(b"no font\n");
    }
    match stream {
        Ok(n) => {
            if n > LONGEST_STREAM {
                return as_text(b"too long\n");
            }
            nothing()
        }
        Err(fault) => unloaded(fault),
    }
}
