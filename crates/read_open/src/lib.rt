// Opening a sealed line (document 01, 'A frame and a stream'; orders W2 and W7): it is opened under the instance that frames are sealed by, and
// judged by the rule of a line and the layout. The promise cites specs/Opened.antt.
#![tactic(auto)]

ghost use Rattle.std.specs.Prelude.{◌≡◌, ◌≤◌, length};
ghost use Rattle.base_lists.specs.Buffers.{copied};
ghost use Rattle.read_open.specs.Opened.{counted, found_by, line_by, open_beside, open_line};

use base_lists::copy;
use frame_body::LONGEST_LINE;
use frame_spec::INSTANCE;
use ingage_answers::OpenRefusal;
use ingage_call::open;
use line_layout::{Layout, LineFault, judge_line};

// Why a sealed line is not given; all but Sizes with the calls of the permutation made.
#[derive(Clone, Copy)]
pub enum OpenFault {
    // Nothing is opened: key, nonce, associated data, ciphertext, seal or buffer is not of a size that a frame's has.
    Sizes,
    // The seal is not the one worked out.
    Seal(usize),
    // The line holds a byte that is not listed.
    Unlisted(usize),
    // The line's bytes are listed, but it is not the trade's line.
    Trade(usize),
    // It is the trade's line, but not of the layout named.
    Layout(usize),
}

// Hands out a line: over the start of the caller's buffer.
fn hand_out(found: &[u8], line: &mut [u8])
    ensures { line.new ≡ copied found.now line.old }
{
    copy(found, line);
}

// A fault of the line, with the calls of the finished work.
fn counted(fault: LineFault, calls: usize) -> OpenFault
    ensures { result ≡ counted fault calls }
{
    match fault {
        LineFault::Unlisted => OpenFault::Unlisted(calls),
        LineFault::Trade => OpenFault::Trade(calls),
        LineFault::Layout => OpenFault::Layout(calls),
    }
}

// Judges what was opened: the answer of `open`, and the bytes that it left. The caller's buffer is written only where a line is given.
fn judge_opened(
    opened: Result<usize, OpenRefusal>,
    layout: Layout,
    found: &[u8],
    line: &mut [u8],
) -> Result<usize, OpenFault>
    ensures value { result ≡ found_by layout opened found.now }
    ensures line_after { line.new ≡ line_by (found_by layout opened found.now) found.now line.old }
{
    let calls = match opened {
        Ok(calls) => calls,
        Err(OpenRefusal::Seal(calls)) => return Err(OpenFault::Seal(calls)),
        Err(_) => return Err(OpenFault::Sizes),
    };
    if let Err(fault) = judge_line(layout, found) {
        return Err(counted(fault, calls));
    }
    hand_out(found, line);
    Ok(calls)
}

// Opens a sealed line into text, which has room for it, and judges it.
fn open_beside(
    layout: Layout,
    key: &[u8],
    nonce: &[u8],
    assoc: &[u8],
    cipher: &[u8],
    seal: &[u8],
    text: &mut [u8],
    line: &mut [u8],
) -> Result<usize, OpenFault>
    requires { length cipher.now ≤ length text.old }
    ensures answer { result ≡ (open_beside layout key.now nonce.now assoc.now cipher.now seal.now
        text.old line.old).answer }
    ensures line { line.new ≡ (open_beside layout key.now nonce.now assoc.now cipher.now
        seal.now text.old line.old).line }
{
    let opened = open(INSTANCE, key, nonce, assoc, cipher, seal, text);
    judge_opened(opened, layout, &text[0..cipher.len()], line)
}

// Opens a sealed line and judges it. It is opened into a buffer beside the caller's, which is written only where a line is given.
pub fn open_line(
    layout: Layout,
    key: &[u8],
    nonce: &[u8],
    assoc: &[u8],
    cipher: &[u8],
    seal: &[u8],
    line: &mut [u8],
) -> Result<usize, OpenFault>
    ensures answer { result ≡ (open_line layout key.now nonce.now assoc.now cipher.now seal.now
        line.old).answer }
    ensures line { line.new ≡ (open_line layout key.now nonce.now assoc.now cipher.now
        seal.now line.old).line }
{
    if cipher.len() > LONGEST_LINE {
        return Err(OpenFault::Sizes);
    }
    if line.len() < cipher.len() {
        return Err(OpenFault::Sizes);
    }
    let mut text = [0u8; LONGEST_LINE];
    open_beside(layout, key, nonce, assoc, cipher, seal, &mut text, line)
}
