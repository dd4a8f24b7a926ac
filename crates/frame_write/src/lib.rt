// The writer (document 01, 'A frame and a stream', and orders W6 and W7): a line sealed, put in a body, stuffed and set between two marks.
// The promise cites specs/Answers.antt; the paper's words stand in frame_spec/specs/Frames.antt.
#![tactic(auto)]

ghost use Rattle.std.specs.Prelude.{◌≡◌, ◌+◌, ◌*◌, ◌≤◌, length, replicate, []};
ghost use Rattle.base_lists.specs.Buffers.{over};
ghost use Rattle.frame_body.specs.Fields.{own_of};
ghost use Rattle.frame_body.specs.Lengths.{longest_body};
ghost use Rattle.frame_body.specs.declared.Edition.TheVariants.{One, Two};
ghost use Rattle.frame_spec.specs.Told.{told};
ghost use Rattle.line_layout.specs.declared.Layout.TheVariants.{Neither};
ghost use Rattle.frame_spec.specs.Frames.{sealed_body, framed};
ghost use Rattle.frame_spec.specs.Lengths.{Sealable};
ghost use Rattle.frame_write.specs.Answers.{sizes_right, length_right, refusal_of, write_call, write_number, length_of, count_of};

use frame_body::{Edition, job_field_length, job_size};
use frame_spec::{BESIDE_LINE, FRAME_ROOM, INSTANCE, KEY_LENGTH};
use frame_stuff_spec::MARK;
use line_layout::{Layout, LineFault, judge_line};

// What a frame that is written comes to: its length, and the calls of the permutation.
#[derive(Clone, Copy)]
pub struct Written {
    pub length: usize,
    pub calls: usize,
}

// Why none is.
#[derive(Clone, Copy)]
pub enum FrameRefusal {
    // Key, nonce, font digest or, in edition two, job not of its size.
    Sizes,
    // A line not of 1 to 65 bytes.
    TooLong,
    // A line that holds a byte not listed.
    Unlisted,
    // A line of listed bytes that is not the trade's.
    Trade,
    // A line of the trade that is not of the layout named.
    Layout,
    // A buffer with too little room for a frame.
    NoRoom,
}

// A line that is refused is refused alike here.
impl From<LineFault> for FrameRefusal {
    ghost from_gives = { λ fault refusal. refusal ≡ refusal_of fault };

    fn from(fault: LineFault) -> FrameRefusal {
        match fault {
            LineFault::Unlisted => FrameRefusal::Unlisted,
            LineFault::Trade => FrameRefusal::Trade,
            LineFault::Layout => FrameRefusal::Layout,
        }
    }
}

// Whether key, nonce, font digest and, in edition two, job have their sizes, whatever the layout.
#[tactic(auto, unfolding(crate::specs::Answers::sizes_right))]
pub fn sizes_right(edition: Edition, key: &[u8], nonce: &[u8], font: &[u8], job: &[u8]) -> bool
    ensures { result ≡ sizes_right (told key.now font.now Neither) (own_of edition nonce.now job.now) }
{
    key.len() == KEY_LENGTH
        && nonce.len() == frame_body::NONCE_LENGTH
        && job.len() == job_size(edition)
        && font.len() == frame_body::DIGEST_LENGTH
}

// Whether the line has 1 to 65 bytes.
#[tactic(auto, unfolding(crate::specs::Answers::length_right))]
fn length_right(line: &[u8]) -> bool
    ensures { result ≡ length_right line.now }
{
    matches!(
        line.len(),
        frame_body::SHORTEST_LINE..=frame_body::LONGEST_LINE
    )
}

// The body of the sealed line, from the start of a scratch that has room for the longest.
// With these sizes, lengths and room none of the calls refuses, so their answers say nothing that is not known. No layout is asked: a line of
// every layout is sealed alike.
fn sealed_body(
    edition: Edition,
    key: &[u8],
    nonce: &[u8],
    font: &[u8],
    job: &[u8],
    line: &[u8],
) -> [u8; frame_body::LONGEST_BODY]
    requires { Sealable (told key.now font.now Neither) (own_of edition nonce.now job.now) line.now }
    ensures { result ≡ over (sealed_body (told key.now font.now Neither) (own_of edition nonce.now job.now)
        line.now) (replicate (longest_body Two) 0) }
{
    let mut assoc = [0u8; frame_body::LONGEST_ASSOCIATED];
    let _ = frame_put::put_associated(edition, font, job, &mut assoc);
    let length = frame_body::ASSOCIATED_LENGTH + job_field_length(edition);
    let mut cipher = [0u8; frame_body::LONGEST_LINE];
    let mut seal = [0u8; frame_body::SEAL_LENGTH];
    let _ = ingage_call::seal(
        INSTANCE,
        key,
        nonce,
        &assoc[..length],
        line,
        &mut cipher,
        &mut seal,
    );
    let mut out = [0u8; frame_body::LONGEST_BODY];
    let _ = frame_put::put_body(
        edition,
        nonce,
        font,
        job,
        &cipher[..line.len()],
        &seal,
        &mut out,
    );
    out
}

// Writes the body, stuffed and between two marks, to the start of out, which has room for it, and gives the number of bytes.
fn put_frame(body: &[u8], out: &mut [u8]) -> usize
    requires { 2 * length body.now + 2 ≤ length out.old }
    ensures value { result ≡ length (framed body.now) }
    ensures out_after { out.new ≡ over (framed body.now) out.old }
{
    out[0] = MARK;
    let Ok(n) = frame_stuff::stuff(body, &mut out[1..]) else {
        // Never: there is room for twice the body.
        return 0;
    };
    out[n + 1] = MARK;
    n + 2
}

// Seals a line of the layout under the key and the nonce, for the font and in edition two with the job, which is empty in edition one, and writes its
// frame of that edition to the start of frame; the rest of it stays. A refusal writes nothing.
pub fn write_edition(
    edition: Edition,
    key: &[u8],
    nonce: &[u8],
    font: &[u8],
    layout: Layout,
    job: &[u8],
    line: &[u8],
    frame: &mut [u8],
) -> Result<Written, FrameRefusal>
    ensures value { result ≡ (write_call (told key.now font.now layout) (own_of edition nonce.now job.now)
        line.now frame.old).answer }
    ensures frame_after { frame.new ≡ (write_call (told key.now font.now layout) (own_of edition nonce.now job.now)
        line.now frame.old).frame }
{
    if !sizes_right(edition, key, nonce, font, job) {
        return Err(FrameRefusal::Sizes);
    }
    if !length_right(line) {
        return Err(FrameRefusal::TooLong);
    }
    judge_line(layout, line)?;
    let more = job_field_length(edition);
    if frame.len() < FRAME_ROOM + 2 * more {
        return Err(FrameRefusal::NoRoom);
    }
    let scratch = sealed_body(edition, key, nonce, font, job, line);
    Ok(Written {
        length: put_frame(
            &scratch[..frame_body::BESIDE_CIPHER + more + line.len()],
            frame,
        ),
        calls: line.len() + BESIDE_LINE + more,
    })
}

// The same in edition one.
pub fn write(
    key: &[u8],
    nonce: &[u8],
    font: &[u8],
    layout: Layout,
    line: &[u8],
    frame: &mut [u8],
) -> Result<Written, FrameRefusal>
    ensures value { result ≡ (write_call (told key.now font.now layout) (own_of One nonce.now []) line.now
        frame.old).answer }
    ensures frame_after { frame.new ≡ (write_call (told key.now font.now layout) (own_of One nonce.now []) line.now
        frame.old).frame }
{
    write_edition(Edition::One, key, nonce, font, layout, &[], line, frame)
}

// The same in edition two, with the job.
pub fn write_two(
    key: &[u8],
    nonce: &[u8],
    font: &[u8],
    layout: Layout,
    job: &[u8],
    line: &[u8],
    frame: &mut [u8],
) -> Result<Written, FrameRefusal>
    ensures value { result ≡ (write_call (told key.now font.now layout) (own_of Two nonce.now job.now) line.now
        frame.old).answer }
    ensures frame_after { frame.new ≡ (write_call (told key.now font.now layout) (own_of Two nonce.now job.now)
        line.now frame.old).frame }
{
    write_edition(Edition::Two, key, nonce, font, layout, job, line, frame)
}

// The number of what `write` answers.
pub fn write_number(answer: Result<Written, FrameRefusal>) -> u32
    ensures { result ≡ write_number answer }
{
    match answer {
        Ok(_) => 0,
        Err(FrameRefusal::Sizes) => 2,
        Err(FrameRefusal::TooLong) => 3,
        Err(FrameRefusal::Unlisted) => 9,
        Err(FrameRefusal::Trade) => 13,
        Err(FrameRefusal::Layout) => 17,
        Err(FrameRefusal::NoRoom) => 4,
    }
}

// The frame's length, 0 on a refusal.
pub fn write_length(answer: Result<Written, FrameRefusal>) -> usize
    ensures { result ≡ length_of answer }
{
    match answer {
        Ok(frame) => frame.length,
        Err(_) => 0,
    }
}

// The count of what `write` answers, 0 on a refusal.
pub fn write_count(answer: Result<Written, FrameRefusal>) -> usize
    ensures { result ≡ count_of answer }
{
    match answer {
        Ok(frame) => frame.calls,
        Err(_) => 0,
    }
}
