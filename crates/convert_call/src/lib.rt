// The converter (orders W6 and W7): the line of a stretch of one edition sealed anew in the other, under a nonce and where needed a job given to it.
// The promises cite convert_spec/specs/Answers.antt.
#![tactic(auto)]

ghost use Rattle.std.specs.Prelude.{◌≡◌, []};
ghost use Rattle.frame_body.specs.declared.Edition.TheVariants.{One, Two};
ghost use Rattle.frame_body.specs.Fields.{own_of};
ghost use Rattle.frame_spec.specs.Told.{told};
ghost use Rattle.convert_spec.specs.Answers.{convert_call, convert_number, length_in};

use convert_find::{line_in, other};
use convert_spec::ConvertFault;
use frame_body::{Edition, LONGEST_LINE};
use frame_spec::frame_room;
use frame_write::{sizes_right, write_edition, write_length};
use line_layout::Layout;
use read_numbers::LINE;

// Seals the line of a stretch of the other edition anew in this one, and writes its frame to the start of frame; the rest of it stays. A refusal
// writes nothing.
pub fn convert(
    edition: Edition,
    stretch: &[u8],
    key: &[u8],
    font: &[u8],
    layout: Layout,
    nonce: &[u8],
    job: &[u8],
    frame: &mut [u8],
) -> Result<usize, ConvertFault>
    ensures value { result ≡ (convert_call (told key.now font.now layout) (own_of edition nonce.now job.now)
        stretch.now frame.old).answer }
    ensures frame_after { frame.new ≡ (convert_call (told key.now font.now layout)
        (own_of edition nonce.now job.now) stretch.now frame.old).frame }
{
    if !sizes_right(edition, key, nonce, font, job) {
        return Err(ConvertFault::Sizes);
    }
    if frame.len() < frame_room(edition) {
        return Err(ConvertFault::NoRoom);
    }
    let mut line = [0u8; LONGEST_LINE];
    let found = line_in(stretch, other(edition), key, font, layout, &mut line);
    let n = found.length;
    if found.outcome != LINE {
        let answer = found.answer;
        return answer;
    }
    let written = write_edition(edition, key, nonce, font, layout, job, &line[0..n], frame);
    Ok(write_length(written))
}

// A stretch of edition two to a frame of edition one.
pub fn to_one(
    stretch: &[u8],
    key: &[u8],
    font: &[u8],
    layout: Layout,
    nonce: &[u8],
    frame: &mut [u8],
) -> Result<usize, ConvertFault>
    ensures value { result ≡ (convert_call (told key.now font.now layout) (own_of One nonce.now []) stretch.now
        frame.old).answer }
    ensures frame_after { frame.new ≡ (convert_call (told key.now font.now layout) (own_of One nonce.now [])
        stretch.now frame.old).frame }
{
    let none = [0u8; 0];
    convert(
        Edition::One,
        stretch,
        key,
        font,
        layout,
        nonce,
        &none,
        frame,
    )
}

// A stretch of edition one to a frame of edition two, with the job.
pub fn to_two(
    stretch: &[u8],
    key: &[u8],
    font: &[u8],
    layout: Layout,
    nonce: &[u8],
    job: &[u8],
    frame: &mut [u8],
) -> Result<usize, ConvertFault>
    ensures value { result ≡ (convert_call (told key.now font.now layout) (own_of Two nonce.now job.now)
        stretch.now frame.old).answer }
    ensures frame_after { frame.new ≡ (convert_call (told key.now font.now layout) (own_of Two nonce.now job.now)
        stretch.now frame.old).frame }
{
    convert(Edition::Two, stretch, key, font, layout, nonce, job, frame)
}

// The number of what the converter answers.
pub fn number(answer: Result<usize, ConvertFault>) -> u32
    ensures { result ≡ convert_number answer }
{
    match answer {
        Ok(_) => 0,
        Err(ConvertFault::Sizes) => 2,
        Err(ConvertFault::NoRoom) => 4,
        Err(ConvertFault::Shape) => 7,
        Err(ConvertFault::Stuffing) => 6,
        Err(ConvertFault::Edition) => 16,
        Err(ConvertFault::Font) => 8,
        Err(ConvertFault::Seal) => 5,
        Err(ConvertFault::Unlisted) => 9,
        Err(ConvertFault::Trade) => 13,
        Err(ConvertFault::Layout) => 17,
    }
}

// The length of the frame written, 0 on a refusal.
pub fn frame_length(answer: Result<usize, ConvertFault>) -> usize
    ensures { result ≡ length_in answer }
{
    answer.unwrap_or(0)
}
