// Reading a stream anew where an entry says that a stretch starts (order W14): the table's number is not looked at. The promises cite
// desk_spec/specs/Desk.antt.
#![tactic(auto)]

ghost use Rattle.std.specs.Prelude.{◌≡◌};
ghost use Rattle.frame_spec.specs.Told.{told};
ghost use Rattle.desk_spec.specs.Desk.{closing_of};

use frame_body::LONGEST_LINE;
use line_layout::Layout;
use read_call::{ALL_WORK, Asked, read};
use read_numbers::{LINE, numbers};

// The closing mark's place of the stretch that starts at a place and reads as a line; 0 where there is none.
pub fn closing_of(
    stream: &[u8],
    place: usize,
    key: &[u8],
    font: &[u8],
    editions: usize,
    layout: Layout,
) -> usize
    ensures { result ≡ closing_of (told key.now font.now layout) editions stream.now place }
{
    if place == 0 {
        return 0;
    }
    if place > stream.len() {
        return 0;
    }
    let mut line = [0u8; LONGEST_LINE];
    let asked = Asked {
        editions,
        allowed: ALL_WORK,
        layout,
    };
    let reading = read(stream, place - 1, key, font, asked, &mut line);
    if reading.first != place {
        return 0;
    }
    let answer = reading.answer;
    if numbers(answer).outcome != LINE {
        return 0;
    }
    reading.closing
}
