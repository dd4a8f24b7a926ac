// The rework desk's static library for C (order W14): the call of the crate lubdhvani_desk under its C name, with the same promise.
// include/lubdhvani_desk.h is its manual. The struct is that crate's own.
#![tactic(auto)]

ghost use Rattle.std.specs.Prelude.{◌≡◌};
ghost use Rattle.line_layout.specs.Layouts.{layout_of};
ghost use Rattle.frame_spec.specs.Told.{told};
ghost use Rattle.desk_spec.specs.Desk.{desk_call, desk_out};
ghost use Rattle.lubdhvani_desk.specs.Reworking.{reworked_out};

use lubdhvani_desk::Reworked;

// Writes a new stream with the frames that the list names, by entry numbers of the table from 0 on, in the asked order.
#[unsafe(no_mangle)]
pub extern "C" fn lubdhvani_desk_copy(
    stream: &[u8],
    key: &[u8],
    font: &[u8],
    editions: usize,
    layout: usize,
    table: &[u32],
    count: usize,
    list: &[u32],
    out: &mut [u8],
) -> Reworked
    ensures value { result ≡ reworked_out (desk_call (told key.now font.now (layout_of layout)) editions stream.now
        table.now count list.now out.old) }
    ensures out_after { out.new ≡ desk_out (told key.now font.now (layout_of layout)) editions stream.now
        table.now count list.now out.old }
{
    lubdhvani_desk::lubdhvani_desk_copy(
        stream, key, font, editions, layout, table, count, list, out,
    )
}
