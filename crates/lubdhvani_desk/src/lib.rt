// The call of the rework desk's C interface (order W14), a second product beside the library's: the proved call under its C name. include/lubdhvani_desk.h
// is its manual; the static library that C links is the crate lubdhvani_desk_c, which exports it. The promises cite specs/Reworking.antt for the struct,
// and for what stands in it desk_spec's definitions.
#![tactic(auto)]

ghost use Rattle.std.specs.Prelude.{◌≡◌};
ghost use Rattle.line_layout.specs.Layouts.{layout_of};
ghost use Rattle.frame_spec.specs.Told.{told};
ghost use Rattle.desk_spec.specs.Desk.{desk_call, desk_out};
ghost use Rattle.lubdhvani_desk.specs.Reworking.{report_out, reworked_out};

use desk_call::{Report, desk, desk_report};
use line_layout::layout_of;

// The number, the new stream's length, and the item of the list at fault. Every field has the size of a number of the machine: there is no padding.
#[repr(C)]
#[derive(Clone, Copy)]
pub struct Reworked {
    pub number: usize,
    pub length: usize,
    pub item: usize,
}

// What the desk reports, for C.
fn reworked_of(report: Report) -> Reworked
    ensures { result ≡ report_out report }
{
    Reworked {
        number: report.number as usize,
        length: report.length,
        item: report.item,
    }
}

// Writes a new stream with the frames that the list names, by entry numbers of the table from 0 on, in the asked order.
pub fn lubdhvani_desk_copy(
    stream: &[u8],
    key: &[u8],
    font: &[u8],
    editions: usize,
    layout: usize,
    table: &[u32],
    count: usize,
    list: &[u32],
    out: &mut [u8],
) -> Reworked
    ensures value { result ≡ reworked_out (desk_call (told key.now font.now (layout_of layout)) editions stream.now
        table.now count list.now out.old) }
    ensures out_after { out.new ≡ desk_out (told key.now font.now (layout_of layout)) editions stream.now
        table.now count list.now out.old }
{
    let answer = desk(
        stream,
        key,
        font,
        editions,
        layout_of(layout),
        table,
        count,
        list,
        out,
    );
    reworked_of(desk_report(answer))
}
