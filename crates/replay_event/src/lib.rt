// The event at a place of a trace (order W11). The promises cite replay_spec/specs/Events.antt; what a field is stands in base_fields.
#![tactic(auto)]

ghost use Rattle.std.specs.Prelude.{◌≡◌, ◌+◌, ◌*◌, length};
ghost use Rattle.base_fields.specs.Fields.{high_byte};
ghost use Rattle.replay_spec.specs.declared.Kind.TheVariants.{Bad};
ghost use Rattle.replay_spec.specs.Events.{kind_of, rule, event, event_at};

use base_fields::{HEAD_LENGTH, HIGH_BYTE};
use replay_spec::{Event, Kind};

// The fields' tags (tags are hexadecimal).
const RECEIVED_TAG: u8 = 0x20;

const ASKED_TAG: u8 = 0x21;

const PRINTED_TAG: u8 = 0x22;

// The decision over the tag byte, which picks the kind of event.
pub fn kind_of(tag: u8) -> Kind
    ensures { result ≡ kind_of tag }
{
    match tag {
        RECEIVED_TAG => Kind::Received,
        ASKED_TAG => Kind::Asked,
        PRINTED_TAG => Kind::Printed,
        _ => Kind::Bad,
    }
}

// The rule of the kind: may the event have n bytes? A request carries none.
pub fn rule_takes(kind: Kind, n: usize) -> bool
    ensures { result ≡ rule kind n }
{
    match kind {
        Kind::Received => true,
        Kind::Asked => n == 0,
        Kind::Printed => true,
        Kind::Bad => false,
    }
}

// What the two bytes of a length say.
fn length_said(high: u8, low: u8) -> usize
    ensures { result ≡ high * high_byte + low }
{
    high as usize * HIGH_BYTE + low as usize
}

// No event stands at a place: all that is left is bad.
fn bad(all: usize, at: usize) -> Event
    ensures { result ≡ event Bad at all }
{
    Event {
        kind: Kind::Bad,
        start: at,
        end: all,
    }
}

// The event at a place of the trace. A field that is cut off is no event.
pub fn event_at(trace: &[u8], at: usize) -> Event
    ensures { result ≡ event_at trace.now at }
{
    let all = trace.len();
    if at > all {
        return bad(all, at);
    }
    let left = all - at;
    if left < HEAD_LENGTH {
        return bad(all, at);
    }
    let kind = kind_of(trace[at]);
    let n = length_said(trace[at + 1], trace[at + 2]);
    if !rule_takes(kind, n) {
        return bad(all, at);
    }
    if left - HEAD_LENGTH < n {
        return bad(all, at);
    }
    let start = at + HEAD_LENGTH;
    Event {
        kind,
        start,
        end: start + n,
    }
}
