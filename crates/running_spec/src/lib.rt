// The running digest (order W4) by definition: its record, what start, feed and finish answer and leave, and that any cutting of a message
// gives its digest. The only code is the test whether a record can be fed at all; the steps that meet the definitions are in the crate running_steps,
// the calls on a lent record in running_call.
#![tactic(auto)]

ghost use Rattle.std.specs.Prelude.{◌≡◌};
ghost use Rattle.running_spec.specs.Running.{unfeedable};

use digest_call::LONGEST_MESSAGE;
use gage_spec::LARGEST;
use gage_sponge::LARGEST_RATE;

// The record: bytes fed, instance, whether there was a finish, the sponge's state and the unfinished block. It has no padding.
#[repr(C)]
#[derive(Clone, Copy)]
pub struct Record {
    pub total: usize,
    pub instance: u32,
    pub finished: u32,
    pub state: [u8; LARGEST],
    pub block: [u8; LARGEST_RATE],
}

// Why a start is refused: no known instance.
#[derive(Clone, Copy)]
pub enum StartRefusal {
    Unknown,
}

// Why a feed is refused: after a finish; a record with no known instance or with a count no feeding gives; too long.
#[derive(Clone, Copy)]
pub enum FeedRefusal {
    AfterFinish,
    Unknown,
    TooLong,
}

// Why a finish is refused: after a finish; such a record; no room for the digest. One that is done counts the calls of the permutation.
#[derive(Clone, Copy)]
pub enum FinishRefusal {
    AfterFinish,
    Unknown,
    NoRoom,
}

// Whether a record has no known instance, or counts more than can be fed.
pub fn is_unfeedable(running: Record) -> bool
    ensures { result ≡ unfeedable running }
{
    if digest_sponge::is_unknown(running.instance as usize) {
        return true;
    }
    running.total > LONGEST_MESSAGE
}
