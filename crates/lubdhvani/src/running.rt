// The running digest on a record lent. The promises cite specs/Answers.antt and the definitions of `running_spec`.
ghost use Rattle.std.specs.Prelude.{◌≡◌};
ghost use Rattle.running_spec.specs.Running.{start_answer, start_record, start_number, feed_answer, feed_record, feed_number, finish_answer, finish_record, finish_out};
ghost use Rattle.lubdhvani.specs.Answers.{finished};

use crate::answers::{Counted, field};
use running_spec::{FinishRefusal, Record};
use running_steps::{feed_number, finish_count, finish_number, start_number};

// Starts a running digest on a record lent.
pub fn lubdhvani_start(running: &mut Record, instance: usize) -> u32
    ensures { (result ≡ start_number (start_answer instance)) × (running.new ≡ start_record running.old instance) }
{
    let answer = running_call::start(running, instance);
    start_number(answer)
}

// Feeds it.
pub fn lubdhvani_feed(running: &mut Record, bytes: &[u8]) -> u32
    ensures { (result ≡ feed_number (feed_answer running.old bytes.now)) ×
        (running.new ≡ feed_record running.old bytes.now) }
{
    let answer = running_call::feed(running, bytes);
    feed_number(answer)
}

// The number and the count of what a finish answers.
fn counted(answer: Result<usize, FinishRefusal>) -> Counted
    ensures { result ≡ finished answer }
{
    Counted {
        number: field(finish_number(answer)),
        calls: finish_count(answer),
    }
}

// Finishes it.
pub fn lubdhvani_finish(running: &mut Record, out: &mut [u8]) -> Counted
    ensures { (result ≡ finished (finish_answer running.old out.old)) ×
        (running.new ≡ finish_record running.old out.old) ×
        (out.new ≡ finish_out running.old out.old) }
{
    let answer = running_call::finish(running, out);
    counted(answer)
}
