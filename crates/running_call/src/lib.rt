// The running digest (order W4) on a record that the caller lends: it is updated where it stands. Thin over the steps by value of `running_steps`;
// the promises cite the definitions of `running_spec`.
#![tactic(auto)]

ghost use Rattle.std.specs.Prelude.{◌≡◌};
ghost use Rattle.running_spec.specs.Running.{start_answer, start_record, feed_answer, feed_record, finish_answer, finish_record, finish_out};

use running_spec::{FeedRefusal, FinishRefusal, Record, StartRefusal};
use running_steps::{after_feed, after_finish, after_start, feed_answer, give, start_answer};

// Starts a digest, whatever the record held; refused, it leaves the record.
pub fn start(running: &mut Record, instance: usize) -> Result<(), StartRefusal>
    ensures { (result ≡ start_answer instance) × (running.new ≡ start_record running.old instance) }
{
    let answer = start_answer(instance);
    *running = after_start(*running, instance);
    answer
}

// Takes more of the message in; refused, it leaves the record.
pub fn feed(running: &mut Record, bytes: &[u8]) -> Result<(), FeedRefusal>
    ensures { (result ≡ feed_answer running.old bytes.now) × (running.new
        ≡ feed_record running.old bytes.now) }
{
    let answer = feed_answer(*running, bytes);
    *running = after_feed(*running, bytes);
    answer
}

// Gives the digest out over the first bytes of out; refused, it leaves record and buffer.
pub fn finish(running: &mut Record, out: &mut [u8]) -> Result<usize, FinishRefusal>
    ensures { (result ≡ finish_answer running.old out.old) × (running.new
        ≡ finish_record running.old out.old) × (out.new ≡ finish_out running.old out.old) }
{
    let answer = give(*running, out);
    *running = after_finish(*running, answer);
    answer
}
