// The steps of the running digest (order W4) by value: what start, feed and finish answer, and the record that each leaves. The record holds no more
// of the message than its unfinished block. The promises cite running_spec/specs/Running.antt.
#![tactic(auto)]

ghost use Rattle.std.specs.Prelude.{◌≡◌, ◌≤◌, take};
ghost use Rattle.gage_sponge.specs.Padding.{LARGEST-RATE};
ghost use Rattle.digest_sponge.specs.Parts.{closed_by};
ghost use Rattle.running_spec.specs.Running.{start_answer, start_record, feed_answer, feed_record, ended};
ghost use Rattle.running_spec.specs.Running.{finish_answer, finish_out, on_finish};
ghost use Rattle.running_spec.specs.Running.{start_number, feed_number, finish_number, finish_count};

use digest_call::{DIGEST, LONGEST_MESSAGE};
use gage_spec::LARGEST;
use gage_sponge::LARGEST_RATE;
use running_spec::{FeedRefusal, FinishRefusal, Record, StartRefusal};

// What `finished` holds before a finish, and what a finish writes there: every number but 0 is finished.
const NOT_FINISHED: u32 = 0;

const FINISHED: u32 = 1;

// What a refusal counts.
const NO_CALLS: usize = 0;

// What `start` answers.
pub fn start_answer(instance: usize) -> Result<(), StartRefusal>
    ensures { result ≡ start_answer instance }
{
    if digest_sponge::is_unknown(instance) {
        return Err(StartRefusal::Unknown);
    }
    Ok(())
}

// The record after a start; as it was where that is refused.
pub fn after_start(running: Record, instance: usize) -> Record
    ensures { result ≡ start_record running instance }
{
    if digest_sponge::is_unknown(instance) {
        return running;
    }
    let state = [0u8; LARGEST];
    let block = [0u8; LARGEST_RATE];
    Record {
        total: 0,
        instance: instance as u32,
        finished: NOT_FINISHED,
        state,
        block,
    }
}

// What `feed` answers.
pub fn feed_answer(running: Record, bytes: &[u8]) -> Result<(), FeedRefusal>
    ensures { result ≡ feed_answer running bytes.now }
{
    if running.finished > NOT_FINISHED {
        return Err(FeedRefusal::AfterFinish);
    }
    if running_spec::is_unfeedable(running) {
        return Err(FeedRefusal::Unknown);
    }
    if bytes.len() > LONGEST_MESSAGE - running.total {
        return Err(FeedRefusal::TooLong);
    }
    Ok(())
}

// The digest from a state and the bytes held of the unfinished block.
fn hash_of(
    instance: usize,
    state: [u8; LARGEST],
    block: [u8; LARGEST_RATE],
    held: usize,
) -> [u8; DIGEST]
    requires { held ≤ LARGEST-RATE }
    ensures { result ≡ closed_by instance state (take held block) }
{
    digest_sponge::close(instance, state, &block[0..held])
}

// The record after a feed; as it was where that is refused.
pub fn after_feed(running: Record, bytes: &[u8]) -> Record
    ensures { result ≡ feed_record running bytes.now }
{
    let Ok(()) = feed_answer(running, bytes) else {
        return running;
    };
    let instance = running.instance as usize;
    let total = running.total;
    let old = running.state;
    let begun = running.block;
    let grown = running_grow::grow(instance, old, begun, total, bytes);
    let state = grown.state;
    let block = grown.block;
    Record {
        total: total + bytes.len(),
        instance: running.instance,
        finished: NOT_FINISHED,
        state,
        block,
    }
}

// What `finish` answers; done, the digest stands over the first 32 bytes of out, and else out is as it was.
pub fn give(running: Record, out: &mut [u8]) -> Result<usize, FinishRefusal>
    ensures { (result ≡ finish_answer running out.old) × (out.new ≡ finish_out running out.old) }
{
    if running.finished > NOT_FINISHED {
        return Err(FinishRefusal::AfterFinish);
    }
    if running_spec::is_unfeedable(running) {
        return Err(FinishRefusal::Unknown);
    }
    if out.len() < DIGEST {
        return Err(FinishRefusal::NoRoom);
    }
    let instance = running.instance as usize;
    let shape = digest_sponge::sponge_of(instance);
    let rate = shape.rate;
    let total = running.total;
    let held = total % rate;
    let state = running.state;
    let block = running.block;
    let hash = hash_of(instance, state, block, held);
    base_lists::copy(&hash, out);
    Ok(total / rate + 1 + shape.outputs)
}

// The record after a finish that gave this answer; as it was where that is a refusal.
pub fn after_finish(running: Record, answer: Result<usize, FinishRefusal>) -> Record
    ensures { result ≡ on_finish answer (ended running) running }
{
    let Ok(_) = answer else {
        return running;
    };
    let state = [0u8; LARGEST];
    let block = [0u8; LARGEST_RATE];
    Record {
        total: running.total,
        instance: running.instance,
        finished: FINISHED,
        state,
        block,
    }
}

// The number of what `start` answers.
pub fn start_number(answer: Result<(), StartRefusal>) -> u32
    ensures { result ≡ start_number answer }
{
    match answer {
        Ok(()) => 0,
        Err(StartRefusal::Unknown) => 1,
    }
}

// The number of what `feed` answers.
pub fn feed_number(answer: Result<(), FeedRefusal>) -> u32
    ensures { result ≡ feed_number answer }
{
    match answer {
        Ok(()) => 0,
        Err(FeedRefusal::AfterFinish) => 14,
        Err(FeedRefusal::Unknown) => 1,
        Err(FeedRefusal::TooLong) => 3,
    }
}

// The number of what `finish` answers.
pub fn finish_number(answer: Result<usize, FinishRefusal>) -> u32
    ensures { result ≡ finish_number answer }
{
    match answer {
        Ok(_) => 0,
        Err(FinishRefusal::AfterFinish) => 14,
        Err(FinishRefusal::Unknown) => 1,
        Err(FinishRefusal::NoRoom) => 4,
    }
}

// The count of what `finish` answers.
pub fn finish_count(answer: Result<usize, FinishRefusal>) -> usize
    ensures { result ≡ finish_count answer }
{
    answer.unwrap_or(NO_CALLS)
}
