// The running digest on a record lent.
ghost use Rattle.std.specs.Prelude.{◌≡◌};
ghost use Rattle.running_spec.specs.Running.{start_answer, start_record, start_number, feed_answer, feed_record, feed_number, finish_answer, finish_record, finish_out};
ghost use Rattle.lubdhvani.specs.Answers.{finished};

use lubdhvani::answers::Counted;
use running_spec::Record;

// Starts a running digest on a record lent.
#[unsafe(no_mangle)]
pub extern "C" fn lubdhvani_start(running: &mut Record, instance: usize) -> u32
    ensures { (result ≡ start_number (start_answer instance)) × (running.new ≡ start_record running.old instance) }
{
    lubdhvani::running::lubdhvani_start(running, instance)
}

// Feeds it.
#[unsafe(no_mangle)]
pub extern "C" fn lubdhvani_feed(running: &mut Record, bytes: &[u8]) -> u32
    ensures { (result ≡ feed_number (feed_answer running.old bytes.now)) ×
        (running.new ≡ feed_record running.old bytes.now) }
{
    lubdhvani::running::lubdhvani_feed(running, bytes)
}

// Finishes it.
#[unsafe(no_mangle)]
pub extern "C" fn lubdhvani_finish(running: &mut Record, out: &mut [u8]) -> Counted
    ensures { (result ≡ finished (finish_answer running.old out.old)) ×
        (running.new ≡ finish_record running.old out.old) ×
        (out.new ≡ finish_out running.old out.old) }
{
    lubdhvani::running::lubdhvani_finish(running, out)
}
