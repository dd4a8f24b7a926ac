// What `gagesum` makes of its word and of what it reads: which instance a word names, and what becomes of a running digest after a read.
// Nothing here touches the system; `tool_files` reads. The promises cite specs/Sums.antt.
#![tactic(auto)]

ghost use Rattle.std.specs.Prelude.{◌≡◌};
ghost use Rattle.running_spec.specs.Running.{start_record};
ghost use Rattle.tool_sums.specs.Sums.{blank, named_by, sum_of, part_answer, part_record};

use gage_spec::LARGEST;
use gage_sponge::LARGEST_RATE;
use running_spec::{FeedRefusal, Record};
use tool_files::Heard;

// The digits 1 and 9, and what a digit is more than its value.
const ONE: u8 = 0x31;

const NINE: u8 = 0x39;

const ZERO: u8 = 0x30;

// The one instance that takes two digits.
const TEN: usize = 10;

// What becomes of a digest after a read: it goes on, the input ends, it is too long, or it can't be read.
#[derive(Clone, Copy)]
pub enum Sum {
    On,
    End,
    TooLong,
    Unread,
}

// The instance that a word names: 1 to 10, in decimal digits with no zero before them.
pub fn judge_word(word: &[u8]) -> Option<usize>
    ensures { result ≡ named_by word.now }
{
    if base_lists::compare(word, b"10") {
        return Some(TEN);
    }
    if word.len() != 1 {
        return None;
    }
    let digit = word[0];
    if digit < ONE {
        return None;
    }
    if digit > NINE {
        return None;
    }
    let value = digit - ZERO;
    Some(value as usize)
}

// A digest begun with an instance.
pub fn begin(instance: usize) -> Record
    ensures { result ≡ start_record blank instance }
{
    let state = [0u8; LARGEST];
    let block = [0u8; LARGEST_RATE];
    let zero = Record {
        total: 0,
        instance: 0,
        finished: 0,
        state,
        block,
    };
    running_steps::after_start(zero, instance)
}

// What a feed's answer says of the input.
fn fed_sum(answer: Result<(), FeedRefusal>) -> Sum
    ensures { result ≡ sum_of answer }
{
    match answer {
        Ok(()) => Sum::On,
        Err(FeedRefusal::AfterFinish | FeedRefusal::Unknown) => Sum::Unread,
        Err(FeedRefusal::TooLong) => Sum::TooLong,
    }
}

// What becomes of a digest after a read into a window.
pub fn judge_part(running: Record, heard: Heard, window: &[u8]) -> Sum
    ensures { result ≡ part_answer running heard window.now }
{
    match heard {
        Heard::Some(n) => {
            if n > window.len() {
                return Sum::Unread;
            }
            fed_sum(running_steps::feed_answer(running, &window[0..n]))
        }
        Heard::Again => Sum::On,
        Heard::End => Sum::End,
        Heard::Failed => Sum::Unread,
    }
}

// The digest after it.
pub fn take_part(running: Record, heard: Heard, window: &[u8]) -> Record
    ensures { result ≡ part_record running heard window.now }
{
    match heard {
        Heard::Some(n) => {
            if n > window.len() {
                return running;
            }
            running_steps::after_feed(running, &window[0..n])
        }
        Heard::Again => running,
        Heard::End => running,
        Heard::Failed => running,
    }
}
