ghost use Rattle.std.specs.Prelude.{◌≡◌, ℕ, ◌<◌, ◌≤◌, [], length, slice_index};
ghost use Rattle.digits.specs.Text.{line_of};
ghost use Rattle.rules.specs.Queues.{queue_limit};
ghost use Rattle.rules.specs.Stores.{number_limit};
ghost use Rattle.std.proofs.Common.{rules};

use crate::reading_queue::ReadingQueue;
use digits::line::NumberLine;
use rules::limits::QUEUE_LIMIT;
use rules::ranged::Number;
use rules::refusal::Refusal;

// Sixteen numbers of fourteen digits, each with its comma.
const LINE_BYTES: usize = 240;

// A queue in a line of bytes: each number in digits, followed by a comma, the first number in front. A type of its own beside
// the label line in digits, since each is a kind of its own trait; what they share is `NumberLine`.
#[derive(Drop)]
pub struct DigitQueue {
    line: NumberLine<LINE_BYTES>,
    ghost sound: { (length line ≤ queue_limit) × ((i : ℕ) → slice_index line i < number_limit) },
}

impl DigitQueue {
    // An empty queue.
    pub fn new() -> DigitQueue
        ensures { result.line ≡ [] }
    {
        DigitQueue {
            line: NumberLine::new(),
        }
    }

    // The bytes as they lie in the memory.
    pub fn as_bytes(&self) -> &[u8]
        ensures bytes { result.now ≡ line_of self.now.line }
        ensures fits { length result.now ≤ 240 }
    {
        self.line.as_bytes()
    }
}

impl ReadingQueue for DigitQueue {
    ghost waiting = { λ q. q.line };

    ghost short = { Prim.search rules };

    ghost below = { Prim.search rules };

    fn first(&self) -> Option<u64> {
        self.line.get(0)
    }

    fn drop_first(&mut self) -> Result<(), Refusal> {
        self.line.remove_first().ok_or(Refusal::NoneWaiting)
    }

    fn push(&mut self, number: Number) -> Result<(), Refusal> {
        if self.line.count() == QUEUE_LIMIT {
            return Err(Refusal::QueueFull);
        }
        // fourteen digits and a comma always find room behind fifteen numbers
        self.line.push(number.get()).map_err(|_| Refusal::QueueFull)
    }
}
