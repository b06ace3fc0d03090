//! A worked example: a kind of reading queue of one's own. docs/UNIT.md goes through it.
#![tactic(auto)]

ghost use Rattle.std.specs.Prelude.{◌≡◌, ℕ, ◌<◌, ◌≤◌, [], length, slice_index};
ghost use Rattle.rules.specs.Queues.{queue_limit};
ghost use Rattle.rules.specs.Stores.{number_limit};
ghost use Rattle.std.proofs.Common.{rules};

use arrayvec::ArrayVec;
use readings::reading_queue::ReadingQueue;
use rules::limits::QUEUE_LIMIT;
use rules::ranged::Number;
use rules::refusal::Refusal;

// At most sixteen words in a row, the first waiting number in front. When it is taken, the others move up.
#[derive(Drop)]
pub struct RowQueue {
    row: ArrayVec<u64, QUEUE_LIMIT>,
    ghost sound: { (length row.items ≤ queue_limit) × ((i : ℕ) → slice_index row.items i < number_limit) },
}

impl RowQueue {
    // An empty queue.
    pub fn new() -> RowQueue
        ensures { result.row.items ≡ [] }
    {
        RowQueue {
            row: ArrayVec::new(),
        }
    }
}

impl ReadingQueue for RowQueue {
    ghost waiting = { λ q. q.row.items };

    ghost short = { Prim.search rules };

    ghost below = { Prim.search rules };

    fn first(&self) -> Option<u64> {
        self.row.first().copied()
    }

    fn drop_first(&mut self) -> Result<(), Refusal> {
        self.row.pop_at(0).ok_or(Refusal::NoneWaiting)?;
        Ok(())
    }

    fn push(&mut self, number: Number) -> Result<(), Refusal> {
        self.row
            .try_push(number.get())
            .map_err(|_| Refusal::QueueFull)
    }
}
