ghost use Rattle.std.specs.Prelude.{◌≡◌, ◌<◌, []};
ghost use Rattle.rules.specs.Stores.{number_limit};
ghost use Rattle.readings.specs.Rings.{Ringed, round_from};
ghost use Rattle.readings.specs.Rounds.{length_round, each_round};
ghost use Rattle.std.proofs.Common.{arith};

use crate::reading_queue::ReadingQueue;
use rules::limits::QUEUE_LIMIT;
use rules::ranged::Number;
use rules::refusal::Refusal;

// A queue of 64-bit words in a ring: the first number is at `start`, and behind the last slot comes the first again. It is
// written by hand, since the kit's rings take heap memory.
#[derive(Drop)]
pub struct RingQueue {
    slots: [u64; QUEUE_LIMIT],
    start: usize,
    count: usize,
    ghost sound: { Ringed slots start count },
}

impl RingQueue {
    // An empty queue.
    pub fn new() -> RingQueue
        ensures { round_from result.slots result.start result.count ≡ [] }
    {
        RingQueue {
            slots: [0; QUEUE_LIMIT],
            start: 0,
            count: 0,
        }
    }
}

impl ReadingQueue for RingQueue {
    ghost waiting = { λ q. round_from q.slots q.start q.count };

    ghost short = { λ q. let l = length_round q.slots q.start q.count in Prim.omega arith };

    ghost below = { λ q. each_round (λ n. n < number_limit) q.slots q.start q.count (Prim.omega arith) q.sound.3 };

    fn first(&self) -> Option<u64> {
        (self.count > 0).then(|| self.slots[self.start])
    }

    fn drop_first(&mut self) -> Result<(), Refusal> {
        self.count = self.count.checked_sub(1).ok_or(Refusal::NoneWaiting)?;
        self.start = (self.start + 1) % QUEUE_LIMIT;
        Ok(())
    }

    fn push(&mut self, number: Number) -> Result<(), Refusal> {
        if self.count == QUEUE_LIMIT {
            return Err(Refusal::QueueFull);
        }
        let end = (self.start + self.count) % QUEUE_LIMIT;
        self.slots[end] = number.get();
        self.count += 1;
        Ok(())
    }
}
