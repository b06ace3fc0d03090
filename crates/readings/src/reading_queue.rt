ghost use Rattle.std.specs.Prelude.{◌≡◌, ℕ, ◌<◌, ◌≤◌, List, length, slice_index};
ghost use Rattle.rules.specs.Numbers.{numbered};
ghost use Rattle.rules.specs.Calls.{left_by, answer_of};
ghost use Rattle.rules.specs.Stores.{number_limit};
ghost use Rattle.rules.specs.Queues.{queue_limit, first_waiting, dropped, added};

use rules::ranged::Number;
use rules::refusal::Refusal;

// A queue of at most sixteen numbers. Whoever writes a kind of queue says by `waiting` which numbers its memory holds, the
// first to be taken first, and owes the two laws.
pub trait ReadingQueue {
    ghost waiting: { Self → List ℕ };

    // The first waiting number, if one waits.
    fn first(&self) -> Option<u64>
        ensures { result ≡ first_waiting (waiting self.now) };

    // Removes the first waiting number; 27 where none waits.
    fn drop_first(&mut self) -> Result<(), Refusal>
        ensures answer { numbered result ≡ answer_of (dropped (waiting self.old)) }
        ensures after { waiting self.new ≡ left_by (dropped (waiting self.old)) (waiting self.old) };

    // Puts a number at the end; 26, with the queue as it was, where sixteen wait.
    fn push(&mut self, number: Number) -> Result<(), Refusal>
        ensures answer { numbered result ≡ answer_of (added (waiting self.old) number) }
        ensures after { waiting self.new ≡ left_by (added (waiting self.old) number) (waiting self.old) };

    // Puts a number at the end; 15 for one of 10^14 or more, then 26 where sixteen wait. A refusal leaves the queue as it was.
    fn add(&mut self, number: u64) -> Result<(), Refusal>
        ensures answer { numbered result ≡ answer_of (added (waiting self.old) number) }
        ensures after { waiting self.new ≡ left_by (added (waiting self.old) number) (waiting self.old) }
    {
        self.push(Number::try_from(number)?)
    }

    ghost short: { (s : Self) → length (waiting s) ≤ queue_limit };

    ghost below: { (s : Self) (i : ℕ) → slice_index (waiting s) i < number_limit };
}
