ghost use Rattle.std.specs.Prelude.{◌≡◌, [], length};

use crate::reading_queue::ReadingQueue;
use rules::limits::QUEUE_LIMIT;

// Removes all waiting numbers from a queue of any kind, and says how many there were.
pub fn empty<Q: ReadingQueue>(queue: &mut Q) -> usize
    ensures count { result ≡ length (Q.waiting queue.old) }
    ensures after { Q.waiting queue.new ≡ [] }
{
    // no `from_fn(..).count()`: nothing is known of the queue that its closure borrows once it is counted
    for count in 0..QUEUE_LIMIT {
        if queue.drop_first().is_err() {
            return count;
        }
    }
    QUEUE_LIMIT
}
