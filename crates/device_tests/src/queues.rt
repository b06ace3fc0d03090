use own_kind::RowQueue;
use readings::digit_queue::DigitQueue;
use readings::emptying::empty;
use readings::reading_queue::ReadingQueue;
use readings::ring_queue::RingQueue;
use rules::refusal::Refusal;
use std::process::Abort;

// An empty queue; the greatest number; what is refused, and which refusal comes first.
fn limits<Q: ReadingQueue>(rt: &impl Abort, queue: &mut Q) {
    assert_eq!(rt; queue.first(), None);
    assert_eq!(rt; queue.drop_first(), Err(Refusal::NoneWaiting));
    assert_eq!(rt; queue.add(100_000_000_000_000), Err(Refusal::OutOfRange));
    assert_eq!(rt; queue.first(), None);
    for _ in 0..16 {
        assert_eq!(rt; queue.add(99_999_999_999_999), Ok(()));
    }
    assert_eq!(rt; queue.add(0), Err(Refusal::QueueFull));
    assert_eq!(rt; queue.add(u64::MAX), Err(Refusal::OutOfRange));
    assert_eq!(rt; empty(queue), 16);
    assert_eq!(rt; queue.first(), None);
}

// First in, first out, across the end of the memory.
fn order<Q: ReadingQueue>(rt: &impl Abort, queue: &mut Q) {
    for number in 0..10 {
        assert_eq!(rt; queue.add(number), Ok(()));
    }
    for number in 0..100 {
        assert_eq!(rt; queue.first(), Some(number));
        assert_eq!(rt; queue.drop_first(), Ok(()));
        assert_eq!(rt; queue.add(number + 10), Ok(()));
    }
    assert_eq!(rt; queue.first(), Some(100));
    assert_eq!(rt; empty(queue), 10);
}

// Filled and emptied ten thousand times, a queue still takes sixteen, and no more.
fn rounds<Q: ReadingQueue>(rt: &impl Abort, queue: &mut Q) {
    for _ in 0..10_000 {
        for number in 0..16 {
            assert_eq!(rt; queue.add(number), Ok(()));
        }
        assert_eq!(rt; empty(queue), 16);
    }
    for number in 0..16 {
        assert_eq!(rt; queue.add(number), Ok(()));
    }
    assert_eq!(rt; queue.add(16), Err(Refusal::QueueFull));
}

fn all<Q: ReadingQueue>(rt: &impl Abort, queue: &mut Q) {
    limits(rt, queue);
    order(rt, queue);
    rounds(rt, queue);
}

#[test]
fn ring(rt: HostRuntime) {
    all(&rt, &mut RingQueue::new());
}

#[test]
fn digits(rt: HostRuntime) {
    all(&rt, &mut DigitQueue::new());
}

#[test]
fn row(rt: HostRuntime) {
    all(&rt, &mut RowQueue::new());
}
