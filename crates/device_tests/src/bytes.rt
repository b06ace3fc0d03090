use digits::line::{NoRoom, NumberLine};
use label::digit_line::DigitLine;
use label::label_line::LabelLine;
use readings::digit_queue::DigitQueue;
use readings::reading_queue::ReadingQueue;
use rules::refusal::Refusal;
use store::packed_cells::PackedCells;
use store::word_store::WordStore;

// Two digits a byte, the highest first; the cells beside it stay 0.
#[test]
fn packed(rt: HostRuntime) {
    let mut store = PackedCells::new();
    assert_eq!(rt; store.store(5, 12_345_678_901_234), Ok(()));
    assert_eq!(rt;
        store.bytes(5),
        Ok([0x12, 0x34, 0x56, 0x78, 0x90, 0x12, 0x34])
    );
    assert_eq!(rt; store.bytes(4), Ok([0; 7]));
    assert_eq!(rt; store.bytes(6), Ok([0; 7]));
    assert_eq!(rt; store.store(5, 7), Ok(()));
    assert_eq!(rt; store.bytes(5), Ok([0, 0, 0, 0, 0, 0, 7]));
    assert_eq!(rt; store.store(999, 99_999_999_999_999), Ok(()));
    assert_eq!(rt; store.bytes(999), Ok([0x99; 7]));
    assert_eq!(rt; store.bytes(1_000), Err(Refusal::OutOfRange));
}

#[test]
fn queue(rt: HostRuntime) {
    let mut queue = DigitQueue::new();
    assert_eq!(rt; queue.as_bytes(), b"".as_slice());
    assert_eq!(rt; queue.add(115), Ok(()));
    assert_eq!(rt; queue.add(0), Ok(()));
    assert_eq!(rt; queue.add(99_999_999_999_999), Ok(()));
    assert_eq!(rt; queue.as_bytes(), b"115,0,99999999999999,".as_slice());
    assert_eq!(rt; queue.drop_first(), Ok(()));
    assert_eq!(rt; queue.as_bytes(), b"0,99999999999999,".as_slice());
}

#[test]
fn label(rt: HostRuntime) {
    let mut label = DigitLine::new();
    assert_eq!(rt; label.add(72), Ok(()));
    assert_eq!(rt; label.add(105), Ok(()));
    assert_eq!(rt; label.add(0), Ok(()));
    assert_eq!(rt; label.as_bytes(), b"72,105,0,".as_slice());
    label.clear();
    assert_eq!(rt; label.as_bytes(), b"".as_slice());
}

// Six bytes hold two numbers of two and one digit, and then none; freed bytes serve again.
#[test]
fn line(rt: HostRuntime) {
    let mut line: NumberLine<6> = NumberLine::new();
    assert_eq!(rt; line.push(123_456), Err(NoRoom));
    assert_eq!(rt; line.push(115), Ok(()));
    assert_eq!(rt; line.push(7), Ok(()));
    assert_eq!(rt; line.push(0), Err(NoRoom));
    assert_eq!(rt; line.as_bytes(), b"115,7,".as_slice());
    assert_eq!(rt; line.count(), 2);
    assert_eq!(rt; line.get(0), Some(115));
    assert_eq!(rt; line.get(1), Some(7));
    assert_eq!(rt; line.get(2), None);
    line.drop_first();
    assert_eq!(rt; line.push(123), Ok(()));
    assert_eq!(rt; line.as_bytes(), b"7,123,".as_slice());
    line.clear();
    line.drop_first();
    assert_eq!(rt; line.count(), 0);
    assert_eq!(rt; line.push(12_345), Ok(()));
    assert_eq!(rt; line.as_bytes(), b"12345,".as_slice());
}
