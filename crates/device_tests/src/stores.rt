use rules::refusal::Refusal;
use std::process::Abort;
use store::clearing::clear;
use store::packed_cells::PackedCells;
use store::word_cells::WordCells;
use store::word_store::WordStore;

// The first and the last cell, the greatest number, and what is refused.
fn limits<S: WordStore>(rt: &impl Abort, store: &mut S) {
    assert_eq!(rt; store.load(0), Ok(0));
    assert_eq!(rt; store.load(999), Ok(0));
    assert_eq!(rt; store.store(0, 99_999_999_999_999), Ok(()));
    assert_eq!(rt; store.store(999, 1), Ok(()));
    assert_eq!(rt; store.load(0), Ok(99_999_999_999_999));
    assert_eq!(rt; store.load(1), Ok(0));
    assert_eq!(rt; store.load(998), Ok(0));
    assert_eq!(rt; store.load(999), Ok(1));
    assert_eq!(rt; store.load(1_000), Err(Refusal::OutOfRange));
    assert_eq!(rt; store.store(1_000, 0), Err(Refusal::OutOfRange));
    assert_eq!(rt;
        store.store(0, 100_000_000_000_000),
        Err(Refusal::OutOfRange)
    );
    assert_eq!(rt; store.load(0), Ok(99_999_999_999_999));
}

// Addresses and numbers as large as there are.
fn extremes<S: WordStore>(rt: &impl Abort, store: &mut S) {
    assert_eq!(rt; store.load(usize::MAX), Err(Refusal::OutOfRange));
    assert_eq!(rt; store.store(usize::MAX, 0), Err(Refusal::OutOfRange));
    assert_eq!(rt; store.store(5, u64::MAX), Err(Refusal::OutOfRange));
    assert_eq!(rt; store.load(5), Ok(0));
}

// Every cell keeps a number of its own, until all are cleared.
fn filled<S: WordStore>(rt: &impl Abort, store: &mut S) {
    for address in 0..1_000 {
        assert_eq!(rt;
            store.store(address, 98_765_432_100_000 + address as u64),
            Ok(())
        );
    }
    for address in 0..1_000 {
        assert_eq!(rt;
            store.load(address),
            Ok(98_765_432_100_000 + address as u64)
        );
    }
    clear(store);
    for address in 0..1_000 {
        assert_eq!(rt; store.load(address), Ok(0));
    }
}

#[test]
fn words(rt: HostRuntime) {
    limits(&rt, &mut WordCells::new());
    extremes(&rt, &mut WordCells::new());
    filled(&rt, &mut WordCells::new());
}

#[test]
fn packed(rt: HostRuntime) {
    limits(&rt, &mut PackedCells::new());
    extremes(&rt, &mut PackedCells::new());
    filled(&rt, &mut PackedCells::new());
}
