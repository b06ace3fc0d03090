use label::byte_line::ByteLine;
use label::copying::copy;
use label::digit_line::DigitLine;
use label::label_line::LabelLine;
use rules::refusal::{Cause, Refusal};
use std::process::Abort;

// The greatest code, places from 1 on, and what is refused.
fn codes<L: LabelLine>(rt: &impl Abort, label: &mut L) {
    assert_eq!(rt; label.count(), 0);
    assert_eq!(rt; label.code(1), Err(Refusal::NoCode));
    assert_eq!(rt; label.add(256), Err(Cause::CodeTooLarge));
    assert_eq!(rt; label.add(u64::MAX), Err(Cause::CodeTooLarge));
    assert_eq!(rt; label.add(255), Ok(()));
    assert_eq!(rt; label.add(0), Ok(()));
    assert_eq!(rt; label.count(), 2);
    assert_eq!(rt; label.code(0), Err(Refusal::NoCode));
    assert_eq!(rt; label.code(1), Ok(255));
    assert_eq!(rt; label.code(2), Ok(0));
    assert_eq!(rt; label.code(3), Err(Refusal::NoCode));
    assert_eq!(rt; label.code(usize::MAX), Err(Refusal::NoCode));
}

// The 48th code is taken, the 49th is not, and a full line is refused for that first. A cleared line takes 48 again.
fn full<L: LabelLine>(rt: &impl Abort, label: &mut L) {
    label.clear();
    for code in 0..48 {
        assert_eq!(rt; label.add(code + 200), Ok(()));
    }
    assert_eq!(rt; label.add(65), Err(Cause::LabelFull));
    assert_eq!(rt; label.add(256), Err(Cause::LabelFull));
    assert_eq!(rt; label.count(), 48);
    assert_eq!(rt; label.code(48), Ok(247));
    assert_eq!(rt; label.code(49), Err(Refusal::NoCode));
    label.clear();
    assert_eq!(rt; label.count(), 0);
    for _ in 0..48 {
        assert_eq!(rt; label.add(255), Ok(()));
    }
    assert_eq!(rt; label.add(0), Err(Cause::LabelFull));
}

// What one line holds is copied to another of another kind, over what that held.
fn copied<A: LabelLine, B: LabelLine>(rt: &impl Abort, from: &mut A, to: &mut B) {
    from.clear();
    assert_eq!(rt; from.add(72), Ok(()));
    assert_eq!(rt; from.add(105), Ok(()));
    copy(from, to);
    assert_eq!(rt; to.count(), 2);
    assert_eq!(rt; to.code(1), Ok(72));
    assert_eq!(rt; to.code(2), Ok(105));
}

#[test]
fn both(rt: HostRuntime) {
    let mut bytes = ByteLine::new();
    let mut digits = DigitLine::new();
    codes(&rt, &mut bytes);
    codes(&rt, &mut digits);
    full(&rt, &mut bytes);
    full(&rt, &mut digits);
    copied(&rt, &mut bytes, &mut digits);
    copied(&rt, &mut digits, &mut bytes);
}
