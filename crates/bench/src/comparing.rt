ghost use Rattle.std.specs.Prelude.{◌≡◌, length, IfOk, string_bytes};
ghost use Rattle.bench.specs.Benches.{agreements, answered, left, left_all, same_answer};
ghost use Rattle.bench.specs.Showing.{row_text};

use crate::call::Call;
use crate::devices::Devices;
use crate::showing::Shown;
use std::alloc::{AllocError, Global};

// Whether two benches answer a call alike.
fn both<A: Devices, B: Devices>(a: &mut A, b: &mut B, call: Call) -> bool
    ensures same { result ≡ same_answer (answered (A.Devices.means a.old) call) (answered (B.Devices.means b.old) call) }
    ensures first { A.Devices.means a.new ≡ left (A.Devices.means a.old) call }
    ensures second { B.Devices.means b.new ≡ left (B.Devices.means b.old) call }
{
    a.ask(call) == b.ask(call)
}

// How many of the calls two benches answer alike: all of them, where the benches mean the same.
pub fn alike<A: Devices, B: Devices>(a: &mut A, b: &mut B, calls: &[Call]) -> usize
    ensures count { result ≡ agreements (A.Devices.means a.old) (B.Devices.means b.old) calls.now }
    ensures all { A.Devices.means a.old ≡ B.Devices.means b.old → result ≡ length calls.now }
    ensures first { A.Devices.means a.new ≡ left_all (A.Devices.means a.old) calls.now }
    ensures second { B.Devices.means b.new ≡ left_all (B.Devices.means b.old) calls.now }
{
    // a loop, and no filter that counts: what a closure does to the benches is not known once the iterator is used up
    let mut same = 0;
    for call in calls {
        same += usize::from(both(a, b, *call));
    }
    same
}

// A call, and what each bench answers.
pub fn row<A: Devices, B: Devices>(
    heap: Global,
    a: &mut A,
    b: &mut B,
    call: Call,
) -> Result<String, AllocError>
    ensures text { IfOk result (λ s. string_bytes s ≡ row_text call (answered (A.Devices.means a.old) call) (answered (B.Devices.means b.old) call)) }
    ensures first { A.Devices.means a.new ≡ left (A.Devices.means a.old) call }
    ensures second { B.Devices.means b.new ≡ left (B.Devices.means b.old) call }
{
    let first = Shown(a.ask(call));
    let second = Shown(b.ask(call));
    format!(in heap; "{call}: {first} | {second}")
}

// Two benches that are asked side by side. Benches that lie elsewhere are compared by the functions above.
#[derive(Drop)]
pub struct Pair<A, B> {
    pub first: A,
    pub second: B,
}

impl<A: Devices, B: Devices> Pair<A, B> {
    // How many of the calls both answer alike: all of them, where they mean the same.
    pub fn alike(&mut self, calls: &[Call]) -> usize
        ensures count { result ≡ agreements (A.Devices.means self.old.first) (B.Devices.means self.old.second) calls.now }
        ensures all { A.Devices.means self.old.first ≡ B.Devices.means self.old.second → result ≡ length calls.now }
        ensures first { A.Devices.means self.new.first ≡ left_all (A.Devices.means self.old.first) calls.now }
        ensures second { B.Devices.means self.new.second ≡ left_all (B.Devices.means self.old.second) calls.now }
    {
        alike(&mut self.first, &mut self.second, calls)
    }

    // A call, and what each answers.
    pub fn row(&mut self, heap: Global, call: Call) -> Result<String, AllocError>
        ensures text { IfOk result (λ s. string_bytes s ≡ row_text call (answered (A.Devices.means self.old.first) call) (answered (B.Devices.means self.old.second) call)) }
        ensures first { A.Devices.means self.new.first ≡ left (A.Devices.means self.old.first) call }
        ensures second { B.Devices.means self.new.second ≡ left (B.Devices.means self.old.second) call }
    {
        row(heap, &mut self.first, &mut self.second, call)
    }
}
