//! Runs one exercise over both kinds of each device and prints what each kind answers.
#![tactic(auto)]

mod exercise;
mod many;

use crate::many::Many;
use bench::call::Call;
use bench::comparing::Pair;
use bench::devices::{Bench, Devices};
use label::byte_line::ByteLine;
use label::copying::copy;
use label::digit_line::DigitLine;
use readings::digit_queue::DigitQueue;
use readings::emptying::empty;
use readings::ring_queue::RingQueue;
use store::clearing::clear;
use store::packed_cells::PackedCells;
use store::word_cells::WordCells;

// The two sets of devices, side by side.
type Benches = Pair<
    Bench<WordCells, RingQueue, ByteLine>,
    Bench<PackedCells, DigitQueue, DigitLine>,
>;

// How often the queues are filled and emptied.
const ROUNDS: usize = 10_000;

// The benches that are asked, and where their answers are printed.
#[derive(Drop)]
struct Comparison<'r> {
    rt: &'r HostRuntime,
    benches: Benches,
}

impl<'r> Comparison<'r> {
    // Prints a row for each call.
    fn show(&mut self, calls: &[Call]) -> anyhow::Result<()> {
        for call in calls {
            let line = self.benches.row(self.rt.alloc(), *call)?;
            println!(self.rt; "{line}")?;
        }
        Ok(())
    }

    // Makes many calls, and prints how many of them were answered alike.
    fn count(&mut self, what: &str, many: Many) -> anyhow::Result<()> {
        let calls = many.calls(self.rt.alloc())?;
        let same = self.benches.alike(&calls);
        println!(self.rt; "{what}: {same} of {} calls answered alike", calls.len())?;
        Ok(())
    }

    fn stores(&mut self) -> anyhow::Result<()> {
        self.rt.println("store: 64-bit words | packed decimal")?;
        self.show(exercise::STORE_LIMITS)?;
        self.count("fill every cell", Many::FillStore)?;
        self.count("read every cell", Many::ReadStore)?;
        self.show(exercise::STORE_FILLED)
    }

    // Fills and empties the queues many times.
    fn rounds(&mut self) -> anyhow::Result<()> {
        let fill = Many::FillQueue.calls(self.rt.alloc())?;
        let take = Many::TakeAll.calls(self.rt.alloc())?;
        let mut same: usize = 0;
        for _ in 0..ROUNDS {
            same = same
                .saturating_add(self.benches.alike(&fill))
                .saturating_add(self.benches.alike(&take));
        }
        println!(self.rt; "filled and emptied {ROUNDS} times: {same} calls answered alike")?;
        Ok(())
    }

    fn queues(&mut self) -> anyhow::Result<()> {
        self.rt
            .println("readings: ring of words | digits and commas")?;
        self.show(exercise::QUEUE_EMPTY)?;
        self.count("fill the queue", Many::FillQueue)?;
        self.show(exercise::QUEUE_FULL)?;
        self.show(exercise::QUEUE_AGAIN)?;
        self.count("take all", Many::TakeAll)?;
        self.rounds()?;
        self.count("fill the queue", Many::FillQueue)?;
        self.show(exercise::QUEUE_FULL)
    }

    fn labels(&mut self) -> anyhow::Result<()> {
        self.rt
            .println("label: one byte a code | digits and commas")?;
        self.show(exercise::LABEL_EMPTY)?;
        self.count("fill the label", Many::FillLabel)?;
        self.count("read the label", Many::ReadLabel)?;
        self.show(exercise::LABEL_FULL)
    }

    // What works on any kind: clearing a store, emptying a queue, copying a label line.
    fn any_kind(&mut self) -> anyhow::Result<()> {
        self.rt.println("what works on any kind: words, ring, bytes | packed, digits, digits")?;
        clear(&mut self.benches.first.store);
        clear(&mut self.benches.second.store);
        self.count("clear the store and read every cell", Many::ReadStore)?;
        self.show(exercise::STORE_FILLED)?;
        let left = empty(&mut self.benches.first.readings);
        let right = empty(&mut self.benches.second.readings);
        println!(self.rt; "empty the queue: {left} | {right}")?;
        for code in [72, 105] {
            let _ = self.benches.first.ask(Call::Print(code));
        }
        copy(&self.benches.first.label, &mut self.benches.second.label);
        self.rt.println("print 72 and 105 on the first label, copy it to the second")?;
        self.show(exercise::LABEL_COPIED)
    }
}

fn main(rt: HostRuntime) -> anyhow::Result<()> {
    let mut comparison = Comparison {
        rt: &rt,
        benches: Pair {
            first: Bench {
                store: WordCells::new(),
                readings: RingQueue::new(),
                label: ByteLine::new(),
            },
            second: Bench {
                store: PackedCells::new(),
                readings: DigitQueue::new(),
                label: DigitLine::new(),
            },
        },
    };
    comparison.stores()?;
    comparison.queues()?;
    comparison.labels()?;
    comparison.any_kind()
}
