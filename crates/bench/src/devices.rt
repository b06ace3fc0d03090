ghost use Rattle.std.specs.Prelude.{◌≡◌};
ghost use Rattle.bench.specs.Benches.{Meaning, answered, by_number, left, meaning};

use crate::call::{Call, Denial, Reply};
use label::label_line::LabelLine;
use readings::reading_queue::ReadingQueue;
use store::word_store::WordStore;

// One device of each sort.
#[derive(Drop)]
pub struct Bench<S, Q, L> {
    pub store: S,
    pub readings: Q,
    pub label: L,
}

// Three devices that can be asked, whatever their kinds.
pub trait Devices {
    ghost means: { Self → Meaning };

    // Makes one call of the device that it is for. Calls are values and no closures, since they are printed.
    fn ask(&mut self, call: Call) -> Result<Reply, Denial>
        ensures answer { by_number result ≡ answered (means self.old) call }
        ensures after { means self.new ≡ left (means self.old) call };
}

impl<S: WordStore, Q: ReadingQueue, L: LabelLine> Devices for Bench<S, Q, L> {
    ghost means = { λ b. meaning (S.WordStore.cells b.store) (Q.ReadingQueue.waiting b.readings) (L.LabelLine.codes b.label) };

    fn ask(&mut self, call: Call) -> Result<Reply, Denial> {
        let reply = match call {
            Call::Load(address) => Reply::Number(self.store.load(address)?),
            Call::Store(address, number) => {
                self.store.store(address, number)?;
                Reply::Done
            }
            Call::First => self.readings.first().map_or(Reply::Nothing, Reply::Number),
            Call::Drop => {
                self.readings.drop_first()?;
                Reply::Done
            }
            Call::Add(number) => {
                self.readings.add(number)?;
                Reply::Done
            }
            // a cast, since `usize` has no `From` to `u64`
            Call::Count => Reply::Number(self.label.count() as u64),
            Call::Code(place) => Reply::Number(u64::from(self.label.code(place)?)),
            Call::Clear => {
                self.label.clear();
                Reply::Done
            }
            Call::Print(code) => {
                self.label.add(code)?;
                Reply::Done
            }
        };
        Ok(reply)
    }
}
