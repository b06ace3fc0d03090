ghost use Rattle.std.specs.Prelude.{◌≡◌, ◌<◌, ◌≤◌, map, IfOk};
ghost use Rattle.std.specs.List.{range_with_len};
ghost use Rattle.devices.specs.Rows.{call_at, call_count};

use bench::call::Call;
use rules::limits::{CELL_COUNT, LABEL_LIMIT, QUEUE_LIMIT};
use std::alloc::{AllocError, Global};

// Rows of many like calls: a number of its own into every cell, and every cell; numbers from 1 on into a queue, and looking at
// each waiting number and taking it; codes up to the greatest onto a label, and every code. Names and no closures, so that each
// row is promised by its name.
#[derive(Clone, Copy, Debug, PartialEq, Eq)]
pub enum Many {
    FillStore,
    ReadStore,
    FillQueue,
    TakeAll,
    FillLabel,
    ReadLabel,
}

impl Many {
    fn count(self) -> usize
        ensures value { result ≡ call_count self }
        ensures few { result ≤ 1000 }
    {
        match self {
            Many::FillStore | Many::ReadStore => CELL_COUNT,
            Many::FillQueue => QUEUE_LIMIT,
            Many::TakeAll => 2 * QUEUE_LIMIT,
            Many::FillLabel | Many::ReadLabel => LABEL_LIMIT,
        }
    }

    fn call(self, index: usize) -> Call
        requires { index < 1000 }
        ensures { result ≡ call_at self index }
    {
        // a cast, since `usize` has no `From` to `u64`
        let number = index as u64;
        match self {
            Many::FillStore => Call::Store(index, 99_999_999_999_999 - number),
            Many::ReadStore => Call::Load(index),
            Many::FillQueue => Call::Add(number + 1),
            Many::TakeAll => if index % 2 == 0 {
                Call::First
            } else {
                Call::Drop
            },
            Many::FillLabel => Call::Print(number + 208),
            Many::ReadLabel => Call::Code(index + 1),
        }
    }

    // The calls of the row.
    pub fn calls(self, heap: Global) -> Result<Vec<Call>, AllocError>
        ensures { IfOk result (λ v. v.items ≡ map (call_at self) (range_with_len 0 (call_count self))) }
    {
        (0..self.count())
            .map(|index| self.call(index))
            .collect(heap)
    }
}
