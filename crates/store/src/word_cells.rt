ghost use Rattle.store.specs.Ranges.{Cells};

use crate::table::Table;
use crate::word_store::WordStore;
use rules::ranged::{Address, Number};

// A store of 64-bit words, one a cell.
#[derive(Drop)]
pub struct WordCells {
    table: Table<u64>,
    ghost sound: { Cells table.cells },
}

impl WordCells {
    ghost use Rattle.std.specs.Prelude.{◌≡◌};
    ghost use Rattle.rules.specs.Stores.{zeros};
    ghost use Rattle.store.specs.Meanings.{word_cells};

    // A store of zeros.
    pub fn new() -> WordCells
        ensures { word_cells result ≡ zeros }
    {
        WordCells {
            table: Table::filled(0),
        }
    }
}

impl WordStore for WordCells {
    ghost use Rattle.store.specs.Meanings.{word_cells};
    ghost use Rattle.std.proofs.Common.{rules};

    ghost cells = { word_cells };

    ghost sized = { Prim.search rules };

    ghost below = { Prim.search rules };

    fn get(&self, address: Address) -> u64 {
        self.table.get(address)
    }

    fn set(&mut self, address: Address, number: Number) {
        self.table.put(address, number.get());
    }
}
