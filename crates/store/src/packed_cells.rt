ghost use Rattle.store.specs.Packing.{Packed};

use crate::packing::{CELL_BYTES, pack, unpack};
use crate::table::Table;
use crate::word_store::WordStore;
use rules::ranged::{Address, Number};
use rules::refusal::Refusal;

// A store in packed decimal: seven bytes a cell, two digits a byte, the highest pair first.
#[derive(Drop)]
pub struct PackedCells {
    table: Table<[u8; CELL_BYTES]>,
    ghost sound: { Packed table.cells },
}

impl PackedCells {
    ghost use Rattle.std.specs.Prelude.{◌≡◌};
    ghost use Rattle.rules.specs.Numbers.{numbered};
    ghost use Rattle.rules.specs.Stores.{zeros};
    ghost use Rattle.store.specs.Meanings.{packed_cells, packed_cell};

    // A store of zeros.
    pub fn new() -> PackedCells
        ensures { packed_cells result ≡ zeros }
    {
        PackedCells {
            table: Table::filled([0; CELL_BYTES]),
        }
    }

    // The seven bytes of a cell as they lie in the memory; 15 for an address of 1000 or more.
    pub fn bytes(&self, address: usize) -> Result<[u8; CELL_BYTES], Refusal>
        ensures { numbered result ≡ packed_cell (packed_cells self.now) address }
    {
        let address = Address::try_from(address)?;
        Ok(self.table.get(address))
    }
}

impl WordStore for PackedCells {
    ghost use Rattle.store.specs.Meanings.{packed_cells};
    ghost use Rattle.store.specs.Cellwise.{cells_below, cells_counted};

    ghost cells = { packed_cells };

    ghost sized = { λ s. cells_counted s.table.cells s.sound };

    ghost below = { λ s. cells_below s.table.cells s.sound };

    fn get(&self, address: Address) -> u64 {
        unpack(self.table.get(address))
    }

    fn set(&mut self, address: Address, number: Number) {
        self.table.put(address, pack(number.get()));
    }
}
