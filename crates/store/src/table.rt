ghost use Rattle.std.specs.Prelude.{◌≡◌, replicate, slice_index_or, slice_set};
ghost use Rattle.rules.specs.Stores.{cell_count};

use rules::limits::CELL_COUNT;
use rules::ranged::Address;

// A plain table of a thousand cells, each as its kind of store writes a number. The type says nothing of which numbers.
#[derive(Drop)]
pub(crate) struct Table<C> {
    cells: [C; CELL_COUNT],
}

impl<C: Copy> Table<C> {
    pub(crate) fn filled(cell: C) -> Table<C>
        ensures { result.cells ≡ replicate cell_count cell }
    {
        Table {
            cells: [cell; CELL_COUNT],
        }
    }

    pub(crate) fn get(&self, address: Address) -> C
        ensures { (d : _) → result ≡ slice_index_or self.now.cells address d }
    {
        self.cells[address.index()]
    }

    pub(crate) fn put(&mut self, address: Address, cell: C)
        ensures { self.new.cells ≡ slice_set self.old.cells address cell }
    {
        self.cells[address.index()] = cell;
    }
}
