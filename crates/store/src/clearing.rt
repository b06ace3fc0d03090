ghost use Rattle.std.specs.Prelude.{◌≡◌};
ghost use Rattle.rules.specs.Stores.{zeros};

use crate::word_store::WordStore;
use rules::limits::CELL_COUNT;

// Puts 0 into every cell of a store of any kind.
pub fn clear<S: WordStore>(store: &mut S)
    ensures { S.cells store.new ≡ zeros }
{
    // by address, since a store of any kind is no slice: it takes one number at a time
    for address in 0..CELL_COUNT {
        // the address is a cell's and 0 is small enough, so nothing is refused
        let _ = store.store(address, 0);
    }
}
