ghost use Rattle.std.specs.Prelude.{◌≡◌, ℕ, ◌<◌, List, length, slice_index, slice_set};
ghost use Rattle.rules.specs.Numbers.{numbered};
ghost use Rattle.rules.specs.Calls.{left_by, answer_of};
ghost use Rattle.rules.specs.Stores.{cell_count, number_limit, loaded, stored};

use rules::ranged::{Address, Number};
use rules::refusal::Refusal;

// A store of a thousand numbers. Whoever writes a kind of store says by `cells` what its memory means, and owes the two laws.
pub trait WordStore {
    ghost cells: { Self → List ℕ };

    // The number in a cell.
    fn get(&self, address: Address) -> u64
        ensures { result ≡ slice_index (cells self.now) address };

    // Puts a number into a cell.
    fn set(&mut self, address: Address, number: Number)
        ensures { cells self.new ≡ slice_set (cells self.old) address number };

    // The number in a cell; 15 for an address of 1000 or more.
    fn load(&self, address: usize) -> Result<u64, Refusal>
        ensures { numbered result ≡ loaded (cells self.now) address }
    {
        let address = Address::try_from(address)?;
        Ok(self.get(address))
    }

    // Puts a number into a cell; 15, with all cells as they were, for an address of 1000 or more or a number of 10^14 or more.
    fn store(&mut self, address: usize, number: u64) -> Result<(), Refusal>
        ensures answer { numbered result ≡ answer_of (stored (cells self.old) address number) }
        ensures after { cells self.new ≡ left_by (stored (cells self.old) address number) (cells self.old) }
    {
        let address = Address::try_from(address)?;
        let number = Number::try_from(number)?;
        self.set(address, number);
        Ok(())
    }

    ghost sized: { (s : Self) → length (cells s) ≡ cell_count };

    ghost below: { (s : Self) (i : ℕ) → slice_index (cells s) i < number_limit };
}
