//! The word store of the formula unit: a thousand cells, each a number of fourteen digits. Two kinds of memory, one meaning.
#![tactic(auto)]

ghost use Rattle.store.specs.Examples.{Examples};

pub mod clearing;
pub mod packed_cells;
pub(crate) mod packing;
pub(crate) mod table;
pub mod word_cells;
pub mod word_store;

// The worked examples hold of the definitions of this crate, which no other crate knows.
pub fn examples_stand()
    ensures { Examples }
{}
