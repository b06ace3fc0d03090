ghost use Rattle.std.specs.Prelude.{◌≡◌, ◌+◌, ◌-◌, ◌<◌, ◌≤◌};
ghost use Rattle.rules.specs.Cells.{atom_address, source_address, target_address, constant_cell, temporary_cell};
ghost use Rattle.rules.specs.Codes.{transfer_code};
ghost use Rattle.rules.specs.Words.{word as word_of, operation_word as operation_word_of, head_word as head_word_of, constant_code};
ghost use Rattle.compiler.specs.Held.{table};

use crate::constants::Constants;
use rules::cells::{CONSTANTS, LABEL, LETTERS, PLACE_REGISTER, POINTED, TEMPORARIES, VARIABLES};
use rules::formula::{Atom, Target};
use rules::operation::{Operation, Source};
use rules::ranged::Letter;
use rules::table::transfer;
use rules::tape::{CONSTANT_CODE, HEAD_MARK};
use std::marker::Model;

// An address as a word holds it, in four digits: a cell, what a cell points to, an organ or a register. Not one more `Ranged`,
// since it is made of what is known to be in range, and a public constructor may ask nothing of its caller.
#[derive(Clone, Copy)]
pub(crate) struct Field {
    value: u64,
}

impl Model for Field {
    ghost use Rattle.std.specs.Prelude.{ℕ, ◌<◌};

    ghost Value = { ℕ };

    ghost view = { λ f. f.value };

    ghost invariant = { λ f. f.value < 2000 };

    ghost inverse = { λ n. record { value = n } };
}

impl Field {
    pub(crate) fn of(value: u64) -> Field
        requires { value < 2000 }
        ensures { result ≡ value }
    {
        Field { value }
    }

    // The cell of a letter, in the cells of an alphabet that begins with `first`. An atom or a target holds a plain byte, so the
    // difference is one that cannot fall below 0.
    fn letter(cells: u64, first: u8, letter: u8) -> Field
        requires { cells ≤ 1002 }
        ensures { result ≡ cells + (letter - first) }
    {
        Field::of(cells + u64::from(letter.saturating_sub(first)))
    }

    pub(crate) fn constant(place: usize) -> Field
        requires { place ≤ 46 }
        ensures { result ≡ constant_cell place }
    {
        // a cast, since `usize` has no `From` to `u64`; so below
        Field::of(CONSTANTS + place as u64)
    }

    pub(crate) fn temporary(number: u8) -> Field
        ensures { result ≡ temporary_cell number }
    {
        Field::of(TEMPORARIES + u64::from(number))
    }

    pub(crate) fn atom(atom: Atom, constants: &Constants) -> Field
        ensures { result ≡ atom_address (table constants.now) atom }
    {
        match atom {
            Atom::Variable(v) => Field::letter(VARIABLES, b'a', v),
            Atom::Pointed(v) => Field::letter(POINTED + VARIABLES, b'a', v),
            Atom::Letter(g) => Field::letter(LETTERS, b'A', g),
            Atom::Constant(n) => Field::constant(constants.place(n)),
        }
    }

    fn source(source: Source, constants: &Constants) -> Field
        ensures { result ≡ source_address (table constants.now) source }
    {
        match source {
            Source::Named(atom) => Field::atom(atom, constants),
            Source::Temporary(t) => Field::temporary(t),
        }
    }

    pub(crate) fn target(target: Target) -> Field
        ensures { result ≡ target_address target }
    {
        match target {
            Target::Variable(v) => Field::letter(VARIABLES, b'a', v),
            Target::Pointed(v) => Field::letter(POINTED + VARIABLES, b'a', v),
            Target::Label => Field::of(LABEL),
            Target::Place => Field::of(PLACE_REGISTER),
        }
    }
}

// The fourteen digits of a word.
fn word(left: Field, code: u8, right: Field, target: Field) -> u64
    requires { code < 100 }
    ensures { result ≡ word_of left code right target }
{
    left.value * 10_000_000_000
        + u64::from(code) * 100_000_000
        + right.value * 10_000
        + target.value
}

// The word before the constant of a cell.
pub(crate) fn constant_word(cell: Field) -> u64
    ensures { result ≡ word_of 0 constant_code 0 cell }
{
    let none = Field::of(0);
    word(none, CONSTANT_CODE, none, cell)
}

// The word at the head of a group.
pub(crate) fn head_word(group: Letter) -> u64
    ensures { result ≡ head_word_of group }
{
    let cell = Field::of(LETTERS + group.index() as u64);
    word(Field::of(0), transfer().code, Field::of(HEAD_MARK), cell)
}

// The word of a side without operation.
pub(crate) fn transfer_word(from: Field, target: Field) -> u64
    ensures { result ≡ word_of 0 transfer_code from target }
{
    word(Field::of(0), transfer().code, from, target)
}

pub(crate) fn operation_word(operation: Operation, target: Field, constants: &Constants) -> u64
    ensures { result ≡ operation_word_of (table constants.now) target operation }
{
    word(
        Field::source(operation.left, constants),
        operation.sign.row().code,
        Field::source(operation.right, constants),
        target,
    )
}
