ghost use Rattle.std.specs.Prelude.{◌≡◌, ◌-◌, ◌≤◌, true, false, not, replicate, is_some, if◌then◌else◌, Some, None, slice_index_or, slice_set};
ghost use Rattle.rules.specs.Texts.{closes as closes_of};
ghost use Rattle.compiler.specs.Onward.{admits as admits_of};
ghost use Rattle.compiler.specs.Mentioned.{lacks};

use rules::formula::Target;
use rules::ranged::Letter;

// The letters that have a group, and the only letter that may come next, none where any new one may.
#[derive(Drop)]
pub(crate) struct Groups {
    pub(crate) seen: [bool; 26],
    pub(crate) awaited: Option<Letter>,
}

impl Groups {
    pub(crate) fn new() -> Groups
        ensures { (result.seen ≡ replicate 26 false) × (result.awaited ≡ Some 65) }
    {
        Groups {
            seen: [false; 26],
            awaited: Letter::try_from(u64::from(b'A')).ok(),
        }
    }

    fn has(&self, letter: Letter) -> bool
        ensures { result ≡ slice_index_or self.now.seen (letter - 65) false }
    {
        self.seen[letter.index()]
    }

    // Whether the byte is a letter without group.
    pub(crate) fn lacks(&self, byte: u8) -> bool
        ensures { result ≡ lacks self.now byte }
    {
        Letter::try_from(u64::from(byte)).is_ok_and(|letter| !self.has(letter))
    }

    pub(crate) fn all_closed(&self) -> bool
        ensures { result ≡ not (is_some self.now.awaited) }
    {
        self.awaited.is_none()
    }

    // Whether a line of this group may come next.
    pub(crate) fn admits(&self, letter: Letter) -> bool
        ensures { result ≡ admits_of self.now.awaited self.now.seen letter }
    {
        match self.awaited {
            None => !self.has(letter),
            Some(awaited) => letter == awaited,
        }
    }

    pub(crate) fn note(&mut self, letter: Letter, target: Target)
        ensures seen { self.new.seen ≡ slice_set self.old.seen (letter - 65) true }
        ensures awaited { self.new.awaited ≡ (if closes_of target then None else Some letter) }
    {
        self.seen[letter.index()] = true;
        self.awaited = match target {
            Target::Place => None,
            _ => Some(letter),
        };
    }
}
