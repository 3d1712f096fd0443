//! What is kept of one name, and what the operations answer.

ghost use Rattle.std.specs.Prelude.{◌≡◌, false};
ghost use Rattle.sal_naming.specs.Table.{place_and_moves, place_and_moves_of, if_standing};
ghost use Rattle.sal_naming.specs.Changes.{update_entry, delete_entry};

use sal_value::Ual;

/// What is kept of a name that was given. A name stays here after it is withdrawn, so that it is
/// never given again.
#[derive(Debug, Drop)]
pub struct Entry {
    /// The theatre where its actor is.
    pub place: Ual,
    /// How often the actor moved.
    pub moves: u64,
    pub withdrawn: bool,
}

/// What putting a name answers.
#[derive(Clone, Copy, Debug, PartialEq, Eq)]
pub enum Put {
    Bound,
    /// The name was given before, even if it was withdrawn since.
    Taken,
}

/// What asking for a name answers.
#[derive(Clone, Copy, Debug)]
pub enum Get<'a> {
    /// The locator, and the number of moves.
    At(&'a Ual, u64),
    NotFound,
}

/// What updating a name answers.
#[derive(Clone, Copy, Debug, PartialEq, Eq)]
pub enum Updated {
    Done,
    /// As many moves or more are known.
    Stale,
    NotFound,
}

/// What deleting a name answers.
#[derive(Clone, Copy, Debug, PartialEq, Eq)]
pub enum Deleted {
    Done,
    NotFound,
}

impl Entry {
    pub(crate) fn new(place: Ual) -> Entry
        ensures { result ≡ record { place = place; moves = 0; withdrawn = false } }
    {
        Entry {
            place,
            moves: 0,
            withdrawn: false,
        }
    }

    pub(crate) fn get(&self) -> Get<'_>
        ensures { place_and_moves result ≡ place_and_moves_of (if_standing self.now) }
    {
        if self.withdrawn {
            return Get::NotFound;
        }
        Get::At(&self.place, self.moves)
    }

    pub(crate) fn update(&mut self, place: Ual, moves: u64) -> Updated
        ensures { (result, self.new) ≡ update_entry place moves self.old }
    {
        if self.withdrawn {
            return Updated::NotFound;
        }
        if moves <= self.moves {
            return Updated::Stale;
        }
        self.place = place;
        self.moves = moves;
        Updated::Done
    }

    pub(crate) fn delete(&mut self) -> Deleted
        ensures { (result, self.new) ≡ delete_entry self.old }
    {
        if self.withdrawn {
            return Deleted::NotFound;
        }
        self.withdrawn = true;
        Deleted::Done
    }
}
