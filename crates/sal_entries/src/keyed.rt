//! What can be a key.

ghost use Rattle.std.specs.Prelude.{◌≡◌, IfOk};
ghost use Rattle.sal_value.specs.Table.{TableKey, key_cmp};

use sal_value::{CloneIn, Name, NoMemory, Uan};
use std::alloc::Global;
use std::cmp::Ord;

/// A key that stands for a list of numbers, and is ordered as that list.
pub trait Keyed: Ord + Drop {
    ghost words: { Self → TableKey };

    fn copy_in(&self, alloc: Global) -> Result<Self, NoMemory>
        ensures { IfOk result (λ copy. copy ≡ self.now) };

    ghost by_words: { (a b : Self) → Self.cmp a b ≡ key_cmp (words a) (words b) };
}

impl Keyed for Uan {
    ghost use Rattle.std.specs.Prelude.{refl};
    ghost use Rattle.sal_value.specs.Order.{uan_key};

    ghost words = { uan_key };

    ghost by_words = { λ a b. refl };

    fn copy_in(&self, alloc: Global) -> Result<Uan, NoMemory> {
        self.clone_in(alloc)
    }
}

impl Keyed for Name {
    ghost use Rattle.std.specs.Prelude.{refl};
    ghost use Rattle.sal_value.specs.Order.{key};

    ghost words = { key };

    ghost by_words = { λ a b. refl };

    fn copy_in(&self, alloc: Global) -> Result<Name, NoMemory> {
        self.clone_in(alloc)
    }
}

impl Keyed for (u64, Name) {
    ghost use Rattle.std.specs.Prelude.{refl, ◌∷◌};
    ghost use Rattle.sal_value.specs.Order.{key};

    ghost words = { λ k. k.0 ∷ key k.1 };

    ghost by_words = { λ a b. refl };

    fn copy_in(&self, alloc: Global) -> Result<(u64, Name), NoMemory> {
        Ok((self.0, self.1.clone_in(alloc)?))
    }
}
