use sal_value::{CloneIn, Name, NoMemory};
use std::alloc::Global;
use std::cmp::Ordering;

/// By what a message, a join or a creation is known: who made it, and its number there. Keys are
/// ordered by numbers, and then by names.
#[derive(Debug, Drop)]
pub struct Key {
    pub maker: Name,
    pub serial: u64,
}

impl CloneIn for Key {
    fn clone_in(&self, alloc: Global) -> Result<Key, NoMemory> {
        Ok(Key {
            maker: self.maker.clone_in(alloc)?,
            serial: self.serial,
        })
    }
}

impl PartialEq for Key {
    ghost use Rattle.sal_mail.specs.Key.{key_words};
    ghost use Rattle.std.specs.Prelude.{nat_eq};
    ghost use Rattle.std.specs.Cmp.{on_per, partial_equiv_from_equiv};
    ghost use Rattle.std.specs.Cmp.Lexicographic.{nat_list_eq_equiv, pointwise};

    ghost eq = { λ a b. pointwise nat_eq (key_words a) (key_words b) };

    ghost laws = { on_per key_words (partial_equiv_from_equiv nat_list_eq_equiv) };

    fn eq(&self, other: &Key) -> bool {
        self.serial == other.serial && self.maker == other.maker
    }
}

impl Eq for Key {
    ghost use Rattle.sal_mail.specs.Key.{key_words};
    ghost use Rattle.std.specs.Cmp.{on_equiv};
    ghost use Rattle.std.specs.Cmp.Lexicographic.{nat_list_eq_equiv};

    ghost laws = { on_equiv key_words nat_list_eq_equiv };
}

impl PartialOrd for Key {
    ghost use Rattle.sal_mail.specs.Key.{key_words};
    ghost use Rattle.std.specs.Prelude.{Some};
    ghost use Rattle.std.specs.Ordering.{nat_cmp};
    ghost use Rattle.std.specs.Cmp.{on_po};
    ghost use Rattle.std.specs.Cmp.Lexicographic.{slice_cmp, texts_po};

    ghost partial_cmp = { λ a b. Some (slice_cmp nat_cmp (key_words a) (key_words b)) };

    ghost laws = { on_po key_words texts_po };

    fn partial_cmp(&self, other: &Key) -> Option<Ordering> {
        Some(self.cmp(other))
    }
}

impl Ord for Key {
    ghost use Rattle.sal_mail.specs.Key.{key_words};
    ghost use Rattle.std.specs.Prelude.{refl};
    ghost use Rattle.std.specs.Ordering.{nat_cmp};
    ghost use Rattle.std.specs.Cmp.{on_total};
    ghost use Rattle.std.specs.Cmp.Lexicographic.{nat_list_cmp_total, slice_cmp, texts_ties};

    ghost cmp = { λ a b. slice_cmp nat_cmp (key_words a) (key_words b) };

    ghost total = { on_total key_words nat_list_cmp_total };

    ghost matches_partial_cmp = { λ a b. refl };

    ghost matches_eq = { λ a b. texts_ties (key_words a) (key_words b) };

    fn cmp(&self, other: &Key) -> Ordering {
        self.serial
            .cmp(&other.serial)
            .then(self.maker.cmp(&other.maker))
    }
}
