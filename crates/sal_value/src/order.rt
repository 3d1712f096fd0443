//! The order of names.

ghost use Rattle.std.specs.Prelude.{◌≡◌, ◌++◌, ◌∷◌, [], drop, map};
ghost use Rattle.std.specs.Iterator.{YieldsFirst, item_count};
ghost use Rattle.std.specs.Ordering.{nat_cmp};
ghost use Rattle.std.specs.Cmp.Lexicographic.{slice_cmp};
ghost use Rattle.sal_value.specs.Names.{uan_text, lower_case};
ghost use Rattle.sal_value.specs.Order.{key, uan_key};

use crate::address::between;
use crate::name::{Name, Uan};
use std::cmp::Ordering;

/// The bytes of a canonical text from its host on, which takes no memory.
#[derive(Drop)]
struct TextBytes<'a> {
    host: &'a [u8],
    port: &'a [u8],
    path: &'a [u8],
}

impl<'a> Iterator for TextBytes<'a> {
    type Item = u8;

    ghost next_gives = { YieldsFirst (λ t. lower_case t.host.now ++ (t.port.now ++ t.path.now)) };

    ghost remaining = { item_count (λ t. lower_case t.host.now ++ (t.port.now ++ t.path.now)) };

    fn next(&mut self) -> Option<u8> {
        if let Some((first, rest)) = self.host.split_first() {
            self.host = rest;
            return Some(first.to_ascii_lowercase());
        }
        if let Some((first, rest)) = self.port.split_first() {
            self.port = rest;
            return Some(*first);
        }
        let (first, rest) = self.path.split_first()?;
        self.path = rest;
        Some(*first)
    }
}

fn compare_bytes(left: TextBytes, right: TextBytes) -> Ordering
    ensures { result ≡ slice_cmp nat_cmp
        (lower_case left.entry.host.now ++ (left.entry.port.now ++ left.entry.path.now))
        (lower_case right.entry.host.now ++ (right.entry.port.now ++ right.entry.path.now)) }
{
    left.cmp(right)
}

/// Compares by the canonical texts.
#[tactic(auto, using(crate::proofs::Texts::cmp_texts))]
pub fn compare_texts(left: &Uan, right: &Uan) -> Ordering
    ensures { result ≡ slice_cmp nat_cmp (uan_text left.now) (uan_text right.now) }
{
    let (left_port, left_start) = between(left.port);
    let (right_port, right_start) = between(right.port);
    compare_bytes(
        TextBytes {
            host: left.host.as_bytes(),
            port: left_port.split_at(left_start).1,
            path: left.path.as_bytes(),
        },
        TextBytes {
            host: right.host.as_bytes(),
            port: right_port.split_at(right_start).1,
            path: right.path.as_bytes(),
        },
    )
}

/// Compares two universal names by text, and then by host.
#[tactic(auto, using(crate::proofs::Keys::cmp_uans))]
fn compare_uans(left: &Uan, right: &Uan) -> Ordering
    ensures { result ≡ slice_cmp nat_cmp (uan_key left.now) (uan_key right.now) }
{
    compare_texts(left, right).then(
        left.host
            .as_bytes()
            .cmp(right.host.as_bytes())
            .then(left.port.cmp(&right.port)),
    )
}

impl Uan {
    ghost use Rattle.std.specs.Prelude.{◌↔◌, IsTrue};

    /// Whether they are one name.
    pub fn is(&self, other: &Uan) -> bool
        ensures { IsTrue result ↔ (self.now ≡ other.now) }
    {
        self.host == other.host && self.port == other.port && self.path == other.path
    }
}

impl PartialEq for Uan {
    ghost use Rattle.sal_value.specs.Order.{uan_key};
    ghost use Rattle.std.specs.Prelude.{nat_eq};
    ghost use Rattle.std.specs.Cmp.{on_per, partial_equiv_from_equiv};
    ghost use Rattle.std.specs.Cmp.Lexicographic.{nat_list_eq_equiv, pointwise};

    ghost eq = { λ a b. pointwise nat_eq (uan_key a) (uan_key b) };

    ghost laws = { on_per uan_key (partial_equiv_from_equiv nat_list_eq_equiv) };

    fn eq(&self, other: &Uan) -> bool {
        self.is(other)
    }
}

impl Eq for Uan {
    ghost use Rattle.sal_value.specs.Order.{uan_key};
    ghost use Rattle.std.specs.Cmp.{on_equiv};
    ghost use Rattle.std.specs.Cmp.Lexicographic.{nat_list_eq_equiv};

    ghost laws = { on_equiv uan_key nat_list_eq_equiv };
}

impl PartialOrd for Uan {
    ghost use Rattle.sal_value.specs.Order.{uan_key};
    ghost use Rattle.std.specs.Prelude.{Some};
    ghost use Rattle.std.specs.Ordering.{nat_cmp};
    ghost use Rattle.std.specs.Cmp.{on_po};
    ghost use Rattle.std.specs.Cmp.Lexicographic.{slice_cmp, texts_po};

    ghost partial_cmp = { λ a b. Some (slice_cmp nat_cmp (uan_key a) (uan_key b)) };

    ghost laws = { on_po uan_key texts_po };

    fn partial_cmp(&self, other: &Uan) -> Option<Ordering> {
        Some(self.cmp(other))
    }
}

impl Ord for Uan {
    ghost use Rattle.sal_value.specs.Order.{uan_key};
    ghost use Rattle.std.specs.Prelude.{refl};
    ghost use Rattle.std.specs.Ordering.{nat_cmp};
    ghost use Rattle.std.specs.Cmp.{on_total};
    ghost use Rattle.std.specs.Cmp.Lexicographic.{nat_list_cmp_total, slice_cmp, texts_ties};

    ghost cmp = { λ a b. slice_cmp nat_cmp (uan_key a) (uan_key b) };

    ghost total = { on_total uan_key nat_list_cmp_total };

    ghost matches_partial_cmp = { λ a b. refl };

    ghost matches_eq = { λ a b. texts_ties (uan_key a) (uan_key b) };

    fn cmp(&self, other: &Uan) -> Ordering {
        compare_uans(self, other)
    }
}

impl Name {
    ghost use Rattle.std.specs.Prelude.{◌↔◌, IsTrue};

    /// Whether they are one name.
    pub fn is(&self, other: &Name) -> bool
        ensures { IsTrue result ↔ (self.now ≡ other.now) }
    {
        match (self, other) {
            (Name::Anon(theatre, number), Name::Anon(other_theatre, other_number)) => {
                *theatre == *other_theatre && *number == *other_number
            }
            (Name::Outside(number), Name::Outside(other_number)) => *number == *other_number,
            (Name::Uan(uan), Name::Uan(other_uan)) => uan.is(other_uan),
            _ => false,
        }
    }

    /// Compares with a universal name.
    #[tactic(auto, unfolding(crate::specs::Order::key))]
    pub fn cmp_universal(&self, other: &Uan) -> Ordering
        ensures { result ≡ slice_cmp nat_cmp (key self.now) (key (Name.Uan other.now)) }
    {
        match self {
            Name::Uan(uan) => compare_uans(uan, other),
            Name::Anon(..) => Ordering::Less,
            Name::Outside(_) => Ordering::Less,
        }
    }
}

impl PartialEq for Name {
    ghost use Rattle.sal_value.specs.Order.{key};
    ghost use Rattle.std.specs.Prelude.{nat_eq};
    ghost use Rattle.std.specs.Cmp.{on_per, partial_equiv_from_equiv};
    ghost use Rattle.std.specs.Cmp.Lexicographic.{nat_list_eq_equiv, pointwise};

    ghost eq = { λ a b. pointwise nat_eq (key a) (key b) };

    ghost laws = { on_per key (partial_equiv_from_equiv nat_list_eq_equiv) };

    fn eq(&self, other: &Name) -> bool {
        self.is(other)
    }
}

impl Eq for Name {
    ghost use Rattle.sal_value.specs.Order.{key};
    ghost use Rattle.std.specs.Cmp.{on_equiv};
    ghost use Rattle.std.specs.Cmp.Lexicographic.{nat_list_eq_equiv};

    ghost laws = { on_equiv key nat_list_eq_equiv };
}

impl PartialOrd for Name {
    ghost use Rattle.sal_value.specs.Order.{key};
    ghost use Rattle.std.specs.Prelude.{Some};
    ghost use Rattle.std.specs.Ordering.{nat_cmp};
    ghost use Rattle.std.specs.Cmp.{on_po};
    ghost use Rattle.std.specs.Cmp.Lexicographic.{slice_cmp, texts_po};

    ghost partial_cmp = { λ a b. Some (slice_cmp nat_cmp (key a) (key b)) };

    ghost laws = { on_po key texts_po };

    fn partial_cmp(&self, other: &Name) -> Option<Ordering> {
        Some(self.cmp(other))
    }
}

impl Ord for Name {
    ghost use Rattle.sal_value.specs.Order.{key};
    ghost use Rattle.std.specs.Prelude.{refl};
    ghost use Rattle.std.specs.Ordering.{nat_cmp};
    ghost use Rattle.std.specs.Cmp.{on_total};
    ghost use Rattle.std.specs.Cmp.Lexicographic.{nat_list_cmp_total, slice_cmp, texts_ties};

    ghost cmp = { λ a b. slice_cmp nat_cmp (key a) (key b) };

    ghost total = { on_total key nat_list_cmp_total };

    ghost matches_partial_cmp = { λ a b. refl };

    ghost matches_eq = { λ a b. texts_ties (key a) (key b) };

    #[tactic(auto, unfolding(crate::specs::Order::key))]
    fn cmp(&self, other: &Name) -> Ordering {
        match (self, other) {
            (Name::Anon(j, m), Name::Anon(k, n)) => j.cmp(k).then(m.cmp(n)),
            (name, Name::Uan(uan)) => name.cmp_universal(uan),
            (Name::Uan(_), _) => Ordering::Greater,
            (Name::Outside(m), Name::Outside(n)) => m.cmp(n),
            (Name::Outside(_), Name::Anon(..)) => Ordering::Greater,
            (Name::Anon(..), Name::Outside(_)) => Ordering::Less,
        }
    }
}
