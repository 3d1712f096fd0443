//! Envelopes to be offered.

ghost use Rattle.std.specs.Prelude.{◌≡◌, [], ◌∷◌, ◌++◌, OnOk, OnErr};
ghost use Rattle.sal_node.specs.Offers.{AreParcels, IsParcel};
ghost use Rattle.sal_node.specs.declared.parcel.Parcel.{Parcel as SpecParcel};

use sal_node::Parcel;
use sal_value::{List, NoMemory};
use std::alloc::Global;
use std::marker::Model;

/// Envelopes on bytes, each with the node to which it goes, in the order in which they are to be offered.
#[derive(Drop)]
pub struct Parcels {
    items: List<Parcel>,
}

impl Model for Parcels {
    ghost use Rattle.std.specs.Prelude.{List};
    ghost use Rattle.std.specs.Coded.{coded_list};
    ghost use Rattle.sal_node.specs.declared.parcel.Parcel as spec;
    ghost use Rattle.sal_node.specs.contracts.parcel.Parcel as parcel;
    ghost use Rattle.sal_node.specs.Offers.{AreParcels};

    ghost Value = { List spec.Parcel };

    ghost coded = { coded_list parcel.the_row.coded };

    ghost view = { λ p. p.items };

    ghost invariant = { λ p. AreParcels p.items };
}

impl Parcels {
    pub fn new(alloc: Global) -> Parcels
        ensures { result ≡ [] }
    {
        Parcels {
            items: List::new(alloc),
        }
    }

    /// The list, to be offered.
    pub fn items(&self) -> &List<Parcel>
        ensures items { result.now ≡ self.now }
        ensures parcels { AreParcels self.now }
    {
        &self.items
    }

    /// One more at the end.
    pub fn push(&mut self, to: u8, bytes: List<u8>) -> Result<(), NoMemory>
        requires { IsParcel bytes }
        ensures ok { OnOk result (self.new ≡ self.old ++ record { to = to; bytes = bytes } ∷ []) }
        ensures err { OnErr result (self.new ≡ self.old) }
    {
        self.items.push(Parcel { to, bytes })
    }
}
