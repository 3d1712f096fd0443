ghost use Rattle.sal_resident.specs.Coding.{PackedActorsAreDelimited, PackedActorsAreUnpacked, UnpackedActorsArePacked};

/// What is packed is unpacked.
pub fn packed_actors_are_unpacked()
    ensures { PackedActorsAreUnpacked }
{}

/// What is unpacked is packed by the bytes that were read.
pub fn unpacked_actors_are_packed()
    ensures { UnpackedActorsArePacked }
{}

/// What follows a packed actor is bad, what is cut is Cut, and what is wrong stays so.
pub fn packed_actors_are_delimited()
    ensures { PackedActorsAreDelimited }
{}
