ghost use Rattle.sal_node.specs.Halves.{OffersAreMadeBetweenHalves};

/// Envelopes may be offered between the two halves of taking another one.
pub fn offers_are_made_between_halves()
    ensures { OffersAreMadeBetweenHalves }
{}
