//! Laws of the definitions: functions without work, whose contracts are the laws.

ghost use Rattle.sal_carriage.specs.Exchange.{LinksKeepOrder};
ghost use Rattle.sal_carriage.specs.Halves.{HalvesCommute};
ghost use Rattle.sal_carriage.specs.Laws.{HonestFramesCross, NetworksStayHonest, OffersAreLast, PushesChangeNothing, UnwantedFramesChangeLittle};

/// Bytes that carry no wanted fragment change a link only in what it knows to be acknowledged, and in whether it
/// owes an acknowledgement.
pub fn unwanted_frames_change_little()
    ensures { UnwantedFramesChangeLittle }
{}

/// Whichever frame an honest network delivers, in any order and any number of times, a link hands out only the first
/// envelope that is in transit to it.
pub fn honest_frames_cross()
    ensures { HonestFramesCross }
{}

/// Whatever links do, a frame that was sent carries what was offered under its number, for ever.
pub fn networks_stay_honest()
    ensures { NetworksStayHonest }
{}

/// An envelope that is offered is the last one in transit.
pub fn offers_are_last()
    ensures { OffersAreLast }
{}

/// What is sent stays in transit.
pub fn pushes_change_nothing()
    ensures { PushesChangeNothing }
{}

/// Whatever is offered, sent, lost, repeated and delivered in whichever order, each of two nodes hands out a prefix of the
/// envelopes that were offered at the other, and all of them once all is acknowledged there. Each datagram that was
/// ever sent carries what was offered under its number, and acknowledges no more than its sender took.
pub fn links_keep_order()
    ensures { LinksKeepOrder }
{}

/// An envelope may be offered between the two halves of taking another one, and an offer that is withdrawn changes
/// nothing.
pub fn halves_commute()
    ensures { HalvesCommute }
{}
