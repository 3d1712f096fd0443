//! Laws of the letters of a world: functions without work, whose contracts are the laws.

ghost use Rattle.sal_transit.specs.Desks.{DesksKeepLinks};
ghost use Rattle.sal_transit.specs.Letters.{OffersBecomeLetters, OffersKeepOrder, PushesKeepLetters, DeliveriesTakeLetters};
ghost use Rattle.sal_transit.specs.Worlds.{IdleServicesKeep, IdleTheatresKeep, MarksKeepLetters, NewWorldsAreSilent, ServicesPush, ServicesTake, TheatresPush, TheatresSend, TheatresTake};

/// What a turn sent are letters once it is offered.
pub fn offers_become_letters()
    ensures { OffersBecomeLetters }
{}

/// To each peer what a turn sent comes last, in its order.
pub fn offers_keep_order()
    ensures { OffersKeepOrder }
{}

/// What is sent on its links changes no letter.
pub fn pushes_keep_letters()
    ensures { PushesKeepLetters }
{}

/// Whichever datagram is delivered, and however often, a node takes only the first letter from its sender.
pub fn deliveries_take_letters()
    ensures { DeliveriesTakeLetters }
{}

/// In a new world all links stand, and nothing is in transit.
pub fn new_worlds_are_silent()
    ensures { NewWorldsAreSilent }
{}

/// Pieces of what a theatre's turn sent are pieces of letters once the turn is done.
pub fn theatres_send()
    ensures { TheatresSend }
{}

/// The envelope that a theatre takes of a packet is a letter no more, and what its turn sent is one.
pub fn theatres_take()
    ensures { TheatresTake }
{}

/// A turn that leaves a theatre as it was changes no letter.
pub fn idle_theatres_keep()
    ensures { IdleTheatresKeep }
{}

/// What a theatre pushes changes no letter.
pub fn theatres_push()
    ensures { TheatresPush }
{}

/// The envelope that a naming service takes of a packet is a letter no more, and its answer is one.
pub fn services_take()
    ensures { ServicesTake }
{}

/// A turn of a naming service that changes no link changes no letter.
pub fn idle_services_keep()
    ensures { IdleServicesKeep }
{}

/// What a naming service pushes changes no letter.
pub fn services_push()
    ensures { ServicesPush }
{}

/// That a packet was delivered changes no letter by itself.
pub fn marks_keep_letters()
    ensures { MarksKeepLetters }
{}

/// Whatever a theatre's turn does, its links are those after what came was taken.
pub fn desks_keep_links()
    ensures { DesksKeepLinks }
{}
