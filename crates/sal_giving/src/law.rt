ghost use Rattle.sal_giving.specs.Giving.{GivingIsByBooks};

/// To give a reply of one actor is to give it to the actor's book: the book keeps what still waits,
/// the messages that it releases wait no more, and the replies that it releases are given next.
pub fn giving_is_by_books()
    ensures { GivingIsByBooks }
{}
