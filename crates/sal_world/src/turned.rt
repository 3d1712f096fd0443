/// What an event came to.
#[derive(Clone, Copy, Debug, PartialEq, Eq)]
pub enum Turned {
    Done,
    /// It found nothing to do.
    Nothing,
    /// A push would have brought the packets over their limit; it was not made.
    PacketsFull,
}

/// How settling ended.
#[derive(Clone, Copy, Debug, PartialEq, Eq)]
pub enum Settled {
    AtRest,
    /// All rounds were made, and the world isn't at rest.
    RoundsSpent,
    PacketsFull,
}
