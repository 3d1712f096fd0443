use sal_carriage::Taken;
use sal_value::List;

/// The bytes of an envelope, and the node to which it goes.
#[derive(Drop)]
pub struct Parcel {
    pub to: u8,
    pub bytes: List<u8>,
}

/// What a node's links made of a datagram.
#[derive(Drop)]
pub struct Took {
    pub taken: Taken,
    /// Whether a link is another one than before.
    pub changed: bool,
}
