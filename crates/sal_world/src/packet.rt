use sal_carriage::Datagram;

/// A packet that was sent.
#[derive(Drop)]
pub struct Packet {
    pub datagram: Datagram,
    /// Whether it was ever delivered. It is kept all the same, and can be delivered again.
    pub delivered: bool,
}
