use sal_value::List;

/// An envelope that a datagram completes, before its link takes it.
#[derive(Drop)]
pub struct Arrival {
    pub envelope: List<u8>,
    /// How many fragments more it acknowledges.
    pub acknowledges: usize,
}
