/// The node from which an envelope came, and how many fragments more it acknowledges.
#[derive(Clone, Copy)]
pub struct Origin {
    pub from: u8,
    pub acknowledges: usize,
}
