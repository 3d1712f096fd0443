/// Why a parser refuses a token.
#[derive(Clone, Copy, Debug, PartialEq, Eq)]
pub enum Reason {
    /// No program goes on with it.
    Form,
    /// It begins one construct more than may stand inside one another.
    Depth,
}

/// A rule of the grammar.
#[derive(Clone, Copy, Debug, PartialEq, Eq)]
pub enum ParseRule {
    /// A program goes on with each token.
    P1,
    /// A program ends with its tokens.
    P2,
    /// At most 64 constructs stand inside one another.
    P3,
}
