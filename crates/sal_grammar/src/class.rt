/// What a token is for the grammar: one class for each word, sign and identifier that it spells out.
#[derive(Clone, Copy, Debug, PartialEq, Eq)]
pub enum Class {
    Behavior,
    New,
    Int,
    Boolean,
    /// `String`
    Text,
    Void,
    Token,
    Join,
    If,
    Else,
    While,
    For,
    Return,
    True,
    False,
    Null,
    /// `self`
    Me,
    This,
    /// `currentContinuation`
    Current,
    /// `standardOutput`
    Output,
    OpenBrace,
    CloseBrace,
    OpenParen,
    CloseParen,
    OpenBracket,
    CloseBracket,
    Semicolon,
    Comma,
    Dot,
    /// `=`
    Assign,
    /// `==`
    Same,
    /// `!=`
    Other,
    Less,
    LessEq,
    Greater,
    GreaterEq,
    Plus,
    Minus,
    Star,
    Slash,
    Percent,
    Not,
    And,
    Or,
    /// `@`
    Then,
    Colon,
    /// `<-`
    Arrow,
    At,
    Delay,
    WaitFor,
    Length,
    /// `getReferenceByName`
    Getter,
    /// Any other identifier.
    Id,
    Number,
    Str,
    /// A token that the grammar doesn't have.
    Unused,
    /// The end of the tokens.
    End,
}
