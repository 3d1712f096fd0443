use sal_value::Text;

/// What a token is.
#[derive(Clone, Copy, Debug, PartialEq, Eq)]
pub enum Kind {
    Word,
    Id,
    Number,
    Str,
    Sign,
}

/// A token without its place. The text of a string is its value, with the escapes resolved.
#[derive(Debug, Drop, PartialEq, Eq)]
pub struct Lexeme {
    pub kind: Kind,
    pub text: Text,
}
