//! Tokens, and why a text has none.

ghost use Rattle.std.specs.Prelude.{◌≡◌, slice_range};
ghost use Rattle.sal_text.specs.Spans.{SpanIsInside, span_bytes};

use sal_ast::Kind;
use sal_value::{List, NoMemory};
use thiserror::Error;

/// A token, and the bytes `start..end` of the text that spell it.
#[derive(Clone, Copy, Debug, PartialEq, Eq)]
pub struct Token {
    pub kind: Kind,
    pub start: u32,
    pub end: u32,
}

/// A text and its tokens.
#[derive(Debug, Drop)]
pub struct Tokens<'s> {
    pub source: &'s [u8],
    pub items: List<Token>,
}

/// A lexical rule.
#[derive(Clone, Copy, Debug, PartialEq, Eq)]
pub enum LexRule {
    /// The text has at most 262,144 bytes, and is UTF-8.
    L0,
    /// Each character begins a token.
    L1,
    /// A string is closed on its line.
    L2,
    /// A number has no leading zero, and is at most 2,147,483,648.
    L3,
    /// A comment `/*` is closed.
    L4,
    /// A backslash is followed by one of the eight letters of escapes.
    L5,
}

#[derive(Clone, Copy, Debug, PartialEq, Eq, Error)]
pub enum LexFault {
    #[error("refused at byte {at}")]
    Refused { rule: LexRule, at: u32 },
    #[error("no memory")]
    Memory,
}

impl From<NoMemory> for LexFault {
    ghost use Rattle.sal_text.specs.declared.token.LexFault.TheVariants.{Memory};

    ghost from_gives = { λ _ e. e ≡ Memory };

    fn from(_: NoMemory) -> LexFault {
        LexFault::Memory
    }
}

impl<'s> Tokens<'s> {
    /// The bytes of a token, which aren't copied.
    pub fn slice(&self, i: usize) -> &[u8]
        requires { SpanIsInside self.now.source.now self.now.items i }
        ensures { result.now ≡ span_bytes self.now.source.now self.now.items i }
    {
        let token = self.items.as_slice()[i];
        &self.source[token.start as usize..token.end as usize]
    }
}
