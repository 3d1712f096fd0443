//! Why a text is no program.

use sal_grammar::ParseRule;
use sal_parse::ParseFault;
use sal_sorts::TypeFault;
use sal_text::{LexFault, LexRule};

/// The rule that a text breaks, and the byte where it does.
#[derive(Clone, Copy, Debug, PartialEq, Eq)]
pub enum Refusal {
    Lexical {
        rule: LexRule,
        at: u32,
    },
    /// `bracket` is the byte of the innermost bracket that is open there.
    Grammar {
        rule: ParseRule,
        at: u32,
        bracket: Option<u32>,
    },
    /// The number of a typing rule.
    Typing {
        rule: u8,
        at: u32,
    },
}

/// Why a text could not be read.
#[derive(Clone, Copy, Debug, PartialEq, Eq)]
pub enum ReadFault {
    Refused(Refusal),
    Memory,
}

impl From<LexFault> for ReadFault {
    ghost use Rattle.std.specs.Prelude.{◌≡◌};
    ghost use Rattle.salsa.specs.code.Faults.{of_lexer};

    ghost from_gives = { λ fault e. e ≡ of_lexer fault };

    fn from(fault: LexFault) -> ReadFault {
        match fault {
            LexFault::Refused { rule, at } => ReadFault::Refused(Refusal::Lexical { rule, at }),
            LexFault::Memory => ReadFault::Memory,
        }
    }
}

impl From<ParseFault> for ReadFault {
    ghost use Rattle.std.specs.Prelude.{◌≡◌};
    ghost use Rattle.salsa.specs.code.Faults.{of_parser};

    ghost from_gives = { λ fault e. e ≡ of_parser fault };

    fn from(fault: ParseFault) -> ReadFault {
        match fault {
            ParseFault::Refused {
                rule,
                at,
                bracket,
                ..
            } => ReadFault::Refused(Refusal::Grammar { rule, at, bracket }),
            ParseFault::Memory => ReadFault::Memory,
        }
    }
}

impl From<TypeFault> for ReadFault {
    ghost use Rattle.std.specs.Prelude.{◌≡◌};
    ghost use Rattle.salsa.specs.code.Faults.{of_checker};

    ghost from_gives = { λ fault e. e ≡ of_checker fault };

    fn from(fault: TypeFault) -> ReadFault {
        match fault {
            TypeFault::Refused { rule, at } => ReadFault::Refused(Refusal::Typing { rule, at }),
            TypeFault::Memory => ReadFault::Memory,
        }
    }
}
