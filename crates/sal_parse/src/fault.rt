use sal_grammar::ParseRule;
use sal_value::NoMemory;
use thiserror::Error;

/// Why a list of tokens has no tree.
#[derive(Clone, Copy, Debug, PartialEq, Eq, Error)]
pub enum ParseFault {
    /// The token that is refused, its byte, and that of the innermost bracket that is open before it.
    #[error("refused at byte {at}")]
    Refused {
        rule: ParseRule,
        token: u32,
        at: u32,
        bracket: Option<u32>,
    },
    #[error("no memory")]
    Memory,
}

impl From<NoMemory> for ParseFault {
    ghost use Rattle.std.specs.Prelude.{◌≡◌};
    ghost use Rattle.sal_parse.specs.declared.fault.ParseFault.TheVariants.{Memory};

    ghost from_gives = { λ _ e. e ≡ Memory };

    fn from(_: NoMemory) -> ParseFault {
        ParseFault::Memory
    }
}
