//! The rule by which a program is refused.

ghost use Rattle.std.specs.Prelude.{◌≡◌};
ghost use Rattle.sal_grammar.specs.Programs.{rule_of};

use crate::symbol::Symbol;
use sal_grammar::{ParseRule, Reason};

/// The rule, given the tokens from the refused one on.
pub fn rule_of(reason: Reason, left: &[Symbol<'_>]) -> ParseRule
    ensures { result ≡ rule_of reason left.now }
{
    match reason {
        Reason::Depth => ParseRule::P3,
        Reason::Form => match left {
            [] => ParseRule::P2,
            [_, ..] => ParseRule::P1,
        },
    }
}
