//! The parser of programs.

ghost use Rattle.std.specs.Prelude.{◌≡◌, ◌-◌, ◌≤◌, length, IfOk, IfErr};
ghost use Rattle.sal_ast.specs.declared.program.Program.{Program};
ghost use Rattle.sal_grammar.specs.Programs.{rule_of};
ghost use Rattle.sal_grammar.specs.Refusals.{IsProgram, place_of, bracket_before};
ghost use Rattle.sal_grammar.specs.Tokens.{Lexemes};
ghost use Rattle.sal_parse.specs.Answers.{IsAnswer, IsFault};
ghost use Rattle.sal_reader.specs.Source.{tokens_in};
ghost use Rattle.sal_text.specs.Tokens.{Covers};

use crate::fault::ParseFault;
use crate::programs::top;
use sal_ast::{LONGEST_PROGRAM, Program};
use sal_grammar::Reason;
use sal_reader::{Cursor, Stop, Symbol, bracket_before, rule_of, symbols_of};
use sal_text::Tokens;
use std::alloc::Global;

/// How many constructs that count may stand inside one another.
const DEEPEST: usize = 64;

/// The byte of a token, and of the end the text's length.
fn place_of(size: u32, symbols: &[Symbol<'_>], token: usize) -> u32
    ensures { result ≡ place_of size symbols.now token }
{
    match symbols.get(token) {
        Some(symbol) => symbol.at(),
        None => size,
    }
}

/// The refusal of the first token of those that are left.
fn refusal(size: u32, symbols: &[Symbol<'_>], left: &[Symbol<'_>], reason: Reason) -> ParseFault
    requires { length symbols.now ≤ LONGEST_PROGRAM }
    ensures { let token = length symbols.now - length left.now in
        result ≡ ParseFault.Refused (rule_of reason left.now) token (place_of size symbols.now token) (bracket_before symbols.now token) }
{
    let token = symbols.len().saturating_sub(left.len());
    ParseFault::Refused {
        rule: rule_of(reason, left),
        token: token as u32,
        at: place_of(size, symbols, token),
        bracket: bracket_before(symbols, token),
    }
}

/// The program that tokens of a text of this size spell.
fn read<'t>(alloc: Global, size: u32, symbols: &'t [Symbol<'t>]) -> Result<Program, ParseFault>
    requires few { length symbols.now ≤ LONGEST_PROGRAM }
    requires lexemes { Lexemes symbols.now }
    ensures tree { IfOk result (λ p. IsProgram 64 p symbols.now) }
    ensures only { (p : Program) → IsProgram 64 p symbols.now → IsAnswer p result }
    ensures refused { IfErr result (IsFault size symbols.now) }
{
    let mut cursor = Cursor::new(symbols);
    match top(alloc, &mut cursor, DEEPEST) {
        Ok(program) => Ok(program),
        Err(Stop::Memory) => Err(ParseFault::Memory),
        Err(Stop::Refused(reason)) => Err(refusal(size, symbols, cursor.rest(), reason)),
    }
}

/// The tree of a program, or its first refused token.
pub fn parse(alloc: Global, tokens: &Tokens<'_>) -> Result<Program, ParseFault>
    requires short { length tokens.now.source.now ≤ LONGEST_PROGRAM }
    requires covers { Covers tokens.now.source.now tokens.now.items }
    ensures tree { IfOk result (λ p. IsProgram 64 p (tokens_in tokens.now.source.now tokens.now.items)) }
    ensures only { (p : Program) → IsProgram 64 p (tokens_in tokens.now.source.now tokens.now.items) → IsAnswer p result }
    ensures refused { IfErr result (IsFault (length tokens.now.source.now) (tokens_in tokens.now.source.now tokens.now.items)) }
{
    let symbols = symbols_of(alloc, tokens)?;
    read(alloc, tokens.source.len() as u32, symbols.as_slice())
}
