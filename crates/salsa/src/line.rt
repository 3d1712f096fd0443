//! The lines that tell refusals.
ghost use Rattle.std.specs.Prelude.{◌≡◌, ◌++◌, IfOk, OnOk};
ghost use Rattle.salsa.specs.Programs as spec;
ghost use Rattle.salsa.specs.Programs.{at_byte, bracket_text, refusal_text, refusal_line};
ghost use Rattle.salsa.specs.Inputs as inputs;

use crate::refusal::Refusal;
use sal_grammar::ParseRule;
use sal_text::LexRule;
use sal_value::{NoMemory, Text};
use std::alloc::Global;

/// The words, a number and a newline.
pub fn number_line(alloc: Global, words: &str, number: u64) -> Result<Text, NoMemory>
    ensures { IfOk result (λ line. line ≡ inputs.number_line words.now number) }
{
    let mut line = Text::from_text(alloc, words)?;
    line.push_str(number.to_string(alloc)?.as_str())?;
    line.push_str("\n")?;
    Ok(line)
}

#[tactic(auto, unfolding(crate::specs::Programs::lexical_name))]
fn lexical_name(rule: LexRule) -> &'static str
    ensures { result.now ≡ spec.lexical_name rule }
{
    match rule {
        LexRule::L0 => "L0",
        LexRule::L1 => "L1",
        LexRule::L2 => "L2",
        LexRule::L3 => "L3",
        LexRule::L4 => "L4",
        LexRule::L5 => "L5",
    }
}

#[tactic(auto, unfolding(crate::specs::Programs::grammar_name))]
fn grammar_name(rule: ParseRule) -> &'static str
    ensures { result.now ≡ spec.grammar_name rule }
{
    match rule {
        ParseRule::P1 => "P1",
        ParseRule::P2 => "P2",
        ParseRule::P3 => "P3",
    }
}

/// ` at ` and a byte.
fn push_byte(alloc: Global, line: &mut Text, at: u32) -> Result<(), NoMemory>
    ensures { OnOk result (line.new ≡ line.old ++ at_byte at) }
{
    line.push_str(" at ")?;
    line.push_str(at.to_string(alloc)?.as_str())
}

/// The byte of a bracket, or `-`.
fn push_bracket(alloc: Global, line: &mut Text, bracket: Option<u32>) -> Result<(), NoMemory>
    ensures { OnOk result (line.new ≡ line.old ++ bracket_text bracket) }
{
    match bracket {
        None => line.push_str("-"),
        Some(at) => line.push_str(at.to_string(alloc)?.as_str()),
    }
}

impl Refusal {
    fn push_text(&self, alloc: Global, line: &mut Text) -> Result<(), NoMemory>
        ensures { OnOk result (line.new ≡ line.old ++ refusal_text self.now) }
    {
        match *self {
            Refusal::Lexical { rule, at } => {
                line.push_str(lexical_name(rule))?;
                push_byte(alloc, line, at)
            }
            Refusal::Grammar { rule, at, bracket } => {
                line.push_str(grammar_name(rule))?;
                push_byte(alloc, line, at)?;
                line.push_str(" open ")?;
                push_bracket(alloc, line, bracket)
            }
            Refusal::Typing { rule, at } => {
                line.push_str("Y")?;
                line.push_str(rule.to_string(alloc)?.as_str())?;
                push_byte(alloc, line, at)
            }
        }
    }

    /// `refused RULE at BYTE`, and of a rule of the grammar ` open BYTE`, with a newline.
    pub fn line(&self, alloc: Global) -> Result<Text, NoMemory>
        ensures { IfOk result (λ line. line ≡ refusal_line self.now) }
    {
        let mut line = Text::from_text(alloc, "refused ")?;
        self.push_text(alloc, &mut line)?;
        line.push_str("\n")?;
        Ok(line)
    }
}
