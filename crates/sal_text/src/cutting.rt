//! Cuts a text into its tokens.

ghost use Rattle.std.specs.Prelude.{◌≡◌, ◌<◌, ◌≤◌, length, drop, IfOk, IfErr};
ghost use Rattle.std.specs.Str.{IsUtf8};
ghost use Rattle.sal_text.specs.Tokens.{Covers};
ghost use Rattle.sal_text.specs.Refusals.{IsRefusal};
ghost use Rattle.sal_text.specs.code.Scanned.{IsScanOf};

use crate::piece::{Scan, scan_front};
use crate::token::{LexFault, LexRule, Token, Tokens};
use sal_ast::LONGEST_PROGRAM;
use sal_value::List;
use std::alloc::Global;
use std::str;

/// The part of a text at a byte.
#[tactic(auto, using(crate::proofs::Sound::found_behind))]
fn part_at(source: &[u8], at: usize) -> Scan
    requires { at < length source.now }
    ensures { IsScanOf result (drop at source.now) }
{
    scan_front(&source[at..])
}

fn cut(alloc: Global, source: &[u8]) -> Result<List<Token>, LexFault>
    requires short { length source.now ≤ LONGEST_PROGRAM }
    requires utf8 { IsUtf8 source.now }
    ensures tokens { IfOk result (Covers source.now) }
    ensures refused { IfErr result (IsRefusal source.now) }
{
    let mut items = List::new(alloc);
    let mut at = 0;
    'parts: while at < source.len() {
        match part_at(source, at) {
            Scan::Between(count) => at += count,
            Scan::Token(kind, count) => {
                let start = at;
                at += count;
                items.push(Token {
                    kind,
                    start: start as u32,
                    end: at as u32,
                })?;
            }
            Scan::Refused(rule, place) => {
                let at = (at + place) as u32;
                return Err(LexFault::Refused { rule, at });
            }
        }
    }
    Ok(items)
}

/// The tokens of a text, or its first refusal.
pub fn lex(alloc: Global, source: &[u8]) -> Result<Tokens<'_>, LexFault>
    ensures source { IfOk result (λ tokens. tokens.source.now ≡ source.now) }
    ensures short { IfOk result (λ tokens. length source.now ≤ LONGEST_PROGRAM) }
    ensures tokens { IfOk result (λ tokens. Covers source.now tokens.items) }
    ensures refused { IfErr result (IsRefusal source.now) }
{
    if source.len() > LONGEST_PROGRAM {
        return Err(LexFault::Refused {
            rule: LexRule::L0,
            at: LONGEST_PROGRAM as u32,
        });
    }
    if let Err(fault) = str::from_utf8(source) {
        return Err(LexFault::Refused {
            rule: LexRule::L0,
            at: fault.valid_up_to() as u32,
        });
    }
    let items = cut(alloc, source)?;
    Ok(Tokens { source, items })
}
