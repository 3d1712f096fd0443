//! The tokens of a text.

ghost use Rattle.std.specs.Prelude.{◌≡◌, IfOk};
ghost use Rattle.sal_reader.specs.Source.{tokens_in};
ghost use Rattle.sal_text.specs.Tokens.{Covers};

use crate::symbol::Symbol;
use sal_text::Tokens;
use sal_value::{List, NoMemory};
use std::alloc::Global;

/// The tokens of a text with their classes.
pub fn symbols_of<'t>(alloc: Global, tokens: &Tokens<'t>) -> Result<List<Symbol<'t>>, NoMemory>
    requires { Covers tokens.now.source.now tokens.now.items }
    ensures { IfOk result (λ symbols. symbols ≡ tokens_in tokens.now.source.now tokens.now.items) }
{
    let mut symbols = List::new(alloc);
    'tokens: for i in 0..tokens.items.len() {
        let token = tokens.items.as_slice()[i];
        symbols.push(Symbol::of(tokens.source, &token))?;
    }
    Ok(symbols)
}
