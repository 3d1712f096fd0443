ghost use Rattle.std.specs.Prelude.{◌≡◌, length};
ghost use Rattle.sal_grammar.specs.Parsers.{token_at, allowed};
ghost use Rattle.sal_grammar.specs.Tokens.{next};
ghost use Rattle.sal_reader.specs.Reads.{Reads, Takes, set_of};

use crate::set::Set;
use crate::stop::Stop;
use crate::symbol::Symbol;
use sal_grammar::{Class, Reason};
use std::marker::Model;

/// The tokens that are still to be read.
#[derive(Drop)]
pub struct Cursor<'t> {
    rest: &'t [Symbol<'t>],
}

impl<'t> Model for Cursor<'t> {
    ghost use Rattle.std.specs.Prelude.{List};
    ghost use Rattle.sal_grammar.specs.Tokens.{Token};

    ghost Value = { List Token };

    ghost view = { λ c. c.rest.now };
}

impl<'t> Cursor<'t> {
    pub fn new(rest: &'t [Symbol<'t>]) -> Cursor<'t>
        ensures { result ≡ rest.now }
    {
        Cursor { rest }
    }

    /// The tokens that are left.
    pub fn rest(&self) -> &'t [Symbol<'t>]
        ensures { result.now ≡ self.now }
    {
        self.rest
    }

    /// How many tokens are left.
    pub fn len(&self) -> usize
        ensures { result ≡ length self.now }
    {
        self.rest.len()
    }

    /// The class of the next token.
    pub fn next(&self) -> Class
        ensures { result ≡ next self.now }
    {
        match self.rest {
            [] => Class::End,
            [symbol, ..] => symbol.class(),
        }
    }

    /// Whether the next token is in a set.
    pub fn sees(&self, set: Set) -> bool
        ensures { result ≡ set_of set (next self.now) }
    {
        set.has(self.next())
    }

    /// The next token, where it is in a set.
    pub fn take(&mut self, set: Set) -> Result<&'t Symbol<'t>, Stop>
        ensures { Takes (token_at (set_of set) self.old) result self.new }
    {
        match self.rest {
            [symbol, rest @ ..] if set.has(symbol.class()) => {
                self.rest = rest;
                Ok(symbol)
            }
            _ => Err(Stop::Refused(Reason::Form)),
        }
    }

    /// Whether one more construct that counts may be opened, where so many may.
    pub fn enter(&self, depth: usize) -> Result<(), Stop>
        ensures { Reads (allowed depth self.now) result self.now }
    {
        if depth == 0 {
            return Err(Stop::Refused(Reason::Depth));
        }
        Ok(())
    }
}
