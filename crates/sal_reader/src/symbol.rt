ghost use Rattle.std.specs.Prelude.{◌≡◌, IfOk};
ghost use Rattle.std.specs.Str.{IsUtf8};
ghost use Rattle.std.specs.Str.Parse.{digits_value};
ghost use Rattle.sal_ast.specs.Brackets.{kind_role};
ghost use Rattle.sal_grammar.specs.Expressions.{ident};
ghost use Rattle.sal_grammar.specs.Tokens.{class_of};
ghost use Rattle.sal_reader.specs.Source.{token_in};
ghost use Rattle.sal_reader.specs.code.Brackets.{effect_of};
ghost use Rattle.sal_text.specs.Standing.{StandsIn};

use crate::brackets::{Effect, effect_of_sign};
use crate::classes;
use crate::text::{bytes_text, number_value, string_text};
use sal_ast::{Ident, Kind};
use sal_grammar::Class;
use sal_text::Token;
use sal_value::{NoMemory, Text};
use std::alloc::Global;
use std::marker::Model;

/// A token of a text with its class and its bytes, which contracts see as a token of the grammar.
#[derive(Drop)]
pub struct Symbol<'t> {
    kind: Kind,
    class: Class,
    bytes: &'t [u8],
    at: u32,
}

impl<'t> Model for Symbol<'t> {
    ghost use Rattle.sal_grammar.specs.Tokens.{Token};

    ghost Value = { Token };

    ghost use Rattle.sal_reader.specs.code.Symbols.{token_of, IsSymbol};

    ghost view = { token_of };

    ghost invariant = { IsSymbol };
}

impl<'t> Symbol<'t> {
    pub fn class(&self) -> Class
        ensures { result ≡ class_of self.now }
    {
        self.class
    }

    /// The token's first byte.
    pub fn at(&self) -> u32
        ensures { result ≡ self.now.at }
    {
        self.at
    }

    /// The token at a span of a text.
    pub fn of(source: &'t [u8], token: &Token) -> Symbol<'t>
        requires utf8 { IsUtf8 source.now }
        requires stands { StandsIn source.now token.now }
        ensures { result ≡ token_in source.now token.now }
    {
        let bytes = &source[token.start as usize..token.end as usize];
        Symbol {
            kind: token.kind,
            class: classes::class_of(token.kind, bytes),
            bytes,
            at: token.start,
        }
    }

    /// The token's text: of a string its value, with the escapes resolved.
    pub fn text(&self, alloc: Global) -> Result<Text, NoMemory>
        ensures { IfOk result (λ text. text ≡ self.now.text) }
    {
        match self.kind {
            Kind::Str => string_text(alloc, self.bytes),
            Kind::Word | Kind::Id | Kind::Number | Kind::Sign => bytes_text(alloc, self.bytes),
        }
    }

    /// The identifier that the token is.
    pub fn ident(&self, alloc: Global) -> Result<Ident, NoMemory>
        ensures { IfOk result (λ name. name ≡ ident self.now) }
    {
        let text = self.text(alloc)?;
        Ok(Ident {
            text,
            at: self.at(),
        })
    }

    /// The number that the token is.
    pub fn number_value(&self) -> u32
        requires { class_of self.now ≡ Class.Number }
        ensures { result ≡ digits_value 10 self.now.text }
    {
        number_value(self.bytes)
    }

    /// What the token does to the open brackets.
    pub fn effect(&self) -> Effect
        ensures { result ≡ effect_of (kind_role self.now.kind self.now.text) }
    {
        match self.kind {
            Kind::Sign => effect_of_sign(self.bytes),
            Kind::Word | Kind::Id | Kind::Number | Kind::Str => Effect::Keeps,
        }
    }
}
