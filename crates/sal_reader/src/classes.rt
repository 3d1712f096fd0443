//! The classes of words, signs and identifiers.

ghost use Rattle.std.specs.Prelude.{◌≡◌};
ghost use Rattle.std.specs.Str.{bytes_eq};
ghost use Rattle.sal_grammar.specs.Tokens.{class_by, word_class, sign_class, identifier_class};
ghost use Rattle.sal_text.specs.Values.{lexeme_text};
ghost use Rattle.sal_reader.specs.code.Classes.{first_word, control_word, value_word, first_sign, equal_sign, sum_sign, other_sign};

use sal_ast::Kind;
use sal_grammar::Class;

pub fn same(a: &[u8], b: &[u8]) -> bool
    ensures { result ≡ bytes_eq a.now b.now }
{
    a == b
}

fn value_word(text: &[u8]) -> Class
    ensures { result ≡ value_word text.now }
{
    if same(text, b"true") {
        Class::True
    } else if same(text, b"false") {
        Class::False
    } else if same(text, b"null") {
        Class::Null
    } else if same(text, b"self") {
        Class::Me
    } else if same(text, b"this") {
        Class::This
    } else if same(text, b"currentContinuation") {
        Class::Current
    } else if same(text, b"standardOutput") {
        Class::Output
    } else {
        Class::Unused
    }
}

fn control_word(text: &[u8]) -> Class
    ensures { result ≡ control_word text.now }
{
    if same(text, b"token") {
        Class::Token
    } else if same(text, b"join") {
        Class::Join
    } else if same(text, b"if") {
        Class::If
    } else if same(text, b"else") {
        Class::Else
    } else if same(text, b"while") {
        Class::While
    } else if same(text, b"for") {
        Class::For
    } else if same(text, b"return") {
        Class::Return
    } else {
        value_word(text)
    }
}

fn first_word(text: &[u8]) -> Class
    ensures { result ≡ first_word text.now }
{
    if same(text, b"behavior") {
        Class::Behavior
    } else if same(text, b"new") {
        Class::New
    } else if same(text, b"int") {
        Class::Int
    } else if same(text, b"boolean") {
        Class::Boolean
    } else if same(text, b"String") {
        Class::Text
    } else if same(text, b"void") {
        Class::Void
    } else {
        control_word(text)
    }
}

fn other_sign(text: &[u8]) -> Class
    ensures { result ≡ other_sign text.now }
{
    if same(text, b"!") {
        Class::Not
    } else if same(text, b"&&") {
        Class::And
    } else if same(text, b"||") {
        Class::Or
    } else if same(text, b"@") {
        Class::Then
    } else if same(text, b":") {
        Class::Colon
    } else if same(text, b"<-") {
        Class::Arrow
    } else {
        Class::Unused
    }
}

fn sum_sign(text: &[u8]) -> Class
    ensures { result ≡ sum_sign text.now }
{
    if same(text, b">") {
        Class::Greater
    } else if same(text, b">=") {
        Class::GreaterEq
    } else if same(text, b"+") {
        Class::Plus
    } else if same(text, b"-") {
        Class::Minus
    } else if same(text, b"*") {
        Class::Star
    } else if same(text, b"/") {
        Class::Slash
    } else if same(text, b"%") {
        Class::Percent
    } else {
        other_sign(text)
    }
}

fn equal_sign(text: &[u8]) -> Class
    ensures { result ≡ equal_sign text.now }
{
    if same(text, b";") {
        Class::Semicolon
    } else if same(text, b",") {
        Class::Comma
    } else if same(text, b".") {
        Class::Dot
    } else if same(text, b"=") {
        Class::Assign
    } else if same(text, b"==") {
        Class::Same
    } else if same(text, b"!=") {
        Class::Other
    } else if same(text, b"<") {
        Class::Less
    } else if same(text, b"<=") {
        Class::LessEq
    } else {
        sum_sign(text)
    }
}

fn first_sign(text: &[u8]) -> Class
    ensures { result ≡ first_sign text.now }
{
    if same(text, b"{") {
        Class::OpenBrace
    } else if same(text, b"}") {
        Class::CloseBrace
    } else if same(text, b"(") {
        Class::OpenParen
    } else if same(text, b")") {
        Class::CloseParen
    } else if same(text, b"[") {
        Class::OpenBracket
    } else if same(text, b"]") {
        Class::CloseBracket
    } else {
        equal_sign(text)
    }
}

#[tactic(auto, unfolding(sal_grammar::specs::Tokens::word_class))]
fn word_class(text: &[u8]) -> Class
    ensures { result ≡ word_class text.now }
{
    first_word(text)
}

#[tactic(auto, unfolding(sal_grammar::specs::Tokens::sign_class))]
fn sign_class(text: &[u8]) -> Class
    ensures { result ≡ sign_class text.now }
{
    first_sign(text)
}

#[tactic(auto, unfolding(sal_grammar::specs::Tokens::identifier_class))]
fn identifier_class(text: &[u8]) -> Class
    ensures { result ≡ identifier_class text.now }
{
    if same(text, b"at") {
        Class::At
    } else if same(text, b"delay") {
        Class::Delay
    } else if same(text, b"waitfor") {
        Class::WaitFor
    } else if same(text, b"length") {
        Class::Length
    } else if same(text, b"getReferenceByName") {
        Class::Getter
    } else {
        Class::Id
    }
}

/// The class of a token of a kind, with these bytes.
pub fn class_of(kind: Kind, bytes: &[u8]) -> Class
    ensures { result ≡ class_by kind (lexeme_text kind bytes.now) }
{
    match kind {
        Kind::Word => word_class(bytes),
        Kind::Id => identifier_class(bytes),
        Kind::Number => Class::Number,
        Kind::Str => Class::Str,
        Kind::Sign => sign_class(bytes),
    }
}
