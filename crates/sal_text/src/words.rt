//! The words of the language.

ghost use Rattle.std.specs.Prelude.{◌≡◌};
ghost use Rattle.std.specs.Str.{bytes_eq};
ghost use Rattle.sal_ast.specs.Lexemes.{is_word};
ghost use Rattle.sal_text.specs.code.Scanning.{first_words, second_words, third_words, last_words};

fn same(a: &[u8], b: &[u8]) -> bool
    ensures { result ≡ bytes_eq a.now b.now }
{
    a == b
}

fn first_words(name: &[u8]) -> bool
    ensures { result ≡ first_words name.now }
{
    same(name, b"behavior")
        || same(name, b"new")
        || same(name, b"int")
        || same(name, b"boolean")
        || same(name, b"String")
        || same(name, b"void")
}

fn second_words(name: &[u8]) -> bool
    ensures { result ≡ second_words name.now }
{
    same(name, b"long")
        || same(name, b"Object")
        || same(name, b"token")
        || same(name, b"join")
        || same(name, b"if")
        || same(name, b"else")
}

fn third_words(name: &[u8]) -> bool
    ensures { result ≡ third_words name.now }
{
    same(name, b"while")
        || same(name, b"for")
        || same(name, b"return")
        || same(name, b"true")
        || same(name, b"false")
}

fn last_words(name: &[u8]) -> bool
    ensures { result ≡ last_words name.now }
{
    same(name, b"null")
        || same(name, b"self")
        || same(name, b"this")
        || same(name, b"currentContinuation")
        || same(name, b"standardOutput")
}

/// Whether a name is a word of the language.
#[tactic(auto, using(crate::proofs::WordGroups::words_cut))]
pub fn is_word(name: &[u8]) -> bool
    ensures { result ≡ is_word name.now }
{
    first_words(name) || second_words(name) || third_words(name) || last_words(name)
}
