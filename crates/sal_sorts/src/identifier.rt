ghost use Rattle.std.specs.Prelude.{◌≡◌};
ghost use Rattle.std.specs.Str.{bytes_eq};

use sal_value::Text;
use std::marker::Model;

/// An identifier's text, which stands in a tree.
#[derive(Drop)]
pub struct Identifier<'a> {
    text: &'a [u8],
}

impl<'a> Model for Identifier<'a> {
    ghost use Rattle.std.specs.Prelude.{List, ℕ};

    ghost Value = { List ℕ };

    ghost view = { λ i. i.text.now };
}

impl<'a> Identifier<'a> {
    pub fn new(text: &'a Text) -> Identifier<'a>
        ensures { result ≡ text.now }
    {
        Identifier {
            text: text.as_bytes(),
        }
    }

    pub fn copy(&self) -> Identifier<'a>
        ensures { result ≡ self.now }
    {
        Identifier { text: self.text }
    }

    pub fn as_bytes(&self) -> &'a [u8]
        ensures { result.now ≡ self.now }
    {
        self.text
    }

    pub fn is_same(&self, other: &Identifier<'_>) -> bool
        ensures { result ≡ bytes_eq self.now other.now }
    {
        self.text == other.text
    }
}

/// Whether the text is this identifier.
pub fn is_identifier(text: &Text, name: &Identifier<'_>) -> bool
    ensures { result ≡ bytes_eq text.now name.now }
{
    text.as_bytes() == name.text
}

/// Whether two texts are the same.
pub fn is_same_text(a: &Text, b: &Text) -> bool
    ensures { result ≡ bytes_eq a.now b.now }
{
    a.as_bytes() == b.as_bytes()
}
