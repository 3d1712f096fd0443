//! What holds of every text.

ghost use Rattle.sal_reader.specs.Source.{TokensAreLexemes};

/// The tokens of a covered text are tokens of the language.
pub fn tokens_are_lexemes()
    ensures { TokensAreLexemes }
{}
