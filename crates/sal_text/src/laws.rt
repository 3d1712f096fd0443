//! What holds of every text.

ghost use Rattle.sal_text.specs.Uniqueness.{CoversAreUnique, CoveredOrRefused, NeverCoveredAndRefused, RefusalsAreUnique};
ghost use Rattle.sal_text.specs.Standing.{TokensStand, SpansAreInside};

/// No two lists of tokens cover a text.
pub fn one_list_covers()
    ensures { CoversAreUnique }
{}

/// Tokens cover a text, or it is refused.
pub fn covered_or_refused()
    ensures { CoveredOrRefused }
{}

/// A text that is covered isn't refused.
pub fn covered_is_not_refused()
    ensures { NeverCoveredAndRefused }
{}

/// A text has one refusal at most.
pub fn one_refusal_stands()
    ensures { RefusalsAreUnique }
{}

/// Each token stands in its text, with the bytes of its kind.
pub fn tokens_stand()
    ensures { TokensStand }
{}

/// The bytes of each token can be asked for.
pub fn spans_are_inside()
    ensures { SpansAreInside }
{}
