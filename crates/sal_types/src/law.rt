//! What holds of every typed program.

ghost use Rattle.sal_types.specs.Laws.{HandlersHaveSignatures, HandlersWithResultsEnd};

/// A handler with a result doesn't fall off its end.
pub fn handlers_with_results_end()
    ensures { HandlersWithResultsEnd }
{}

/// Each handler has a signature.
pub fn handlers_have_signatures()
    ensures { HandlersHaveSignatures }
{}
