ghost use Rattle.sal_source.specs.Laws.{RepliesCommute};
ghost use Rattle.sal_source.specs.Once.{JoinsResolveOnce, MessagesAreTakenOnce, StepsAnswerOnce};

/// Two replies may be given in either order: only the order of answers tells which came first.
pub fn replies_commute()
    ensures { RepliesCommute }
{}

/// In every run of every program no message is handled or printed twice.
pub fn messages_are_taken_once()
    ensures { MessagesAreTakenOnce }
{}

/// In every run of every program no join resolves twice.
pub fn joins_resolve_once()
    ensures { JoinsResolveOnce }
{}

/// A step of a run gives at most one answer to the outside.
pub fn steps_answer_once()
    ensures { StepsAnswerOnce }
{}
