//! The first words of lines.

ghost use Rattle.std.specs.Prelude.{◌≡◌};
ghost use Rattle.sal_schedule.specs.Events.{kind_of};

/// What a line is about, by its first word.
#[derive(Clone, Copy, Debug, PartialEq, Eq)]
pub enum Kind {
    Step,
    Push,
    Deliver,
    Clock,
    Move,
    Post,
    Delete,
    Settle,
}

/// The kind that a first word tells.
#[tactic(auto, unfolding(crate::specs::Events::kind_of))]
pub fn kind_by_word(word: &[u8]) -> Option<Kind>
    ensures { result ≡ kind_of word.now }
{
    if word == b"step".as_slice() {
        return Some(Kind::Step);
    }
    if word == b"push".as_slice() {
        return Some(Kind::Push);
    }
    if word == b"deliver".as_slice() {
        return Some(Kind::Deliver);
    }
    if word == b"clock".as_slice() {
        return Some(Kind::Clock);
    }
    if word == b"move".as_slice() {
        return Some(Kind::Move);
    }
    if word == b"post".as_slice() {
        return Some(Kind::Post);
    }
    if word == b"delete".as_slice() {
        return Some(Kind::Delete);
    }
    if word == b"settle".as_slice() {
        return Some(Kind::Settle);
    }
    None
}
