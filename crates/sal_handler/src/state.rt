use sal_mail::{Actor, Creation, Join, Message, Trap};
use sal_value::{List, NoMemory, Sort, Text, Value, Values};

/// What a local holds: a value, or the number of the message or join whose reply is the token.
#[derive(Drop)]
pub enum Content {
    Value(Value),
    Token(u64),
}

/// A local variable, a parameter or a token. A token has no type.
#[derive(Drop)]
pub struct Local {
    pub name: Text,
    pub sort: Option<Sort>,
    pub held: Content,
}

/// What a handler changes while it runs.
#[derive(Drop)]
pub struct State {
    /// What is in scope, oldest first.
    pub locals: List<Local>,
    pub fields: Values,
    /// How many loop turns the handler has begun.
    pub turns: u32,
    /// The next number of the actor.
    pub serial: u64,
    pub messages: List<Message>,
    pub joins: List<Join>,
    /// How many places the innermost open join has.
    pub places: u32,
    pub actors: List<Actor>,
    pub creations: List<Creation>,
}

/// To whom the last stage of a chain owes its reply.
#[derive(Clone, Copy, Debug, PartialEq, Eq)]
pub enum End {
    Nobody,
    /// To the stage's own token.
    Token,
    /// To the next place of the innermost open join.
    Place,
    /// To whom the handled message owes its reply.
    Caller,
}

/// An open join, and the number of the stage directly before it.
#[derive(Clone, Copy, Debug, PartialEq, Eq)]
pub struct EnclosingJoin {
    pub join: u64,
    pub before: Option<u64>,
}

/// How a statement ends.
#[derive(Drop)]
pub enum Flow {
    Next,
    Returned(Value),
    /// The reply was passed on.
    Passed,
}

/// Why a handler stopped.
#[derive(Clone, Copy, Debug, PartialEq, Eq)]
pub enum Stop {
    Trap(Trap),
    NoMemory,
}

impl From<NoMemory> for Stop {
    ghost use Rattle.std.specs.Prelude.{◌≡◌};
    ghost use Rattle.sal_handler.specs.declared.state.Stop.TheVariants.{NoMemory};

    ghost from_gives = { λ _ e. e ≡ NoMemory };

    fn from(_: NoMemory) -> Stop {
        Stop::NoMemory
    }
}
