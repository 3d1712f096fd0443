use sal_mail::{Effects, Reply, Trap};
use sal_value::{Name, Values};

/// The call of one handler: whose it is, with the actor's fields and next number. `migrate` is handler
/// 65,535. New actors are named by the place and the numbers from `fresh` on.
#[derive(Drop)]
pub struct Turn<'a> {
    pub me: &'a Name,
    pub behavior: u16,
    pub fields: &'a Values,
    pub handler: u16,
    pub args: &'a Values,
    /// To whom the handled message owes its reply.
    pub reply: &'a Reply,
    pub serial: u64,
    pub place: u32,
    pub fresh: u64,
}

/// What one handler does.
#[derive(Drop)]
pub enum Outcome {
    Done(Effects),
    Trap(Trap),
}

/// The start actor, and the number of its handler `act`; or the trap of its initialisers or constructor.
#[derive(Drop)]
pub enum Began {
    Actor {
        behavior: u16,
        handler: u16,
        fields: Values,
    },
    Trap(Trap),
}
