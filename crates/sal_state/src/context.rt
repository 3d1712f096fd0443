use sal_ast::Behavior;
use sal_handler::EnclosingJoin;
use sal_mail::Reply;
use sal_value::Name;

/// What a handler reads and doesn't change.
#[derive(Drop)]
pub struct Context<'a, A> {
    pub me: &'a Name,
    /// To whom the handled message owes its reply.
    pub reply: &'a Reply,
    /// The program's behaviours.
    pub behaviors: &'a [Behavior],
    /// The number of the actor's behaviour.
    pub mine: u16,
    /// The joins whose blocks are executed, from the innermost outwards.
    pub within: &'a [EnclosingJoin],
    /// What new actors get.
    pub actors: &'a A,
}
