//! What comes from outside: the start, and calls.

ghost use Rattle.std.specs.Prelude.{◌≡◌, [], ◌∷◌, map, true, IfOk, OnOk};
ghost use Rattle.sal_mail.specs.declared.message.Piece.TheVariants.{Known};
ghost use Rattle.sal_handler.specs.declared.turn.Began.TheVariants.{Actor as BeganActor};
ghost use Rattle.sal_node.specs.Links.{has_few_nodes};
ghost use Rattle.sal_source.specs.declared.state.Step.TheVariants.{Post};
ghost use Rattle.sal_source.specs.Configuration.{act_message};
ghost use Rattle.sal_source.specs.Posts.{post_message};
ghost use Rattle.sal_desk.specs.code.Desks.{on_desk};
ghost use Rattle.sal_routing.specs.State as spec;
ghost use Rattle.sal_routing.specs.Routing as routing;
ghost use Rattle.sal_routing.specs.Turns as turns;

use crate::routing::route;
use sal_desk::{Desk, Standing};
use sal_handler::Began;
use sal_mail::{Actor, Fault, FaultKind, Message, Piece, Reply, Target};
use sal_routing::Item;
use sal_source::{Runner, Step};
use sal_value::{CloneIn, List, Name, NoMemory, Uan, Value, Values};
use std::alloc::Global;

// ---- the start

fn act_message(
    alloc: Global,
    words: &Values,
    behavior: u16,
    handler: u16,
) -> Result<Message, NoMemory>
    ensures { IfOk result (λ m. m ≡ act_message words.now behavior handler) }
{
    let mut args = List::new(alloc);
    args.push(Piece::Known(Value::Array(words.clone_in(alloc)?)))?;
    Ok(Message {
        maker: Name::Outside(0),
        serial: 0,
        target: Target::Actor(Name::Anon(0, 0)),
        behavior,
        handler,
        args,
        after: List::new(alloc),
        delay: 0,
        reply: Reply::Nobody,
    })
}

/// The start actor stands here, and the message `act` is ready.
fn start(
    alloc: Global,
    desk: &mut Desk<'_>,
    behavior: u16,
    handler: u16,
    fields: Values,
) -> Result<(), NoMemory>
    requires { desk.old.desk.told.made ≡ [] }
    ensures { OnOk result (desk.new ≡ on_desk (turns.begin_by (BeganActor behavior handler fields)) desk.old) }
{
    let act = act_message(alloc, &desk.plan().words, behavior, handler)?;
    let actor = Actor {
        name: Name::Anon(0, 0),
        behavior,
        fields,
    };
    desk.put_resident(alloc, Standing::new(alloc, actor))?;
    desk.set_next_anon(1);
    desk.tell_made(Name::Anon(0, 0))?;
    desk.make_ready(act)
}

/// The start actor stands here, or there is only the fault of the start.
pub fn begin<R: Runner>(alloc: Global, runner: &R, desk: &mut Desk<'_>) -> Result<(), NoMemory>
    requires { desk.old.desk.told.made ≡ [] }
    ensures { OnOk result (desk.new ≡ on_desk (turns.begin_by (R.meaning runner.now).begin) desk.old) }
{
    match runner.begin(alloc)? {
        Began::Actor {
            behavior,
            handler,
            fields,
        } => start(alloc, desk, behavior, handler, fields),
        Began::Trap(trap) => desk.tell_fault(Fault {
            maker: Name::Outside(0),
            serial: 0,
            kind: FaultKind::Trap(trap),
        }),
    }
}

// ---- calls

fn known(alloc: Global, args: &[Value]) -> Result<List<Piece>, NoMemory>
    ensures { IfOk result (λ pieces. pieces ≡ map Known args.now) }
{
    let mut pieces = List::new(alloc);
    for arg in args {
        pieces.push(Piece::Known(arg.clone_in(alloc)?))?;
    }
    Ok(pieces)
}

fn post_message(
    alloc: Global,
    number: u64,
    to: &Uan,
    behavior: u16,
    handler: u16,
    args: &[Value],
) -> Result<Message, NoMemory>
    ensures { IfOk result (λ m. m ≡ post_message number to.now behavior handler args.now) }
{
    Ok(Message {
        maker: Name::Outside(number),
        serial: 0,
        target: Target::Actor(Name::Uan(to.clone_in(alloc)?)),
        behavior,
        handler,
        args: known(alloc, args)?,
        after: List::new(alloc),
        delay: 0,
        reply: Reply::Outside(number),
    })
}

fn log_post(
    alloc: Global,
    desk: &mut Desk<'_>,
    number: u64,
    to: &Uan,
    behavior: u16,
    handler: u16,
    args: &Values,
) -> Result<(), NoMemory>
    ensures { OnOk result (desk.new ≡ on_desk (spec.log (Post number to.now behavior handler args.now)) desk.old) }
{
    desk.log(Step::Post {
        number,
        target: to.clone_in(alloc)?,
        behavior,
        handler,
        args: args.clone_in(alloc)?,
    })
}

/// A call from outside, which fits, is told and routed.
pub fn post<R: Runner>(
    alloc: Global,
    runner: &R,
    desk: &mut Desk<'_>,
    number: u64,
    to: &Uan,
    behavior: u16,
    handler: u16,
    args: &Values,
) -> Result<(), NoMemory>
    requires { has_few_nodes desk.old.desk.theatre.plan ≡ true }
    ensures { OnOk result (desk.new ≡ on_desk (λ d. routing.route (R.meaning runner.now) (spec.with_work (routing.call_made (post_message number to.now behavior handler args.now) ∷ []) (spec.log (Post number to.now behavior handler args.now) d))) desk.old) }
{
    let message = post_message(alloc, number, to, behavior, handler, args.as_slice())?;
    log_post(alloc, desk, number, to, behavior, handler, args)?;
    desk.push_work(Item::Call(0, message))?;
    route(alloc, runner, desk)
}
