//! Runs, step by step.

ghost use Rattle.std.specs.Prelude.{◌≡◌, [], true, IfOk, OnOk};
ghost use Rattle.std.specs.FinMap as fm;
ghost use Rattle.sal_source.specs.Table.{keys_of};
ghost use Rattle.sal_source.specs.Keys.{name_key};
ghost use Rattle.sal_source.specs.Configuration.{first_by, act_message};
ghost use Rattle.sal_source.specs.Give.{give};
ghost use Rattle.sal_source.specs.Step as spec;
ghost use Rattle.sal_source.specs.code.Changes.{TakesStep};
ghost use Rattle.sal_handler.specs.declared.turn.Began.TheVariants as began;
ghost use Rattle.sal_handler.specs.declared.turn.Outcome.TheVariants.{Done};
ghost use Rattle.sal_value.specs.declared.value.Value.TheVariants.{Null};
ghost use Rattle.sal_source.specs.code.Maps.{actor_of};
ghost use Rattle.sal_source.specs.code.Handling.{IsReceiver, TakesCall, AfterOutcome, Enters, with_handler_effects, after_bind, is_output, can_print};

use crate::actor_map::{ActorMap, ActorState};
use crate::config::Config;
use crate::creations::Creations;
use crate::fresh::are_fresh;
use crate::posts::{fits_post, post_message};
use crate::printing;
use crate::services::is_served;
use crate::waiting::Waiting;
use sal_handler::{Began, Outcome};
use sal_mail::{
    Actor, Answer, Creation, Effects, Fault, FaultKind, Join, MIGRATE, Message, OUTPUT, Piece,
    Reply, Target, Trap,
};
use sal_value::{Authority, List, Name, NoMemory, Text, Uan, Value, Values};
use std::alloc::Global;
use std::marker::Model;

/// A run so far: the configuration to which its steps have come.
#[derive(Drop)]
pub struct Run {
    actors: ActorMap,
    creations: Creations,
    waiting: Waiting,
    output: List<Text>,
    faults: List<Fault>,
    answers: List<(u64, Value)>,
    posted: u64,
}

impl Model for Run {
    ghost use Rattle.sal_source.specs.Table.{keys_of};
    ghost use Rattle.sal_source.specs.Configuration.{Configuration, configuration_code};

    ghost Value = { Configuration };

    ghost coded = { configuration_code };

    ghost view = { λ c. record {
      actors = c.actors;
      given = keys_of c.actors;
      creations = c.creations;
      waiting = c.waiting;
      output = c.output;
      faults = c.faults;
      answers = c.answers;
      posted = c.posted;
    } };
}

/// Who receives a message that is to be handled.
#[derive(Clone, Copy)]
pub enum Receiver<'a> {
    /// The message isn't pending or not ready, or there is no actor for it.
    Nobody,
    /// The actor doesn't understand it.
    NoHandler,
    /// The message, and the name and the state of the actor that handles it.
    Handler(&'a Message, &'a Name, &'a ActorState),
}

/// Whose handler runs for a message, of which behaviour it is, and the message's reply.
#[derive(Drop)]
pub struct Called {
    me: Name,
    behavior: u16,
    reply: Reply,
}

fn act_message(
    alloc: Global,
    words: Values,
    behavior: u16,
    handler: u16,
) -> Result<Message, NoMemory>
    ensures { IfOk result (λ m. m ≡ act_message words behavior handler) }
{
    let mut args = List::new(alloc);
    args.push(Piece::Known(Value::Array(words)))?;
    Ok(Message {
        maker: Name::Outside(0),
        serial: 0,
        target: Target::Actor(Name::Anon(0, 0)),
        behavior,
        handler,
        args,
        after: List::new(alloc),
        delay: 0,
        reply: Reply::Nobody,
    })
}

fn is_migrate(message: &Message) -> bool
    ensures { result ≡ spec.is_migrate_message message.now }
{
    message.behavior == OUTPUT && message.handler == MIGRATE
}

fn understands(name: &Name, state: &ActorState, message: &Message) -> bool
    ensures { result ≡ spec.understands (actor_of (name.now, state.now)).0 message.now }
{
    message.behavior == state.behavior || is_migrate(message)
}

fn answer_replies(
    alloc: Global,
    answer: Answer,
    reply: Reply,
) -> Result<List<(Reply, Value)>, NoMemory>
    ensures { IfOk result (λ gives. gives ≡ spec.answer_replies answer reply) }
{
    let mut gives = List::new(alloc);
    if let Answer::Value(value) = answer {
        gives.push((reply, value))?;
    }
    Ok(gives)
}

/// The messages and joins of a handler wait, and its replies are given. Gives the answers to calls
/// from outside.
fn settle_effects(
    alloc: Global,
    waiting: &mut Waiting,
    maker: &Name,
    messages: List<Message>,
    joins: List<Join>,
    answer: Answer,
    reply: Reply,
) -> Result<List<(u64, Value)>, NoMemory>
    ensures { IfOk result (λ answers. Enters maker.now messages joins answer reply waiting.old waiting.new answers) }
{
    let mut left = answer_replies(alloc, answer, reply)?;
    waiting.open_all(alloc, maker, joins, &mut left)?;
    waiting.put_messages(messages)?;
    let mut answers = List::new(alloc);
    waiting.settle(alloc, &mut answers, left)?;
    Ok(answers)
}

fn target_and_reply(message: Message) -> (Target, Reply)
    ensures { result ≡ (message.target, message.reply) }
{
    let Message { target, reply, .. } = message;
    (target, reply)
}

fn is_output(target: &Target) -> bool
    ensures { result ≡ is_output target.now }
{
    match target {
        Target::Output => true,
        Target::Actor(_) => false,
    }
}

fn bound_actor(alloc: Global, creation: &Creation) -> Result<Actor, NoMemory>
    ensures { IfOk result (λ a. a ≡ spec.bound_actor creation.now) }
{
    Ok(Actor {
        name: Name::Uan(creation.name.clone_in(alloc)?),
        behavior: creation.behavior,
        fields: creation.fields.clone_in(alloc)?,
    })
}

fn start_with_actor(
    alloc: Global,
    words: Values,
    behavior: u16,
    handler: u16,
    fields: Values,
) -> Result<Run, NoMemory>
    ensures { IfOk result (λ c. c ≡ first_by words (began.Actor behavior handler fields)) }
{
    let message = act_message(alloc, words, behavior, handler)?;
    let name = Name::Anon(0, 0);
    let mut more = List::new(alloc);
    more.push(Actor {
        name,
        behavior,
        fields,
    })?;
    let mut actors = ActorMap::new(alloc);
    actors.add_all(more)?;
    let mut waiting = Waiting::new(alloc);
    waiting.put_message(message)?;
    Ok(Run {
        actors,
        creations: Creations::new(alloc),
        waiting,
        output: List::new(alloc),
        faults: List::new(alloc),
        answers: List::new(alloc),
        posted: 0,
    })
}

fn start_with_fault(alloc: Global, kind: Trap) -> Result<Run, NoMemory>
    ensures { IfOk result (λ c. c ≡ first_by [] (began.Trap kind)) }
{
    let maker = Name::Outside(0);
    let mut faults = List::new(alloc);
    faults.push(Fault {
        maker,
        serial: 0,
        kind: FaultKind::Trap(kind),
    })?;
    Ok(Run {
        actors: ActorMap::new(alloc),
        creations: Creations::new(alloc),
        waiting: Waiting::new(alloc),
        output: List::new(alloc),
        faults,
        answers: List::new(alloc),
        posted: 0,
    })
}

impl Run {
    /// The run of no step of a program that begins so, with these words.
    pub fn start(alloc: Global, began: Began, words: Values) -> Result<Run, NoMemory>
        ensures { IfOk result (λ c. c ≡ first_by words began) }
    {
        match began {
            Began::Actor {
                behavior,
                handler,
                fields,
            } => start_with_actor(alloc, words, behavior, handler, fields),
            Began::Trap(kind) => start_with_fault(alloc, kind),
        }
    }

    /// The configuration to which the run has come, with these naming services.
    pub fn config(self, alloc: Global, authorities: List<Authority>) -> Result<Config, NoMemory>
        ensures { IfOk result (λ c. c ≡ record { authorities = authorities; configuration = self }) }
    {
        let Run {
            actors,
            creations,
            waiting,
            output,
            faults,
            answers,
            posted,
        } = self;
        Ok(Config {
            authorities,
            actors: actors.into_actors(alloc)?,
            creations,
            waiting,
            output,
            faults,
            answers,
            posted,
        })
    }

    /// Who receives the pending message with this maker and number.
    pub fn receiver(&self, maker: &Name, serial: u64) -> Receiver<'_>
        ensures { IsReceiver maker.now serial self.now result }
    {
        let Some(message) = self.waiting.message(maker, serial) else {
            return Receiver::Nobody;
        };
        if !message.is_ready() {
            return Receiver::Nobody;
        }
        let Target::Actor(name) = &message.target else {
            return Receiver::Nobody;
        };
        let Some((name, state)) = self.actors.get(name) else {
            return Receiver::Nobody;
        };
        if understands(name, state, message) {
            Receiver::Handler(message, name, state)
        } else {
            Receiver::NoHandler
        }
    }

    fn fail(
        &mut self,
        alloc: Global,
        maker: &Name,
        serial: u64,
        fresh: &[Name],
        kind: FaultKind,
    ) -> Result<bool, NoMemory>
        ensures { IfOk result (λ taken. TakesStep (spec.if_no_names fresh.now (spec.add_fault kind maker.now serial (spec.drop_message maker.now serial self.old))) self.old (self.new, taken)) }
    {
        match fresh {
            [_, ..] => Ok(false),
            [] => {
                let maker_again = maker.clone_in(alloc)?;
                self.faults.push(Fault {
                    maker: maker_again,
                    serial,
                    kind,
                })?;
                self.waiting.take(maker, serial);
                Ok(true)
            }
        }
    }

    /// The step of a message of which `receiver` says that its actor doesn't understand it.
    pub fn no_handler(
        self,
        alloc: Global,
        maker: &Name,
        serial: u64,
        fresh: &[Name],
    ) -> Result<(Run, bool), NoMemory>
        ensures { IfOk result (λ it. TakesStep (spec.fault_no_handler maker.now serial fresh.now self) self it) }
    {
        let mut run = self;
        let taken = run.fail(alloc, maker, serial, fresh, FaultKind::NoHandler)?;
        Ok((run, taken))
    }

    /// Takes the message out, where an actor is called by it.
    fn take_call(
        &mut self,
        alloc: Global,
        maker: &Name,
        serial: u64,
    ) -> Result<Option<Called>, NoMemory>
        ensures { IfOk result (λ it. TakesCall maker.now serial self.old it self.new) }
    {
        let Some(message) = self.waiting.take(maker, serial) else {
            return Ok(None);
        };
        let (target, reply) = target_and_reply(message);
        let Target::Actor(name) = target else {
            return Ok(None);
        };
        let Some((me, state)) = self.actors.get(&name) else {
            return Ok(None);
        };
        let me = me.clone_in(alloc)?;
        let behavior = state.behavior;
        Ok(Some(Called {
            me,
            behavior,
            reply,
        }))
    }

    /// What the handler of this actor made is there, and its replies are given.
    fn enter(&mut self, alloc: Global, called: Called, effects: Effects) -> Result<(), NoMemory>
        requires { fm.contains_key self.old.actors (name_key called.me) ≡ true }
        ensures { OnOk result (self.new ≡ with_handler_effects effects called self.old) }
    {
        let Called {
            me,
            behavior,
            reply,
        } = called;
        let Effects {
            fields,
            answer,
            messages,
            joins,
            actors,
            creations,
            serial,
            fresh: _,
        } = effects;
        let answers = settle_effects(
            alloc,
            &mut self.waiting,
            &me,
            messages,
            joins,
            answer,
            reply,
        )?;
        self.answers.append(answers)?;
        self.creations.put_all(alloc, &me, creations)?;
        self.actors.add_all(actors)?;
        let actor = Actor {
            name: me,
            behavior,
            fields,
        };
        self.actors.set((actor, serial));
        Ok(())
    }

    fn fits(&self, fresh: &[Name], effects: &Effects) -> bool
        ensures { result ≡ spec.fits_fresh fresh.now effects.now self.now }
    {
        fresh.len() == effects.actors.len() && are_fresh(fresh, &self.actors)
    }

    fn done(
        &mut self,
        alloc: Global,
        maker: &Name,
        serial: u64,
        fresh: &[Name],
        effects: Effects,
    ) -> Result<bool, NoMemory>
        ensures { AfterOutcome maker.now serial fresh.now (Done effects) self.old result self.new }
    {
        if !self.fits(fresh, &effects) {
            return Ok(false);
        }
        match self.take_call(alloc, maker, serial)? {
            Some(called) => {
                self.enter(alloc, called, effects)?;
                Ok(true)
            }
            None => Ok(false),
        }
    }

    fn after(
        &mut self,
        alloc: Global,
        maker: &Name,
        serial: u64,
        fresh: &[Name],
        outcome: Outcome,
    ) -> Result<bool, NoMemory>
        ensures { AfterOutcome maker.now serial fresh.now outcome self.old result self.new }
    {
        match outcome {
            Outcome::Done(effects) => self.done(alloc, maker, serial, fresh, effects),
            Outcome::Trap(kind) => self.fail(alloc, maker, serial, fresh, FaultKind::Trap(kind)),
        }
    }

    fn handle(
        &mut self,
        alloc: Global,
        maker: &Name,
        serial: u64,
        fresh: &[Name],
        outcome: Outcome,
    ) -> Result<bool, NoMemory>
        ensures { IfOk result (λ taken. TakesStep (spec.handle_step (λ _. outcome) maker.now serial fresh.now self.old) self.old (self.new, taken)) }
    {
        match self.receiver(maker, serial) {
            Receiver::Nobody => Ok(false),
            Receiver::NoHandler => self.fail(alloc, maker, serial, fresh, FaultKind::NoHandler),
            Receiver::Handler(..) => self.after(alloc, maker, serial, fresh, outcome),
        }
    }

    /// The step of a message whose handler has this outcome, with these names for new actors. False
    /// where the step isn't possible.
    pub fn apply_outcome(
        self,
        alloc: Global,
        maker: &Name,
        serial: u64,
        fresh: &[Name],
        outcome: Outcome,
    ) -> Result<(Run, bool), NoMemory>
        ensures { IfOk result (λ it. TakesStep (spec.handle_step (λ _. outcome) maker.now serial fresh.now self) self it) }
    {
        let mut run = self;
        let taken = run.handle(alloc, maker, serial, fresh, outcome)?;
        Ok((run, taken))
    }

    fn settle(&mut self, alloc: Global, reply: Reply, value: Value) -> Result<(), NoMemory>
        ensures { OnOk result (self.new ≡ give reply value self.old) }
    {
        let mut left = List::new(alloc);
        left.push((reply, value))?;
        let mut answers = List::new(alloc);
        self.waiting.settle(alloc, &mut answers, left)?;
        self.answers.append(answers)?;
        Ok(())
    }

    /// A reply is given to whom it is owed, and then what it fills or completes.
    pub fn give(self, alloc: Global, reply: Reply, value: Value) -> Result<Run, NoMemory>
        ensures { IfOk result (λ it. it ≡ give reply value self) }
    {
        let mut run = self;
        run.settle(alloc, reply, value)?;
        Ok(run)
    }

    /// Whether the message is pending and ready, and goes to the output.
    fn can_print(&self, maker: &Name, serial: u64) -> bool
        ensures { result ≡ can_print (spec.pending maker.now serial self.now) }
    {
        match self.waiting.message(maker, serial) {
            Some(message) => message.is_ready() && is_output(&message.target),
            None => false,
        }
    }

    fn print_out(&mut self, alloc: Global, message: Message) -> Result<(), NoMemory>
        ensures { OnOk result (self.new ≡ give message.reply Null (spec.add_output (spec.message_text message) self.old)) }
    {
        let text = printing::message_text(alloc, &message)?;
        self.output.push(text)?;
        let (_, reply) = target_and_reply(message);
        self.settle(alloc, reply, Value::Null)
    }

    fn print_pending(&mut self, alloc: Global, maker: &Name, serial: u64) -> Result<bool, NoMemory>
        ensures { IfOk result (λ taken. TakesStep (spec.print_step maker.now serial self.old) self.old (self.new, taken)) }
    {
        if !self.can_print(maker, serial) {
            return Ok(false);
        }
        match self.waiting.take(maker, serial) {
            Some(message) => {
                self.print_out(alloc, message)?;
                Ok(true)
            }
            None => Ok(false),
        }
    }

    /// The step of a message to the output. False where the step isn't possible.
    pub fn print(self, alloc: Global, maker: &Name, serial: u64) -> Result<(Run, bool), NoMemory>
        ensures { IfOk result (λ it. TakesStep (spec.print_step maker.now serial self) self it) }
    {
        let mut run = self;
        let taken = run.print_pending(alloc, maker, serial)?;
        Ok((run, taken))
    }

    fn install(
        &mut self,
        alloc: Global,
        actor: Actor,
        maker: &Name,
        serial: u64,
    ) -> Result<(), NoMemory>
        ensures { OnOk result (self.new ≡ after_bind actor maker.now serial self.old) }
    {
        let mut actors = List::new(alloc);
        actors.push(actor)?;
        self.actors.add_all(actors)?;
        self.creations.take(maker, serial);
        Ok(())
    }

    fn bind_pending(
        &mut self,
        alloc: Global,
        authorities: &[Authority],
        maker: &Name,
        serial: u64,
    ) -> Result<bool, NoMemory>
        ensures { IfOk result (λ taken. TakesStep (spec.bind_step authorities.now maker.now serial self.old) self.old (self.new, taken)) }
    {
        let Some(creation) = self.creations.get(maker, serial) else {
            return Ok(false);
        };
        if !is_served(authorities, &creation.1.name) {
            return Ok(false);
        }
        let actor = bound_actor(alloc, &creation.1)?;
        if self.actors.contains(&actor.name) {
            return Ok(false);
        }
        self.install(alloc, actor, maker, serial)?;
        Ok(true)
    }

    /// The step of a creation that comes to its name, where these naming services are there. False
    /// where the step isn't possible.
    pub fn bind(
        self,
        alloc: Global,
        authorities: &[Authority],
        maker: &Name,
        serial: u64,
    ) -> Result<(Run, bool), NoMemory>
        ensures { IfOk result (λ it. TakesStep (spec.bind_step authorities.now maker.now serial self) self it) }
    {
        let mut run = self;
        let taken = run.bind_pending(alloc, authorities, maker, serial)?;
        Ok((run, taken))
    }

    fn refuse_pending(&mut self, alloc: Global, maker: &Name, serial: u64) -> Result<bool, NoMemory>
        ensures { IfOk result (λ taken. TakesStep (spec.refuse_step maker.now serial self.old) self.old (self.new, taken)) }
    {
        let Some(creation) = self.creations.get(maker, serial) else {
            return Ok(false);
        };
        let name = Name::Uan(creation.1.name.clone_in(alloc)?);
        if !self.actors.contains(&name) {
            return Ok(false);
        }
        let maker_again = maker.clone_in(alloc)?;
        self.faults.push(Fault {
            maker: maker_again,
            serial,
            kind: FaultKind::NameTaken,
        })?;
        self.creations.take(maker, serial);
        Ok(true)
    }

    /// The step of a creation whose name was given. False where the step isn't possible.
    pub fn refuse(self, alloc: Global, maker: &Name, serial: u64) -> Result<(Run, bool), NoMemory>
        ensures { IfOk result (λ it. TakesStep (spec.refuse_step maker.now serial self) self it) }
    {
        let mut run = self;
        let taken = run.refuse_pending(alloc, maker, serial)?;
        Ok((run, taken))
    }

    /// A call from outside, where it fits the program. False where the step isn't possible.
    pub fn post(
        self,
        alloc: Global,
        fits: bool,
        number: u64,
        to: &Uan,
        behavior: u16,
        handler: u16,
        args: &[Value],
    ) -> Result<(Run, bool), NoMemory>
        ensures { IfOk result (λ it. TakesStep (spec.post_step fits number to.now behavior handler args.now self) self it) }
    {
        if !fits || !fits_post(self.posted, number, to, behavior, args) {
            return Ok((self, false));
        }
        let message = post_message(alloc, number, to, behavior, handler, args)?;
        let mut run = self;
        run.waiting.put_message(message)?;
        run.posted = number;
        Ok((run, true))
    }
}
