//! To which handler a message goes, and what it replies.

ghost use Rattle.std.specs.Prelude.{◌≡◌};
ghost use Rattle.sal_ast.specs.Sorts as spec;
ghost use Rattle.sal_handler.specs.Messages.{or_no_number};
ghost use Rattle.sal_infer.specs.Scopes.{scope_in};

use crate::expressions::expression_sort;
use crate::members::{handler_by_name, handler_type, members_at};
use crate::scope::Scope;
use crate::sorts::{behavior_of, plain, result_sort};
use sal_ast::{Aim, Behavior, Send};
use sal_handler::NO_NUMBER;
use sal_mail::{MIGRATE, OUTPUT, PRINT, PRINTLN};
use sal_value::{Base, Sort};

/// To which handler a message goes: the number of its behaviour, and its own number there.
#[derive(Clone, Copy, Debug, PartialEq, Eq)]
pub struct HandlerId {
    pub behavior: u16,
    pub handler: u16,
}

/// The behaviour of the actor that a message goes to.
fn aim_behavior(scope: &Scope<'_>, aim: &Aim) -> Option<u16>
    ensures { result ≡ spec.target_behavior aim.now (scope_in scope.now) }
{
    match aim {
        Aim::Own => Some(scope.mine),
        Aim::Output(_) => None,
        Aim::Actor(e) => behavior_of(expression_sort(scope, e)),
    }
}

#[tactic(auto, using(crate::proofs::Replies::declared_result_is))]
fn declared_result(behaviors: &[Behavior], behavior: Option<u16>, name: &str) -> Option<Sort>
    ensures { result ≡ spec.declared_result name.now behavior behaviors.now }
{
    let result_type = handler_type(members_at(behaviors, behavior?), name.as_bytes())?;
    result_sort(result_type, behaviors)
}

fn actor_result(behaviors: &[Behavior], behavior: Option<u16>, name: &str) -> Option<Sort>
    ensures { result ≡ spec.actor_result name.now behavior behaviors.now }
{
    if name == "migrate" {
        return plain(Base::Void);
    }
    declared_result(behaviors, behavior, name)
}

/// What a message's reply is.
#[tactic(auto, unfolding(sal_ast::specs::Sorts::message_result))]
pub fn message_result(scope: &Scope<'_>, send: &Send) -> Option<Sort>
    ensures { result ≡ spec.message_result send.now (scope_in scope.now) }
{
    let name = send.handler.text.as_str();
    match &send.aim {
        Aim::Output(_) => plain(Base::Void),
        Aim::Own => actor_result(scope.behaviors, Some(scope.mine), name),
        Aim::Actor(e) => {
            let behavior = behavior_of(expression_sort(scope, e));
            actor_result(scope.behaviors, behavior, name)
        }
    }
}

fn number_or_none(number: Option<u16>) -> u16
    ensures { result ≡ or_no_number number }
{
    match number {
        Some(number) => number,
        None => NO_NUMBER,
    }
}

impl HandlerId {
    ghost use Rattle.sal_handler.specs.Messages as ids;
    ghost use Rattle.sal_infer.specs.code.Ids.{actor_id, id_in_scope};
    ghost use Rattle.sal_infer.specs.Handlers.{IsHandlerIn};

    fn of_output(name: &str) -> HandlerId
        ensures behavior { result.behavior ≡ (ids.output_handler_id name.now).behavior }
        ensures handler { result.handler ≡ (ids.output_handler_id name.now).handler }
    {
        HandlerId {
            behavior: OUTPUT,
            handler: if name == "println" { PRINTLN } else { PRINT },
        }
    }

    fn of_actor(behaviors: &[Behavior], behavior: Option<u16>, name: &str) -> HandlerId
        ensures behavior { result.behavior ≡ (actor_id name.now behavior behaviors.now).behavior }
        ensures handler { result.handler ≡ (actor_id name.now behavior behaviors.now).handler }
    {
        if name == "migrate" {
            return HandlerId {
                behavior: OUTPUT,
                handler: MIGRATE,
            };
        }
        HandlerId {
            behavior: number_or_none(behavior),
            handler: number_or_none(handler_by_name(behaviors, behavior, name.as_bytes())),
        }
    }

    fn in_scope(scope: &Scope<'_>, send: &Send) -> HandlerId
        ensures behavior { result.behavior ≡ (id_in_scope send.now (scope_in scope.now)).behavior }
        ensures handler { result.handler ≡ (id_in_scope send.now (scope_in scope.now)).handler }
    {
        let name = send.handler.text.as_str();
        let behavior = aim_behavior(scope, &send.aim);
        match &send.aim {
            Aim::Output(_) => HandlerId::of_output(name),
            Aim::Own => HandlerId::of_actor(scope.behaviors, behavior, name),
            Aim::Actor(_) => HandlerId::of_actor(scope.behaviors, behavior, name),
        }
    }

    /// To which handler a message goes, by its name and the type of its target.
    pub fn of_message(scope: &Scope<'_>, send: &Send) -> HandlerId
        ensures { IsHandlerIn send.now (scope_in scope.now) result }
    {
        HandlerId::in_scope(scope, send)
    }
}
