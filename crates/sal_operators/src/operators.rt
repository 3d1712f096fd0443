//! What operators give on values.

ghost use Rattle.std.specs.Prelude.{◌≡◌};
ghost use Rattle.sal_handler.specs.Evaluation.{Yields};
ghost use Rattle.sal_handler.specs.Values as spec;

use crate::arithmetic::{quotient, remainder};
use crate::texts::plus;
use crate::values::{int_of, is_true};
use sal_ast::Op;
use sal_handler::Stop;
use sal_value::{Name, Value};
use std::alloc::Global;

/// Whether two names are the same.
fn is_same_name(left: &Name, right: &Name) -> bool
    ensures { result ≡ spec.same_name left.now right.now }
{
    left.cmp(right).is_eq()
}

/// What `==` tests.
#[tactic(auto, unfolding(sal_handler::specs::Values::equals))]
pub fn equals(left: &Value, right: &Value) -> bool
    ensures { result ≡ spec.equals left.now right.now }
{
    match (left, right) {
        (Value::Int(left), Value::Int(right)) => *left == *right,
        (Value::Bool(left), Value::Bool(right)) => *left == *right,
        (Value::Str(left), Value::Str(right)) => left.as_str() == right.as_str(),
        (Value::Ref(left), Value::Ref(right)) => is_same_name(left, right),
        (Value::Null, Value::Null) => true,
        _ => false,
    }
}

/// What an operator gives on two values.
#[tactic(auto, unfolding(sal_handler::specs::Values::operate))]
pub fn operate(alloc: Global, op: Op, left: &Value, right: &Value) -> Result<Value, Stop>
    ensures { Yields (spec.operate op left.now right.now) result }
{
    match op {
        Op::Or => Ok(right.clone_in(alloc)?),
        Op::And => Ok(right.clone_in(alloc)?),
        Op::Same => Ok(Value::Bool(equals(left, right))),
        Op::Other => Ok(Value::Bool(!equals(left, right))),
        Op::Less => Ok(Value::Bool(int_of(left) < int_of(right))),
        Op::LessEq => Ok(Value::Bool(int_of(left) <= int_of(right))),
        Op::Greater => Ok(Value::Bool(int_of(left) > int_of(right))),
        Op::GreaterEq => Ok(Value::Bool(int_of(left) >= int_of(right))),
        Op::Add => plus(alloc, left, right),
        Op::Sub => Ok(Value::Int(int_of(left).wrapping_sub(int_of(right)))),
        Op::Mul => Ok(Value::Int(int_of(left).wrapping_mul(int_of(right)))),
        Op::Div => quotient(int_of(left), int_of(right)),
        Op::Rem => remainder(int_of(left), int_of(right)),
    }
}

/// The same as `operate`, without a copy of the right value.
#[tactic(auto, unfolding(sal_handler::specs::Values::operate))]
pub fn operate_owned(alloc: Global, op: Op, left: &Value, right: Value) -> Result<Value, Stop>
    ensures { Yields (spec.operate op left.now right) result }
{
    match op {
        Op::Or => Ok(right),
        Op::And => Ok(right),
        _ => operate(alloc, op, left, &right),
    }
}

/// Whether the left side of `||` or `&&` decides by itself.
pub fn short_circuits(op: Op, left: &Value) -> bool
    ensures { result ≡ spec.short_circuits op left.now }
{
    match op {
        Op::Or => is_true(left),
        Op::And => !is_true(left),
        Op::Same | Op::Other | Op::Less | Op::LessEq | Op::Greater | Op::GreaterEq => false,
        Op::Add | Op::Sub | Op::Mul | Op::Div | Op::Rem => false,
    }
}

/// `-e`, which wraps.
pub fn negate_int(value: &Value) -> Value
    ensures { result ≡ spec.negate_int value.now }
{
    Value::Int(int_of(value).wrapping_neg())
}

/// `!e`
pub fn negate_bool(value: &Value) -> Value
    ensures { result ≡ spec.negate_bool value.now }
{
    Value::Bool(!is_true(value))
}
