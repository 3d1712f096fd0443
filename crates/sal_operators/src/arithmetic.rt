//! Whole numbers of 32 bits, which wrap.

ghost use Rattle.std.specs.Prelude.{◌≡◌};
ghost use Rattle.std.specs.Int.{w32, int_wrapping_div};
ghost use Rattle.std.specs.Int.Signed.{rem_z};
ghost use Rattle.sal_handler.specs.Evaluation.{Yields};
ghost use Rattle.sal_handler.specs.Values as spec;

use sal_handler::Stop;
use sal_mail::Trap;
use sal_value::Value;

/// The quotient, rounded towards zero.
pub fn quotient(dividend: i32, divisor: i32) -> Result<Value, Stop>
    ensures { Yields (spec.quotient_by (int_wrapping_div w32) dividend divisor) result }
{
    if divisor == 0 {
        return Err(Stop::Trap(Trap::ZeroDivisor));
    }
    Ok(Value::Int(dividend.wrapping_div(divisor)))
}

/// The remainder, which has the dividend's sign.
pub fn remainder(dividend: i32, divisor: i32) -> Result<Value, Stop>
    ensures { Yields (spec.quotient_by rem_z dividend divisor) result }
{
    if divisor == 0 {
        return Err(Stop::Trap(Trap::ZeroDivisor));
    }
    Ok(Value::Int(dividend.wrapping_rem(divisor)))
}
