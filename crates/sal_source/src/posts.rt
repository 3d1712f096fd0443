//! Calls from outside.

ghost use Rattle.std.specs.Prelude.{◌≡◌, map, IfOk};
ghost use Rattle.std.specs.List.{list_all};
ghost use Rattle.sal_mail.specs.declared.message.Piece.TheVariants.{Known};
ghost use Rattle.sal_source.specs.Posts as spec;

use sal_mail::{Message, OUTPUT, Piece, Reply, Target};
use sal_value::{List, Name, NoMemory, Uan, Value};
use std::alloc::Global;

fn is_universal(name: &Name) -> bool
    ensures { result ≡ spec.is_universal name.now }
{
    match name {
        Name::Uan(_) => true,
        Name::Anon(..) => false,
        Name::Outside(_) => false,
    }
}

#[tactic(auto, using(crate::proofs::Universal::universals))]
fn holds_universal(value: &Value) -> bool
    ensures { result ≡ spec.holds_universal value.now }
{
    match value {
        Value::Ref(name) => is_universal(name),
        Value::Array(items) => {
            for item in items.as_slice() {
                if !holds_universal(item) {
                    return false;
                }
            }
            true
        }
        Value::Int(_) => true,
        Value::Bool(_) => true,
        Value::Str(_) => true,
        Value::Null => true,
    }
}

fn may_be_posted(value: &Value) -> bool
    ensures { result ≡ spec.may_be_posted value.now }
{
    value.legal() && holds_universal(value)
}

fn may_all_be_posted(args: &[Value]) -> bool
    ensures { result ≡ list_all spec.may_be_posted args.now }
{
    for arg in args {
        if !may_be_posted(arg) {
            return false;
        }
    }
    true
}

/// Whether a post fits, but for what the program says.
pub fn fits_post(last: u64, number: u64, to: &Uan, behavior: u16, args: &[Value]) -> bool
    ensures { result ≡ spec.fits_post last number to.now behavior args.now }
{
    last < number && to.is_readable() && behavior != OUTPUT && may_all_be_posted(args)
}

fn known(alloc: Global, args: &[Value]) -> Result<List<Piece>, NoMemory>
    ensures { IfOk result (λ pieces. pieces ≡ map Known args.now) }
{
    let mut pieces = List::new(alloc);
    for arg in args {
        pieces.push(Piece::Known(arg.clone_in(alloc)?))?;
    }
    Ok(pieces)
}

/// The message of a post.
pub fn post_message(
    alloc: Global,
    number: u64,
    to: &Uan,
    behavior: u16,
    handler: u16,
    args: &[Value],
) -> Result<Message, NoMemory>
    ensures { IfOk result (λ m. m ≡ spec.post_message number to.now behavior handler args.now) }
{
    Ok(Message {
        maker: Name::Outside(number),
        serial: 0,
        target: Target::Actor(Name::Uan(to.clone_in(alloc)?)),
        behavior,
        handler,
        args: known(alloc, args)?,
        after: List::new(alloc),
        delay: 0,
        reply: Reply::Outside(number),
    })
}
