//! Giving a reply to the pending messages that wait for it.

ghost use Rattle.std.specs.Prelude.{◌≡◌, map, IfOk};
ghost use Rattle.sal_source.specs.Give.{resolve};

use crate::made::same_name;
use sal_mail::Message;
use sal_value::{List, Name, NoMemory, Value};
use std::alloc::Global;

fn resolve(
    alloc: Global,
    maker: &Name,
    number: u64,
    value: &Value,
    message: Message,
) -> Result<Message, NoMemory>
    ensures { IfOk result (λ m. m ≡ resolve maker.now number value.now message) }
{
    if same_name(maker, &message.maker) {
        message.with_reply(alloc, number, value)
    } else {
        Ok(message)
    }
}

/// Gives the reply with this number to those of its maker's messages that wait for it.
pub fn resolve_all(
    alloc: Global,
    maker: &Name,
    number: u64,
    value: &Value,
    messages: List<Message>,
) -> Result<List<Message>, NoMemory>
    ensures { IfOk result (λ all. all ≡ map (resolve maker.now number value.now) messages) }
{
    let mut all = List::new(alloc);
    for message in messages.into_vec() {
        all.push(resolve(alloc, maker, number, value, message)?)?;
    }
    Ok(all)
}
