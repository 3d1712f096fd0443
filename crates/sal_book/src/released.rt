ghost use Rattle.std.specs.Prelude.{◌≡◌, []};

use sal_mail::{Message, Reply};
use sal_value::{List, Value};
use std::alloc::Global;

/// What waits no more: messages, and the replies of joins, in the order in which they were made.
#[derive(Drop)]
pub struct Released {
    pub messages: List<Message>,
    pub replies: List<(Reply, Value)>,
}

impl Released {
    pub fn none(alloc: Global) -> Released
        ensures { result ≡ record { messages = []; replies = [] } }
    {
        Released {
            messages: List::new(alloc),
            replies: List::new(alloc),
        }
    }
}
