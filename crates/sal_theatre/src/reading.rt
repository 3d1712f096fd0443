//! What a theatre keeps, to be read.

ghost use Rattle.std.specs.Prelude.{◌≡◌, slice_get};
ghost use Rattle.std.specs.Option.{option_copied};
ghost use Rattle.sal_entries.specs.Entries.{values};
ghost use Rattle.sal_queues.specs.Queues.{filled};

use crate::theatre::Theatre;
use sal_desk::Residents;
use sal_entries::Entries;
use sal_mail::{Message, Plan};
use sal_move::Known;
use sal_node::Links;
use sal_queues::Queues;
use sal_routing::{Item, Pending, Question};
use sal_value::{Name, Uan};

impl Theatre {
    /// Its number.
    pub fn me(&self) -> u8
        ensures { result ≡ self.now.me }
    {
        self.state.me()
    }

    pub fn plan(&self) -> &Plan
        ensures { result.now ≡ self.now.plan }
    {
        self.state.plan()
    }

    /// The actors that stand here, by name.
    pub fn residents(&self) -> &Residents
        ensures { values result.now ≡ self.now.residents }
    {
        self.state.residents()
    }

    /// The ready message at this place.
    pub fn message(&self, i: usize) -> Option<&Message>
        ensures { option_copied result ≡ slice_get self.now.ready i }
    {
        self.state.message(i)
    }

    /// The delayed messages with their moments, in the order in which they joined.
    pub fn delayed(&self) -> &[(u64, Message)]
        ensures { result.now ≡ self.now.delayed }
    {
        self.state.delayed()
    }

    /// What is held for each name, in the order in which it was held.
    pub fn held(&self) -> &Queues<Item>
        ensures { filled result.now ≡ self.now.held }
    {
        self.state.held()
    }

    /// The creations that wait for their names, by number and maker.
    pub fn pending(&self) -> &Entries<(u64, Name), Pending>
        ensures { values result.now ≡ self.now.pending }
    {
        self.state.pending()
    }

    /// Where actors are known to be.
    pub fn places(&self) -> &Entries<Uan, Known>
        ensures { values result.now ≡ self.now.places }
    {
        self.state.places()
    }

    /// The names for which a naming service was asked.
    pub fn questions(&self) -> &Entries<Uan, Question>
        ensures { values result.now ≡ self.now.questions }
    {
        self.state.questions()
    }

    /// A link to each other node of the plan, in the order of their numbers.
    pub fn links(&self) -> &Links
        ensures { result.now ≡ self.now.links }
    {
        self.state.links()
    }

    /// The last reading of the clock.
    pub fn moment(&self) -> u64
        ensures { result ≡ self.now.clock }
    {
        self.state.clock()
    }

    /// The number of the next anonymous actor.
    pub fn next_anon(&self) -> u64
        ensures { result ≡ self.now.next_anon }
    {
        self.state.next_anon()
    }
}
