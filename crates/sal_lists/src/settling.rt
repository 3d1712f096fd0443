//! Giving a step's replies to the joins of a world.

ghost use Rattle.std.specs.Prelude.{◌≡◌, [], Some, None, reverse, IfOk, OnOk, OnErr};
ghost use Rattle.std.specs.Option.{option_copied};
ghost use Rattle.std.specs.FinMap as fm;
ghost use Rattle.sal_value.specs.Table.{write};
ghost use Rattle.sal_source.specs.Keys.{made_key, join_key};
ghost use Rattle.sal_source.specs.Give as give;
ghost use Rattle.sal_source.specs.code.Changes.{option_list, GivesOne, GivesNext, Settles};
ghost use Rattle.sal_mail.specs.declared.message.Reply.TheVariants as reply;
ghost use Rattle.sal_pieces.specs.Steps.{with_opened};
ghost use Rattle.sal_entries.specs.Entries.{values, overlaid};
ghost use Rattle.sal_lists.specs.code.Settling.{waiting_in};

use sal_entries::Entries;
use sal_mail::{Join, Reply};
use sal_value::{CloneIn, List, Name, NoMemory, Value};
use std::alloc::Global;
use std::marker::Model;

/// Open joins with their owners, by number and owner.
pub type OpenJoins = Entries<(u64, Name), (Name, Join)>;

/// Open joins, and beside them what giving replies changes of them.
#[derive(Drop)]
pub struct Settling<'j> {
    before: &'j OpenJoins,
    changes: OpenJoins,
}

impl<'j> Model for Settling<'j> {
    ghost use Rattle.sal_entries.specs.Entries.{values, overlaid};
    ghost use Rattle.sal_lists.specs.code.Settling as spec;

    ghost Value = { spec.Settling };

    ghost coded = { spec.settling_code };

    ghost view = { λ s. record {
      before = values s.before.now;
      joins = overlaid s.changes (values s.before.now);
    } };
}

impl<'j> Settling<'j> {
    pub fn new(alloc: Global, before: &'j OpenJoins) -> Settling<'j>
        ensures { result ≡ record { before = values before.now; joins = values before.now } }
    {
        Settling {
            before,
            changes: Entries::new(alloc),
        }
    }

    fn join_at(&self, key: &(u64, Name)) -> Option<&(Name, Join)>
        ensures { option_copied result ≡ fm.get self.now.joins (made_key key.now.1 key.now.0) }
    {
        if self.changes.contains(key) {
            return self.changes.get(key);
        }
        let before = self.before;
        before.get(key)
    }

    fn put(&mut self, key: (u64, Name), join: Option<(Name, Join)>) -> Result<(), NoMemory>
        ensures { OnOk result (self.new ≡ record self.old { joins = write self.old.joins (made_key key.1 key.0) join }) }
    {
        self.changes.set(key, join)
    }

    fn open(&mut self, alloc: Global, opened: &(Name, Join)) -> Result<(), NoMemory>
        ensures { OnOk result (self.new ≡ record self.old { joins = write self.old.joins (join_key opened.now) (Some opened.now) }) }
    {
        let (owner, join) = opened;
        let key = (join.number, owner.clone_in(alloc)?);
        self.put(key, Some(opened.clone_in(alloc)?))
    }

    /// Opens these joins, from the last one on.
    pub fn open_all(&mut self, alloc: Global, opened: &[(Name, Join)]) -> Result<(), NoMemory>
        ensures { OnOk result (self.new ≡ record self.old { joins = with_opened opened.now self.old.joins }) }
    {
        for opened in opened.iter().rev() {
            self.open(alloc, opened)?;
        }
        Ok(())
    }

    /// Fills the place of the join, and gives its array where it is full then.
    fn fill(
        &mut self,
        alloc: Global,
        maker: Name,
        number: u64,
        at: u32,
        value: Value,
    ) -> Result<Option<(Reply, Value)>, NoMemory>
        ensures waiting { OnOk result (waiting_in self.new ≡ give.give_to (reply.Place maker number at) value (waiting_in self.old)) }
        ensures gives { IfOk result (λ more. option_list more ≡ give.replies_from (reply.Place maker number at) value (waiting_in self.old)) }
        ensures before { OnOk result (self.new.before ≡ self.old.before) }
    {
        let key = (number, maker);
        let Some((owner, join)) = self.join_at(&key) else {
            return Ok(None);
        };
        let owner = owner.clone_in(alloc)?;
        let mut join = join.clone_in(alloc)?;
        join.fill(at, value);
        if join.is_full() {
            self.put(key, None)?;
            return Ok(Some(join.into_reply(alloc)?));
        }
        self.put(key, Some((owner, join)))?;
        Ok(None)
    }

    /// Gives one reply, and answers the reply that it makes due, if any.
    fn give_one(
        &mut self,
        alloc: Global,
        answers: &mut List<(u64, Value)>,
        reply: Reply,
        value: Value,
    ) -> Result<Option<(Reply, Value)>, NoMemory>
        ensures given { IfOk result (λ more. GivesOne (reply, value) (waiting_in self.old) (waiting_in self.new) answers.old answers.new (option_list more)) }
        ensures before { OnOk result (self.new.before ≡ self.old.before) }
    {
        if !value.legal() {
            return Ok(None);
        }
        match reply {
            Reply::Nobody => Ok(None),
            Reply::Tok(_, _) => Ok(None),
            Reply::Place(maker, join, at) => self.fill(alloc, maker, join, at, value),
            Reply::Outside(number) => {
                answers.push((number, value))?;
                Ok(None)
            }
        }
    }

    fn give_next(
        &mut self,
        alloc: Global,
        answers: &mut List<(u64, Value)>,
        left: &mut List<(Reply, Value)>,
        reply: Reply,
        value: Value,
    ) -> Result<(), NoMemory>
        ensures given { OnOk result (GivesNext (reply, value) (waiting_in self.old) (waiting_in self.new) answers.old answers.new left.old left.new) }
        ensures before { OnOk result (self.new.before ≡ self.old.before) }
    {
        match self.give_one(alloc, answers, reply, value)? {
            Some(more) => left.push(more),
            None => Ok(()),
        }
    }

    /// Gives the replies, from the last one of the list on.
    pub fn settle(
        &mut self,
        alloc: Global,
        answers: &mut List<(u64, Value)>,
        replies: List<(Reply, Value)>,
    ) -> Result<(), NoMemory>
        ensures given { OnOk result (Settles (reverse replies) (waiting_in self.old) (waiting_in self.new) answers.old answers.new) }
        ensures before { OnOk result (self.new.before ≡ self.old.before) }
    {
        let mut left = replies;
        while let Some((reply, value)) = left.pop() {
            self.give_next(alloc, answers, &mut left, reply, value)?;
        }
        Ok(())
    }

    /// The changes, to be made of the joins before.
    pub fn into_changes(self) -> OpenJoins
        ensures { overlaid result self.entry.before ≡ self.entry.joins }
    {
        self.changes
    }
}
