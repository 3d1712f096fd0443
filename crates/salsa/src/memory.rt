//! Files and a sink in memory, which tell their contents and fail where they are told to.
ghost use Rattle.std.specs.Prelude.{◌≡◌, ◌≢◌, ◌≤◌, ◌⊎◌, ◌↔◌, IsTrue, if◌then◌else◌, [], ◌++◌, ◌∷◌, length, None, Some, Ok, IfOk, IsErr, is_err, IsErrOf, OnOk, OnErr, take};
ghost use Rattle.std.specs.Option.{option_copied};
ghost use Rattle.std.specs.Str.{bytes_eq};
ghost use Rattle.salsa.specs.Memory.{held_of, calls_from, is_listed, after_one, one_more, is_failed};
ghost use Rattle.salsa.specs.Outside.{OnFile};

use crate::outside::{Failed, Files, OutsideFault, Sink};
use sal_value::{List, NoMemory, Text};
use std::alloc::Global;

/// A file in memory.
#[derive(Drop)]
pub struct Entry {
    pub name: Text,
    pub bytes: List<u8>,
}

/// Which calls are to fail, by their numbers counted from 0, and the number of the next one.
#[derive(Drop)]
pub struct Calls {
    pub failing: List<u64>,
    pub next: u64,
}

/// Files in memory. The calls whose numbers are listed fail, and a failed write leaves all files as
/// they were. A write that gets no memory fails too.
#[derive(Drop)]
pub struct MemFiles {
    pub alloc: Global,
    pub entries: List<Entry>,
    pub calls: Calls,
    pub faults: u64,
}

/// A sink in memory. The calls whose numbers are listed fail, and take nothing. A piece without
/// bytes is no call.
#[derive(Drop)]
pub struct MemSink {
    pub taken: List<u8>,
    pub calls: Calls,
    pub faults: u64,
}

impl Calls {
    pub fn new(failing: List<u64>) -> Calls
        ensures { result ≡ calls_from failing }
    {
        Calls { failing, next: 0 }
    }

    /// Counts one more call, and answers whether it is to fail.
    fn fails(&mut self) -> bool
        ensures listed { result ≡ is_listed self.old }
        ensures next { self.new ≡ after_one self.old }
    {
        let call = self.next;
        self.next = call.saturating_add(1);
        self.failing.as_slice().contains(&call)
    }
}

fn is_named(entry: &Entry, name: &Text) -> bool
    ensures { result ≡ bytes_eq entry.now.name name.now }
{
    entry.name == *name
}

/// The bytes of the first entry under a name.
fn bytes_of<'a>(entries: &'a [Entry], name: &Text) -> Option<&'a List<u8>>
    ensures { option_copied result ≡ held_of entries.now name.now }
{
    for entry in entries {
        if is_named(entry, name) {
            return Some(&entry.bytes);
        }
    }
    None
}

fn copy(alloc: Global, bytes: &[u8], most: usize) -> Result<List<u8>, NoMemory>
    ensures { IfOk result (λ copy. copy ≡ take most bytes.now) }
{
    let count = bytes.len().min(most);
    List::from_slice(alloc, &bytes[..count])
}

/// Puts a new entry before all others, so that it is the first under its name.
fn put_first(
    alloc: Global,
    entries: &mut List<Entry>,
    name: &Text,
    bytes: &[u8],
) -> Result<(), NoMemory>
    ensures ok { OnOk result
        (entries.new ≡ record { name = name.now; bytes = bytes.now } ∷ entries.old) }
    ensures err { OnErr result (entries.new ≡ entries.old) }
{
    let name = name.clone_in(alloc)?;
    let bytes = List::from_slice(alloc, bytes)?;
    entries.insert(0, Entry { name, bytes })
}

/// The first bytes of the first entry under a name. An absent name is a fault.
fn first_bytes(
    alloc: Global,
    entries: &[Entry],
    name: &Text,
    most: usize,
) -> Result<List<u8>, OutsideFault>
    ensures bytes { IfOk result (λ bytes. OnFile (Some (held_of entries.now)) name.now (λ whole.
        bytes ≡ take most whole)) }
    ensures failed { IsErrOf result OutsideFault.Failed ↔ (held_of entries.now name.now ≡ None) }
{
    match bytes_of(entries, name) {
        Some(bytes) => match copy(alloc, bytes.as_slice(), most) {
            Ok(bytes) => Ok(bytes),
            Err(NoMemory) => Err(OutsideFault::Memory),
        },
        None => Err(OutsideFault::Failed),
    }
}

impl MemFiles {
    /// No call was made yet.
    pub fn new(alloc: Global, entries: List<Entry>, failing: List<u64>) -> MemFiles
        ensures entries { result.entries ≡ entries }
        ensures calls { result.calls ≡ calls_from failing }
        ensures faults { result.faults ≡ 0 }
    {
        MemFiles {
            alloc,
            entries,
            calls: Calls::new(failing),
            faults: 0,
        }
    }
}

impl Files for MemFiles {
    ghost state = { λ s. record { held = Some (held_of s.entries); faults = λ _. s.faults } };

    fn read(&mut self, alloc: Global, name: &Text, most: usize) -> Result<List<u8>, OutsideFault>
        ensures within { IfOk result (λ bytes. length bytes ≤ most) }
        ensures bytes { IfOk result (λ bytes.
            OnFile (Some (held_of self.old.entries)) name.now (λ whole. bytes ≡ take most whole)) }
        ensures kept { self.new.entries ≡ self.old.entries }
        ensures fails { IsErrOf result OutsideFault.Failed ↔
            (IsTrue (is_listed self.old.calls) ⊎ (held_of self.old.entries name.now ≡ None)) }
        ensures next { self.new.calls ≡ after_one self.old.calls }
        ensures later { self.old.faults ≤ self.new.faults }
        ensures faults { self.new.faults ≡
            (if is_failed result then one_more self.old.faults else self.old.faults) }
    {
        let answer = if self.calls.fails() {
            Err(OutsideFault::Failed)
        } else {
            first_bytes(alloc, self.entries.as_slice(), name, most)
        };
        if let Err(OutsideFault::Failed) = &answer {
            self.faults = self.faults.saturating_add(1);
        }
        answer
    }

    fn write(&mut self, name: &Text, bytes: &[u8]) -> Result<(), Failed>
        ensures ok { OnOk result
            (self.new.entries ≡ record { name = name.now; bytes = bytes.now } ∷ self.old.entries) }
        ensures err { OnErr result (self.new.entries ≡ self.old.entries) }
        ensures fails { IsTrue (is_listed self.old.calls) → IsErr result }
        ensures next { self.new.calls ≡ after_one self.old.calls }
        ensures later { self.old.faults ≤ self.new.faults }
        ensures faults { self.new.faults ≡
            (if is_err result then one_more self.old.faults else self.old.faults) }
    {
        if !self.calls.fails() && put_first(self.alloc, &mut self.entries, name, bytes).is_ok() {
            return Ok(());
        }
        self.faults = self.faults.saturating_add(1);
        Err(Failed)
    }
}

impl MemSink {
    /// It took nothing, and no call was made yet.
    pub fn new(alloc: Global, failing: List<u64>) -> MemSink
        ensures taken { result.taken ≡ [] }
        ensures calls { result.calls ≡ calls_from failing }
        ensures faults { result.faults ≡ 0 }
    {
        MemSink {
            taken: List::new(alloc),
            calls: Calls::new(failing),
            faults: 0,
        }
    }
}

impl Sink for MemSink {
    ghost state = { λ s. record { taken = Some s.taken; faults = s.faults } };

    fn put(&mut self, bytes: &[u8]) -> Result<(), Failed>
        ensures ok { OnOk result (self.new.taken ≡ self.old.taken ++ bytes.now) }
        ensures err { OnErr result (self.new.taken ≡ self.old.taken) }
        ensures nothing { bytes.now ≡ [] → (result ≡ Ok tt) × (self.new ≡ self.old) }
        ensures fails { bytes.now ≢ [] → IsTrue (is_listed self.old.calls) → IsErr result }
        ensures next { bytes.now ≢ [] → self.new.calls ≡ after_one self.old.calls }
        ensures later { self.old.faults ≤ self.new.faults }
        ensures faults { self.new.faults ≡
            (if is_err result then one_more self.old.faults else self.old.faults) }
    {
        if bytes.is_empty() {
            return Ok(());
        }
        if !self.calls.fails() && self.taken.push_slice(bytes).is_ok() {
            return Ok(());
        }
        self.faults = self.faults.saturating_add(1);
        Err(Failed)
    }
}
