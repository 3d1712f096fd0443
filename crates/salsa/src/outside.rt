//! What lies outside the program: files, and what takes text.
ghost use Rattle.std.specs.Prelude.{◌≡◌, ◌≢◌, ◌≤◌, ℕ, List, [], length, take, IfOk, OnOk, OnErr, IsErrOf};
ghost use Rattle.salsa.specs.Outside.{FilesState, SinkState, Rose, OnFile, Wrote, OthersKept, Grew, GrewByPrefix};

use sal_value::{List, Text};
use std::alloc::Global;

/// The outside has failed.
#[derive(Clone, Copy, Debug, PartialEq, Eq)]
pub struct Failed;

#[derive(Clone, Copy, Debug, PartialEq, Eq)]
pub enum OutsideFault {
    Failed,
    Memory,
}

/// Bytes by name.
pub trait Files {
    ghost state: { Self → FilesState };

    /// The first `most` bytes under a name. An absent name is a fault.
    fn read(&mut self, alloc: Global, name: &Text, most: usize) -> Result<List<u8>, OutsideFault>
        ensures within { IfOk result (λ bytes. length bytes ≤ most) }
        ensures bytes { IfOk result (λ bytes. OnFile (state self.old).held name.now (λ whole.
            bytes ≡ take most whole)) }
        ensures kept { (state self.new).held ≡ (state self.old).held }
        ensures later { (any : List ℕ) → (state self.old).faults any ≤ (state self.new).faults any }
        ensures failed { IsErrOf result OutsideFault.Failed →
            Rose ((state self.old).faults name.now) ((state self.new).faults name.now) };

    /// Puts the bytes under a name. A failed write leaves any bytes there.
    fn write(&mut self, name: &Text, bytes: &[u8]) -> Result<(), Failed>
        ensures ok { OnOk result
            (Wrote (state self.old).held name.now bytes.now (state self.new).held) }
        ensures others { OthersKept (state self.old).held name.now (state self.new).held }
        ensures later { (any : List ℕ) → (state self.old).faults any ≤ (state self.new).faults any }
        ensures failed { OnErr result
            (Rose ((state self.old).faults name.now) ((state self.new).faults name.now)) };
}

/// What takes bytes, as a terminal does.
pub trait Sink {
    ghost state: { Self → SinkState };

    /// Takes the bytes. After a failure a prefix of them was taken. A piece without bytes never
    /// fails.
    fn put(&mut self, bytes: &[u8]) -> Result<(), Failed>
        ensures ok { OnOk result (Grew (state self.old).taken (state self.new).taken bytes.now) }
        ensures err { OnErr result
            (GrewByPrefix (state self.old).taken (state self.new).taken bytes.now) }
        ensures later { (state self.old).faults ≤ (state self.new).faults }
        ensures failed { OnErr result (Rose (state self.old).faults (state self.new).faults) }
        ensures nothing { OnErr result (bytes.now ≢ []) };
}
