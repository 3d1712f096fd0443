//! The files and streams of the system. They tell no contents: this is the edge that no proof sees.
//! Of readers and writers that tell what they give and take, the same functions are proved.
ghost use Rattle.std.specs.Prelude.{◌≡◌, ◌≢◌, ◌≤◌, [], None, IfOk, IfSome, OnOk, OnErr, length, take};
ghost use Rattle.std.specs.Bool.{OnTrue};
ghost use Rattle.std.specs.Io.KnownBytes.{Appends};
ghost use Rattle.std.specs.IoError.{error_kind};
ghost use Rattle.salsa.specs.Outside.{Rose};

use crate::outside::{Failed, Files, OutsideFault, Sink};
use sal_value::{List, Text};
use std::alloc::Global;
use std::fs::File;
use std::io::{self, ErrorKind, Read, Write};
use std::rt;

/// The files of the system.
#[derive(Drop)]
pub struct RealFiles<R: Drop> {
    pub system: R,
    pub faults: u64,
}

/// A stream of the system.
#[derive(Drop)]
pub struct RealSink<W: Drop> {
    pub stream: W,
    pub faults: u64,
}

/// Out of memory, where the system's error says so.
fn fault_of(error: &io::Error) -> OutsideFault
    ensures memory { error_kind error.now ≡ ErrorKind.OutOfMemory → result ≡ OutsideFault.Memory }
    ensures other { error_kind error.now ≢ ErrorKind.OutOfMemory → result ≡ OutsideFault.Failed }
{
    if error.kind() == ErrorKind::OutOfMemory {
        OutsideFault::Memory
    } else {
        OutsideFault::Failed
    }
}

/// Reads to the end, or up to `most` bytes.
fn read_most<S: Read + Drop>(
    alloc: Global,
    source: S,
    most: usize,
) -> Result<List<u8>, OutsideFault>
    ensures within { IfOk result (λ bytes. length bytes ≤ most) }
    ensures bytes { IfOk result (λ bytes. IfSome (S.remaining source) (λ whole.
        bytes ≡ take most whole)) }
{
    let mut bytes: Vec<u8> = Vec::new(alloc);
    let mut first = source.take(most as u64);
    if let Err(error) = first.read_to_end(&mut bytes) {
        return Err(fault_of(&error));
    }
    // No more than that were read; of a source that tells nothing no contract says so.
    bytes.truncate(most);
    Ok(List::from_vec(bytes))
}

/// Whether all bytes were written.
fn write_whole<W: Write>(stream: &mut W, bytes: &[u8]) -> bool
    ensures { OnTrue result (Appends (W.contents stream.old) (W.contents stream.new) bytes.now) }
{
    stream.write_all(bytes).is_ok()
}

fn read_file<R: rt::Files>(
    alloc: Global,
    system: &R,
    name: &Text,
    most: usize,
) -> Result<List<u8>, OutsideFault>
    ensures { IfOk result (λ bytes. length bytes ≤ most) }
{
    match File::open(system, name.as_str()) {
        Ok(file) => read_most(alloc, file, most),
        Err(_) => Err(OutsideFault::Failed),
    }
}

fn write_file<R: rt::Files>(system: &R, name: &Text, bytes: &[u8]) -> bool {
    match File::create(system, name.as_str()) {
        Ok(mut file) => write_whole(&mut file, bytes),
        Err(_) => false,
    }
}

impl<R: rt::Files + Drop> Files for RealFiles<R> {
    ghost state = { λ s. record { held = None; faults = λ _. s.faults } };

    fn read(&mut self, alloc: Global, name: &Text, most: usize) -> Result<List<u8>, OutsideFault> {
        let answer = read_file(alloc, &self.system, name, most);
        if let Err(OutsideFault::Failed) = &answer {
            self.faults = self.faults.saturating_add(1);
        }
        answer
    }

    fn write(&mut self, name: &Text, bytes: &[u8]) -> Result<(), Failed> {
        if write_file(&self.system, name, bytes) {
            return Ok(());
        }
        self.faults = self.faults.saturating_add(1);
        Err(Failed)
    }
}

impl<W: Write + Drop> Sink for RealSink<W> {
    ghost state = { λ s. record { taken = None; faults = s.faults } };

    fn put(&mut self, bytes: &[u8]) -> Result<(), Failed>
        ensures written { OnOk result
            (Appends (W.contents self.old.stream) (W.contents self.new.stream) bytes.now) }
        ensures later { self.old.faults ≤ self.new.faults }
        ensures failed { OnErr result (Rose self.old.faults self.new.faults) }
        ensures nothing { OnErr result (bytes.now ≢ []) }
    {
        if bytes.is_empty() || write_whole(&mut self.stream, bytes) {
            return Ok(());
        }
        self.faults = self.faults.saturating_add(1);
        Err(Failed)
    }
}
