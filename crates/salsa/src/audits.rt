//! Tests of the command `audit`.

use crate::memory::{Entry, MemFiles, MemSink};
use crate::top::salsa;
use sal_value::{List, NoMemory, Text};
use std::alloc::Global;
use std::test::Fail;

/// A program that prints a text late.
const PROGRAM: &str =
    "behavior D { void a() { } void act(String[] x) { token y = self<-a(); standardOutput<-println(\"late\"):delay(300):waitfor(y); } }";

const PLAN: &str = "theatres = [\"rmsp://localhost/\"]";

/// A document of that program, up to the first word of its steps.
const HEAD: &str = "salsa-replay 1
program db7eafac5d5a1e5e69c0bba4803f1cd0dfd48420b17d301f05158e900cb36ce1
trace 3
";

/// What follows that word, up to the printed text.
const STEPS: &str = " outside:0 0
handle anon:0:0 0
print anon:0:0 1
output 1
0 ";

/// What follows the printed text.
const TAIL: &str = "
faults 0
answers 0
actors 1
anon:0:0 0 D 2
pending 0 0 0
packets 0
end at-rest
";

fn document(alloc: Global, word: &str, printed: &str) -> Result<Text, NoMemory> {
    let mut text = Text::from_text(alloc, HEAD)?;
    text.push_str(word)?;
    text.push_str(STEPS)?;
    text.push_str(printed)?;
    text.push_str(TAIL)?;
    Ok(text)
}

fn entry(alloc: Global, name: &str, text: &str) -> Result<Entry, NoMemory> {
    let name = Text::from_text(alloc, name)?;
    let bytes = List::from_slice(alloc, text.as_bytes())?;
    Ok(Entry { name, bytes })
}

fn files(alloc: Global, document: &str) -> Result<MemFiles, NoMemory> {
    let mut entries = List::new(alloc);
    entries.push(entry(alloc, "p", PROGRAM)?)?;
    entries.push(entry(alloc, "plan", PLAN)?)?;
    entries.push(entry(alloc, "t", document)?)?;
    Ok(MemFiles::new(alloc, entries, List::new(alloc)))
}

fn words(alloc: Global) -> Result<List<Text>, NoMemory> {
    let mut words = List::new(alloc);
    for word in ["audit", "p", "plan", "t"] {
        words.push(Text::from_text(alloc, word)?)?;
    }
    Ok(words)
}

#[test]
fn documents_are_audited(rt: HostRuntime) -> Result<(), Fail> {
    let alloc = rt.alloc();
    let words = words(alloc)?;
    for (word, printed, status, told) in [
        ("handle", "\"late\\n\"", 0, "audit ok 3\n"),
        ("hand", "\"late\\n\"", 4, "trace refused line 4\n"),
        ("handle", "\"l\"", 10, "audit refused result\n"),
    ] {
        let document = document(alloc, word, printed)?;
        let mut files = files(alloc, document.as_str())?;
        let mut out = MemSink::new(alloc, List::new(alloc));
        let mut err = MemSink::new(alloc, List::new(alloc));
        let ended = salsa(alloc, words.as_slice(), &mut files, &mut out, &mut err);
        let (full, empty) = if ended == 0 { (out, err) } else { (err, out) };
        assert_eq!(rt; ended, status);
        assert_eq!(rt; full.taken.as_slice(), told.as_bytes());
        assert_eq!(rt; empty.taken.len(), 0);
    }
    Ok(())
}
