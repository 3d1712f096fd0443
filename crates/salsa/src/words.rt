//! The words after the program's name, as the system gives them.
ghost use Rattle.std.specs.Prelude.{◌≡◌, ◌≢◌, [], map, drop, string_bytes, IfOk, IsErr, Ok};
ghost use Rattle.std.specs.Vec.Iter.{into_iter_items};
ghost use Rattle.std.specs.IoError.{error_kind};

use sal_value::{List, NoMemory, Text};
use std::alloc::Global;
use std::env::Args;
use std::io;
use std::io::ErrorKind;

/// The words without the first, which is the program's name.
pub fn given_words(alloc: Global, args: Args) -> Result<List<Text>, NoMemory>
    ensures { IfOk result (λ words. words ≡ drop 1 (map string_bytes (into_iter_items args))) }
{
    let mut words = List::new(alloc);
    for word in args {
        words.push(Text::from_string(word))?;
    }
    if !words.is_empty() {
        words.remove(0);
    }
    Ok(words)
}

/// What stands for words that the system can't give: out of memory where that is why, or else no
/// words at all.
pub fn withheld_words(alloc: Global, error: &io::Error) -> Result<List<Text>, NoMemory>
    ensures memory { error_kind error.now ≡ ErrorKind.OutOfMemory → IsErr result }
    ensures other { error_kind error.now ≢ ErrorKind.OutOfMemory → result ≡ Ok [] }
{
    if error.kind() == ErrorKind::OutOfMemory {
        Err(NoMemory)
    } else {
        Ok(List::new(alloc))
    }
}
