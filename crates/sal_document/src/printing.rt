//! Documents of what is shown.

ghost use Rattle.std.specs.Prelude.{◌≡◌, ◌++◌, ◌∷◌, [], codes, length, IfOk, OnOk};
ghost use Rattle.std.specs.List.{flat_map};
ghost use Rattle.sal_document.specs.Documents as spec;
ghost use Rattle.sal_document.specs.code.Adding.{shown_document};

use crate::shown::{End, Shown};
use crate::shows::{Shows, end_line, put_number_word, put_word};
use sal_ast::Program;
use sal_types::Typed;
use sal_value::{List, NoMemory, Text};
use std::alloc::Global;

/// Adds the line that tells how many lines follow.
#[tactic(auto, unfolding(crate::specs::Documents::line_text))]
fn put_count(alloc: Global, name: &str, count: usize, out: &mut Text) -> Result<(), NoMemory>
    ensures { OnOk result (out.new ≡ out.old ++ spec.line_text (spec.count_words name.now count)) }
{
    out.push_str(name)?;
    put_number_word(alloc, count as u64, out)?;
    end_line(out)
}

/// Adds the lines of these items.
fn put_items<T: Shows>(
    alloc: Global,
    items: &[T],
    program: &Program,
    out: &mut Text,
) -> Result<(), NoMemory>
    ensures { OnOk result (out.new ≡ out.old ++ flat_map (λ x. spec.line_text (T.words program.now x)) items.now) }
{
    for item in items {
        item.put(alloc, program, out)?;
    }
    Ok(())
}

/// Adds how many items there are, and their lines.
#[tactic(auto, unfolding(crate::specs::Documents::section_text))]
fn put_section<T: Shows>(
    alloc: Global,
    name: &str,
    items: &[T],
    program: &Program,
    out: &mut Text,
) -> Result<(), NoMemory>
    ensures { OnOk result (out.new ≡ out.old ++ spec.section_text name.now (T.words program.now) items.now) }
{
    put_count(alloc, name, items.len(), out)?;
    put_items(alloc, items, program, out)
}

#[tactic(auto, unfolding(crate::specs::Documents::line_text))]
fn put_heading(out: &mut Text) -> Result<(), NoMemory>
    ensures { OnOk result (out.new ≡ out.old ++ spec.line_text spec.heading_words) }
{
    out.push_str("salsa-replay")?;
    put_word("1", out)?;
    end_line(out)
}

#[tactic(auto, unfolding(crate::specs::Documents::line_text))]
fn put_hash(alloc: Global, hash: &[u8; 32], out: &mut Text) -> Result<(), NoMemory>
    ensures { OnOk result (out.new ≡ out.old ++ spec.line_text (spec.hash_words hash.now)) }
{
    out.push_str("program")?;
    let digits = hex::encode(alloc, hash.as_slice())?;
    put_word(digits.as_str(), out)?;
    end_line(out)
}

/// Adds the first two lines.
#[tactic(auto, unfolding(crate::specs::Documents::head_text))]
fn put_head(alloc: Global, hash: &[u8; 32], out: &mut Text) -> Result<(), NoMemory>
    ensures { OnOk result (out.new ≡ out.old ++ spec.head_text hash.now) }
{
    put_heading(out)?;
    put_hash(alloc, hash, out)
}

impl End {
    #[tactic(auto, unfolding(crate::specs::Documents::end_text))]
    fn text(self) -> &'static str
        ensures { result.now ≡ spec.end_text self }
    {
        match self {
            End::AtRest => "at-rest",
            End::NotAtRest => "not-at-rest",
            End::PacketsFull => "packets-full",
        }
    }
}

#[tactic(auto, unfolding(crate::specs::Documents::line_text))]
fn put_pending(
    alloc: Global,
    pending: (usize, usize, usize),
    out: &mut Text,
) -> Result<(), NoMemory>
    ensures { OnOk result (out.new ≡ out.old ++ spec.line_text (spec.pending_words pending)) }
{
    out.push_str("pending")?;
    put_number_word(alloc, pending.0 as u64, out)?;
    put_number_word(alloc, pending.1 as u64, out)?;
    put_number_word(alloc, pending.2 as u64, out)?;
    end_line(out)
}

#[tactic(auto, unfolding(crate::specs::Documents::line_text))]
fn put_end(end: End, out: &mut Text) -> Result<(), NoMemory>
    ensures { OnOk result (out.new ≡ out.old ++ spec.line_text (spec.end_words end)) }
{
    out.push_str("end")?;
    put_word(end.text(), out)?;
    end_line(out)
}

/// Adds the last three lines.
#[tactic(auto, unfolding(crate::specs::Documents::tail_text))]
fn put_tail(
    alloc: Global,
    pending: (usize, usize, usize),
    packets: usize,
    end: End,
    out: &mut Text,
) -> Result<(), NoMemory>
    ensures { OnOk result (out.new ≡ out.old ++ spec.tail_text pending packets end) }
{
    put_pending(alloc, pending, out)?;
    put_count(alloc, "packets", packets, out)?;
    put_end(end, out)
}

/// Adds what came of the steps, but for what was printed.
#[tactic(auto, unfolding(crate::specs::Documents::results_text))]
fn put_results(
    alloc: Global,
    shown: &Shown<'_>,
    program: &Program,
    out: &mut Text,
) -> Result<(), NoMemory>
    ensures { OnOk result (out.new ≡ out.old ++ spec.results_text program.now (shown_document shown.now)) }
{
    let report = shown.report;
    put_section(alloc, "faults", shown.faults, program, out)?;
    put_section(alloc, "answers", shown.answers, program, out)?;
    put_section(alloc, "actors", report.actors.as_slice(), program, out)?;
    put_tail(alloc, report.pending, shown.packets, shown.end, out)
}

/// Adds the document of what is shown.
#[tactic(auto, unfolding(crate::specs::Documents::document_text))]
pub fn put_document(
    alloc: Global,
    shown: &Shown<'_>,
    program: &Program,
    out: &mut Text,
) -> Result<(), NoMemory>
    ensures { OnOk result (out.new ≡ out.old ++ spec.document_text program.now (shown_document shown.now)) }
{
    put_head(alloc, shown.hash, out)?;
    put_section(alloc, "trace", shown.trace, program, out)?;
    put_section(alloc, "output", shown.output, program, out)?;
    put_results(alloc, shown, program, out)
}

/// The replay document of what is shown.
pub fn print_replay(alloc: Global, shown: &Shown<'_>, program: &Typed) -> Result<List<u8>, NoMemory>
    ensures { IfOk result (λ bytes. bytes ≡ spec.document_text program.now (shown_document shown.now)) }
{
    let mut out = Text::new(alloc);
    put_document(alloc, shown, program.program(), &mut out)?;
    List::from_slice(alloc, out.as_bytes())
}
