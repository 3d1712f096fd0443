//! Lines that show something.

ghost use Rattle.std.specs.Prelude.{◌≡◌, ◌++◌, ◌∷◌, [], map, codes, OnOk};
ghost use Rattle.std.specs.Fmt.{decimal};
ghost use Rattle.std.specs.List.{flat_map};
ghost use Rattle.sal_value.specs.Names.{name_text, uan_text};
ghost use Rattle.sal_literals.specs.Texts.{value_text};
ghost use Rattle.sal_ast.specs.Members.{as_handler};
ghost use Rattle.sal_document.specs.Documents as spec;
ghost use Rattle.sal_document.specs.code.Adding.{after_spaces, handler_name_among};

use sal_ast::{Behavior, Member, Program};
use sal_literals::{put_name, put_quoted, put_value};
use sal_mail::{Actor, Fault};
use sal_source::Step;
use sal_value::{List, Name, NoMemory, Text, Uan, Value, Values};
use std::alloc::Global;

pub fn put_number(alloc: Global, number: u64, out: &mut Text) -> Result<(), NoMemory>
    ensures { OnOk result (out.new ≡ out.old ++ decimal number) }
{
    let digits = number.to_string(alloc)?;
    out.push_str(digits.as_str())
}

/// Adds a word after a space.
pub fn put_word(word: &str, out: &mut Text) -> Result<(), NoMemory>
    ensures { OnOk result (out.new ≡ out.old ++ 32 ∷ word.now) }
{
    out.push_str(" ")?;
    out.push_str(word)
}

/// Adds a number after a space.
pub fn put_number_word(alloc: Global, number: u64, out: &mut Text) -> Result<(), NoMemory>
    ensures { OnOk result (out.new ≡ out.old ++ 32 ∷ decimal number) }
{
    out.push_str(" ")?;
    put_number(alloc, number, out)
}

/// Adds a name after a space.
fn put_name_word(alloc: Global, name: &Name, out: &mut Text) -> Result<(), NoMemory>
    ensures { OnOk result (out.new ≡ out.old ++ 32 ∷ name_text name.now) }
{
    out.push_str(" ")?;
    put_name(alloc, name, out)
}

/// Adds a universal name after a space.
fn put_uan_word(alloc: Global, uan: &Uan, out: &mut Text) -> Result<(), NoMemory>
    ensures { OnOk result (out.new ≡ out.old ++ 32 ∷ uan_text uan.now) }
{
    let text = uan.text(alloc)?;
    put_word(text.as_str(), out)
}

/// Adds a value after a space.
fn put_value_word(alloc: Global, value: &Value, out: &mut Text) -> Result<(), NoMemory>
    ensures { OnOk result (out.new ≡ out.old ++ 32 ∷ value_text value.now) }
{
    out.push_str(" ")?;
    put_value(alloc, value, out)
}

/// Adds the values, each after a space.
fn put_values(alloc: Global, values: &[Value], out: &mut Text) -> Result<(), NoMemory>
    ensures { OnOk result (out.new ≡ out.old ++ after_spaces (map value_text values.now)) }
{
    for value in values {
        put_value_word(alloc, value, out)?;
    }
    Ok(())
}

/// Adds the names, each after a space.
fn put_names(alloc: Global, names: &[Name], out: &mut Text) -> Result<(), NoMemory>
    ensures { OnOk result (out.new ≡ out.old ++ after_spaces (map name_text names.now)) }
{
    for name in names {
        put_name_word(alloc, name, out)?;
    }
    Ok(())
}

/// Ends a line.
pub fn end_line(out: &mut Text) -> Result<(), NoMemory>
    ensures { OnOk result (out.new ≡ out.old ++ 10 ∷ []) }
{
    out.push_str("\n")
}

/// The name of the behaviour with this number.
fn behavior_name(program: &Program, behavior: u16) -> &str
    ensures { result.now ≡ spec.behavior_name program.now behavior }
{
    match program.behaviors.get(usize::from(behavior)) {
        Some(behavior) => behavior.name.text.as_str(),
        None => "",
    }
}

/// The name of the handler with this number among these members.
fn handler_among(members: &[Member], handler: u16) -> &str
    ensures { result.now ≡ handler_name_among members.now handler }
{
    let mut left = handler;
    for member in members {
        match member {
            Member::Handler { name, .. } => {
                if left == 0 {
                    return name.text.as_str();
                }
                left -= 1;
            }
            Member::Field { .. } | Member::Constructor { .. } => {}
        }
    }
    ""
}

#[tactic(auto, unfolding(sal_ast::specs::Members::handlers_of))]
fn handler_name(program: &Program, behavior: u16, handler: u16) -> &str
    ensures { result.now ≡ spec.handler_name program.now behavior handler }
{
    match program.behaviors.get(usize::from(behavior)) {
        Some(behavior) => handler_among(behavior.members.as_slice(), handler),
        None => "",
    }
}

/// What a line shows.
pub trait Shows {
    ghost use Rattle.std.specs.Prelude.{List, ℕ};
    ghost use Rattle.sal_ast.specs.declared.program.Program.{Program};

    ghost words: { Program → Self → List (List ℕ) };

    /// Adds its line.
    fn put(&self, alloc: Global, program: &Program, out: &mut Text) -> Result<(), NoMemory>
        ensures { OnOk result (out.new ≡ out.old ++ spec.line_text (words program.now self.now)) };
}

/// Adds a line of this word, a maker, a number and names.
#[tactic(auto, unfolding(crate::specs::Documents::line_text))]
fn put_made(
    alloc: Global,
    word: &str,
    maker: &Name,
    serial: u64,
    fresh: &[Name],
    out: &mut Text,
) -> Result<(), NoMemory>
    ensures { OnOk result (out.new ≡ out.old ++ spec.line_text (word.now ∷ name_text maker.now ∷ decimal serial ∷ map name_text fresh.now)) }
{
    out.push_str(word)?;
    put_name_word(alloc, maker, out)?;
    put_number_word(alloc, serial, out)?;
    put_names(alloc, fresh, out)?;
    end_line(out)
}

/// Adds a post's line.
#[tactic(auto, unfolding(crate::specs::Documents::line_text))]
fn put_post(
    alloc: Global,
    number: u64,
    target: &Uan,
    behavior: &str,
    handler: &str,
    args: &[Value],
    out: &mut Text,
) -> Result<(), NoMemory>
    ensures { OnOk result (out.new ≡ out.old ++ spec.line_text (codes "post" ∷ decimal number ∷ uan_text target.now ∷ behavior.now ∷ handler.now ∷ map value_text args.now)) }
{
    out.push_str("post")?;
    put_number_word(alloc, number, out)?;
    put_uan_word(alloc, target, out)?;
    put_word(behavior, out)?;
    put_word(handler, out)?;
    put_values(alloc, args, out)?;
    end_line(out)
}

impl Shows for Step {
    ghost words = { spec.step_words };

    #[tactic(auto, unfolding(crate::specs::Documents::step_words))]
    fn put(&self, alloc: Global, program: &Program, out: &mut Text) -> Result<(), NoMemory> {
        match self {
            Step::Handle {
                maker,
                serial,
                fresh,
            } => put_made(alloc, "handle", maker, *serial, fresh.as_slice(), out),
            Step::Print { maker, serial } => put_made(alloc, "print", maker, *serial, &[], out),
            Step::Bind { maker, serial } => put_made(alloc, "bind", maker, *serial, &[], out),
            Step::Refuse { maker, serial } => put_made(alloc, "refuse", maker, *serial, &[], out),
            Step::Post {
                number,
                target,
                behavior,
                handler,
                args,
            } => {
                let name = handler_name(program, *behavior, *handler);
                let behavior = behavior_name(program, *behavior);
                put_post(alloc, *number, target, behavior, name, args.as_slice(), out)
            }
        }
    }
}

impl Shows for (u8, Text) {
    ghost words = { λ _ printed. spec.output_words printed };

    #[tactic(auto, unfolding(crate::specs::Documents::output_words, crate::specs::Documents::line_text))]
    fn put(&self, alloc: Global, _program: &Program, out: &mut Text) -> Result<(), NoMemory> {
        put_number(alloc, u64::from(self.0), out)?;
        out.push_str(" ")?;
        put_quoted(alloc, self.1.as_str(), out)?;
        end_line(out)
    }
}

impl Shows for Fault {
    ghost words = { λ _ fault. spec.fault_words fault };

    #[tactic(auto, unfolding(crate::specs::Documents::fault_words, crate::specs::Documents::line_text))]
    fn put(&self, alloc: Global, _program: &Program, out: &mut Text) -> Result<(), NoMemory> {
        put_name(alloc, &self.maker, out)?;
        put_number_word(alloc, self.serial, out)?;
        put_word(self.kind.text(), out)?;
        end_line(out)
    }
}

impl Shows for (u64, Value) {
    ghost words = { λ _ answer. spec.answer_words answer };

    #[tactic(auto, unfolding(crate::specs::Documents::answer_words, crate::specs::Documents::line_text))]
    fn put(&self, alloc: Global, _program: &Program, out: &mut Text) -> Result<(), NoMemory> {
        put_number(alloc, self.0, out)?;
        put_value_word(alloc, &self.1, out)?;
        end_line(out)
    }
}

impl Shows for (Actor, u64, u8) {
    ghost words = { spec.actor_words };

    #[tactic(auto, unfolding(crate::specs::Documents::actor_words, crate::specs::Documents::line_text))]
    fn put(&self, alloc: Global, program: &Program, out: &mut Text) -> Result<(), NoMemory> {
        put_name(alloc, &self.0.name, out)?;
        put_number_word(alloc, u64::from(self.2), out)?;
        put_word(behavior_name(program, self.0.behavior), out)?;
        put_number_word(alloc, self.1, out)?;
        put_values(alloc, self.0.fields.as_slice(), out)?;
        end_line(out)
    }
}
