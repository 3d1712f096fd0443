//! Names and values on bytes.

ghost use Rattle.std.specs.Prelude.{◌≡◌, ◌≤◌, ◌++◌, true, length, IsTrue, OnOk, OnErr};
ghost use Rattle.sal_value.specs.Names.{uan_text, is_uan};
ghost use Rattle.sal_value.specs.Spelling.{anon_bytes, text_bytes, name_spelling, name_is_spelled, spelling, is_spelled, FitsSomeDepth};

use crate::address::between;
use crate::list::List;
use crate::name::{Name, Uan};
use crate::no_memory::NoMemory;
use crate::value::Value;
use std::alloc::Global;

/// Adds a text after its length.
#[tactic(auto, using(crate::proofs::Writing::two_parts))]
fn put_text(text: &[u8], out: &mut List<u8>) -> Result<(), NoMemory>
    requires { length text.now ≤ 65535 }
    ensures { OnOk result (out.new ≡ out.old ++ text_bytes text.now) }
{
    out.push_slice(&(text.len() as u16).to_be_bytes())?;
    out.push_slice(text)
}

#[tactic(auto, using(crate::proofs::Writing::anon_written))]
fn put_anon(theatre: u32, number: u64, out: &mut List<u8>) -> Result<(), NoMemory>
    ensures { OnOk result (out.new ≡ out.old ++ anon_bytes theatre number) }
{
    out.push_slice(&theatre.to_be_bytes())?;
    out.push_slice(&number.to_be_bytes())
}

impl Uan {
    /// Adds the canonical text.
    #[tactic(auto, using(crate::proofs::Writing::uan_written))]
    fn put_text(&self, out: &mut List<u8>) -> Result<(), NoMemory>
        requires { is_uan self.now ≡ true }
        ensures { OnOk result (out.new ≡ out.old ++ uan_text self.now) }
    {
        let (port, start) = between(self.port);
        out.push_slice(b"uan://")?;
        out.push_slice(self.host.as_bytes())?;
        out.push_slice(port.split_at(start).1)?;
        out.push_slice(self.path.as_bytes())
    }

    #[tactic(auto, using(crate::proofs::Writing::two_parts, crate::proofs::Texts::host_short, crate::proofs::Texts::path_short))]
    fn put(&self, out: &mut List<u8>) -> Result<(), NoMemory>
        requires { is_uan self.now ≡ true }
        ensures { OnOk result (out.new ≡ out.old ++ text_bytes (uan_text self.now)) }
    {
        out.push_slice(&(self.text_len() as u16).to_be_bytes())?;
        self.put_text(out)
    }
}

impl Name {
    #[tactic(auto, using(crate::proofs::Writing::tagged), unfolding(crate::specs::Spelling::name_spelling, crate::specs::Spelling::name_is_spelled))]
    fn put(&self, out: &mut List<u8>) -> Result<(), NoMemory>
        requires { name_is_spelled self.now ≡ true }
        ensures { OnOk result (out.new ≡ out.old ++ name_spelling self.now) }
    {
        match self {
            Name::Anon(theatre, number) => {
                out.push(0)?;
                put_anon(*theatre, *number, out)
            }
            Name::Uan(uan) => {
                out.push(1)?;
                uan.put(out)
            }
            Name::Outside(number) => {
                out.push(2)?;
                out.push_slice(&number.to_be_bytes())
            }
        }
    }

    /// Adds the spelling of a name that has one.
    pub fn encode(&self, alloc: Global, out: &mut List<u8>) -> Result<(), NoMemory>
        requires { IsTrue (name_is_spelled self.now) }
        ensures ok { OnOk result (out.new ≡ out.old ++ name_spelling self.now) }
        ensures err { OnErr result (out.new ≡ out.old) }
    {
        let mut bytes = List::new(alloc);
        self.put(&mut bytes)?;
        out.append(bytes)
    }
}

impl Value {
    #[tactic(auto, using(crate::proofs::Writing::tagged, crate::proofs::Equations::spelling_null, crate::proofs::Equations::spelling_int, crate::proofs::Equations::spelling_bool, crate::proofs::Equations::spelling_str, crate::proofs::Equations::spelling_ref, crate::proofs::Writing::text_short, crate::proofs::Writing::name_good, crate::proofs::Writing::items_few, crate::proofs::Writing::item_fits))]
    fn put(&self, out: &mut List<u8>) -> Result<(), NoMemory>
        requires { FitsSomeDepth self.now }
        ensures { OnOk result (out.new ≡ out.old ++ spelling self.now) }
    {
        match self {
            Value::Null => out.push(0),
            Value::Int(number) => {
                out.push(1)?;
                out.push_slice(&number.to_be_bytes())
            }
            Value::Bool(truth) => {
                out.push(2)?;
                out.push(u8::from(*truth))
            }
            Value::Str(text) => {
                out.push(3)?;
                put_text(text.as_bytes(), out)
            }
            Value::Ref(name) => {
                out.push(5)?;
                name.put(out)
            }
            Value::Array(items) => {
                out.push(4)?;
                out.push_slice(&(items.len() as u16).to_be_bytes())?;
                for item in items.as_slice() {
                    item.put(out)?;
                }
                Ok(())
            }
        }
    }

    /// Adds the spelling of a value that has one.
    #[tactic(auto, using(crate::proofs::Writing::spelled_fits))]
    pub fn encode(&self, alloc: Global, out: &mut List<u8>) -> Result<(), NoMemory>
        requires { IsTrue (is_spelled self.now) }
        ensures ok { OnOk result (out.new ≡ out.old ++ spelling self.now) }
        ensures err { OnErr result (out.new ≡ out.old) }
    {
        let mut bytes = List::new(alloc);
        self.put(&mut bytes)?;
        out.append(bytes)
    }
}
