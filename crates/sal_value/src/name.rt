ghost use Rattle.std.specs.Prelude.{◌≡◌, IfOk};

use crate::address::push_address;
use crate::no_memory::NoMemory;
use crate::text::Text;
use std::alloc::Global;
use thiserror::Error;

/// A universal actor name, `uan://host:port/path`.
#[derive(Debug, Drop)]
pub struct Uan {
    pub host: Text,
    pub port: u16,
    pub path: Text,
}

/// The locator of a theatre, `rmsp://host:port/`.
#[derive(Debug, Drop, PartialEq, Eq)]
pub struct Ual {
    pub host: Text,
    pub port: u16,
}

/// Host and port of a naming service.
#[derive(Debug, Drop, PartialEq, Eq)]
pub struct Authority {
    pub host: Text,
    pub port: u16,
}

/// Whose message it is, or whom it goes to.
#[derive(Debug, Drop)]
pub enum Name {
    /// An actor with a universal name.
    Uan(Uan),
    /// The theatre that made the actor, and the actor's number there.
    Anon(u32, u64),
    /// A call from outside, by its number. The number 0 is the start of the program.
    Outside(u64),
}

/// Which part of a name's or locator's text is refused.
#[derive(Clone, Copy, Debug, PartialEq, Eq, Error)]
pub enum NameFault {
    #[error("no scheme of a name or locator")]
    Scheme,
    #[error("no host of 1 to 255 letters, digits, `.` and `-`")]
    Host,
    #[error("no port of 1 to 65535")]
    Port,
    #[error("no path of 1 to 1024 allowed characters")]
    Path,
    #[error("no memory")]
    Memory,
}

impl From<NoMemory> for NameFault {
    ghost use Rattle.sal_value.specs.declared.name.NameFault.TheVariants.{Memory};

    ghost from_gives = { λ _ e. e ≡ Memory };

    fn from(_: NoMemory) -> NameFault {
        NameFault::Memory
    }
}

impl Uan {
    ghost use Rattle.sal_value.specs.Names.{uan_text};

    /// The canonical text, `uan://host:port/path` with the host in lower case.
    #[tactic(auto, unfolding(crate::specs::Names::uan_text))]
    pub fn text(&self, alloc: Global) -> Result<Text, NoMemory>
        ensures { IfOk result (λ t. t ≡ uan_text self.now) }
    {
        let mut text = Text::from_text(alloc, "uan://")?;
        push_address(alloc, &mut text, self.host.as_str(), self.port)?;
        text.push_str("/")?;
        text.push_str(self.path.as_str())?;
        Ok(text)
    }

    pub fn clone_in(&self, alloc: Global) -> Result<Uan, NoMemory>
        ensures { IfOk result (λ u. u ≡ self.now) }
    {
        Ok(Uan {
            host: self.host.clone_in(alloc)?,
            port: self.port,
            path: self.path.clone_in(alloc)?,
        })
    }
}

impl Ual {
    ghost use Rattle.sal_value.specs.Names.{ual_text};

    /// The canonical text, `rmsp://host:port/` with the host in lower case.
    #[tactic(auto, unfolding(crate::specs::Names::ual_text))]
    pub fn text(&self, alloc: Global) -> Result<Text, NoMemory>
        ensures { IfOk result (λ t. t ≡ ual_text self.now) }
    {
        let mut text = Text::from_text(alloc, "rmsp://")?;
        push_address(alloc, &mut text, self.host.as_str(), self.port)?;
        text.push_str("/")?;
        Ok(text)
    }

    pub fn clone_in(&self, alloc: Global) -> Result<Ual, NoMemory>
        ensures { IfOk result (λ l. l ≡ self.now) }
    {
        Ok(Ual {
            host: self.host.clone_in(alloc)?,
            port: self.port,
        })
    }
}

impl Authority {
    pub fn clone_in(&self, alloc: Global) -> Result<Authority, NoMemory>
        ensures { IfOk result (λ a. a ≡ self.now) }
    {
        Ok(Authority {
            host: self.host.clone_in(alloc)?,
            port: self.port,
        })
    }
}

impl Name {
    ghost use Rattle.sal_value.specs.Names.{name_text};

    /// `anon:theatre:number`, `outside:number`, or the canonical text of a universal name.
    #[tactic(auto, unfolding(crate::specs::Names::name_text))]
    pub fn text(&self, alloc: Global) -> Result<Text, NoMemory>
        ensures { IfOk result (λ t. t ≡ name_text self.now) }
    {
        match self {
            Name::Uan(uan) => uan.text(alloc),
            Name::Anon(theatre, number) => {
                let mut text = Text::from_text(alloc, "anon:")?;
                text.push_str(theatre.to_string(alloc)?.as_str())?;
                text.push_str(":")?;
                text.push_str(number.to_string(alloc)?.as_str())?;
                Ok(text)
            }
            Name::Outside(number) => {
                let mut text = Text::from_text(alloc, "outside:")?;
                text.push_str(number.to_string(alloc)?.as_str())?;
                Ok(text)
            }
        }
    }

    pub fn clone_in(&self, alloc: Global) -> Result<Name, NoMemory>
        ensures { IfOk result (λ n. n ≡ self.now) }
    {
        match self {
            Name::Uan(uan) => Ok(Name::Uan(uan.clone_in(alloc)?)),
            Name::Anon(theatre, number) => Ok(Name::Anon(*theatre, *number)),
            Name::Outside(number) => Ok(Name::Outside(*number)),
        }
    }
}
