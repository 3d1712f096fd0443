//! Sizes of spellings, without memory.

ghost use Rattle.std.specs.Prelude.{◌≡◌, ◌≤◌, ◌<◌, true, length, IsTrue};
ghost use Rattle.std.specs.Bool.{OnTrue};
ghost use Rattle.sal_value.specs.Names.{uan_text, is_uan, is_ual, is_host as good_host};
ghost use Rattle.sal_value.specs.Spelling.{room_left, name_is_spelled, room_after_name, room_after, is_spelled, is_legal, size};

use crate::address::between;
use crate::name::{Name, Ual, Uan};
use crate::reading::{is_lower_host, is_path};
use crate::value::Value;

fn room_left(size: u32, room: u32) -> Option<u32>
    ensures { result ≡ room_left true size room }
{
    room.checked_sub(size)
}

impl Uan {
    /// Whether reading gives this name from some text.
    #[tactic(auto, unfolding(crate::specs::Names::is_uan))]
    pub fn is_readable(&self) -> bool
        ensures { result ≡ is_uan self.now }
    {
        is_lower_host(self.host.as_bytes())
            && self.port >= 1
            && !self.path.is_empty()
            && is_path(self.path.as_bytes())
    }

    /// The size of the canonical text.
    #[tactic(auto, using(crate::proofs::Texts::length_uan_text))]
    pub fn text_len(&self) -> u32
        requires host { length self.now.host ≤ 255 }
        requires path { length self.now.path ≤ 1024 }
        ensures size { result ≡ length (uan_text self.now) }
        ensures most { result < 2000 }
    {
        let (_, start) = between(self.port);
        8 + self.host.len() as u32 + (5 - start) as u32 + self.path.len() as u32
    }
}

impl Ual {
    /// Whether reading gives this locator from some text.
    #[tactic(auto, unfolding(crate::specs::Names::is_ual))]
    pub fn is_readable(&self) -> bool
        ensures { result ≡ is_ual self.now }
    {
        is_lower_host(self.host.as_bytes()) && self.port >= 1
    }
}

impl Name {
    /// Whether the name has a spelling.
    #[tactic(auto, unfolding(crate::specs::Spelling::name_is_spelled))]
    pub fn has_spelling(&self) -> bool
        ensures { result ≡ name_is_spelled self.now }
    {
        match self {
            Name::Uan(uan) => uan.is_readable(),
            Name::Anon(..) | Name::Outside(_) => true,
        }
    }

    #[tactic(auto, using(crate::proofs::Rooms::name_anon, crate::proofs::Rooms::name_outside, crate::proofs::Rooms::name_uan, crate::proofs::Texts::host_short, crate::proofs::Texts::path_short))]
    fn room_after(&self, room: u32) -> Option<u32>
        ensures { result ≡ room_after_name self.now room }
    {
        match self {
            Name::Anon(..) => room_left(13, room),
            Name::Outside(_) => room_left(9, room),
            Name::Uan(uan) => {
                if !uan.is_readable() {
                    return None;
                }
                room_left(3 + uan.text_len(), room)
            }
        }
    }
}

impl Value {
    /// What the spelling leaves of a room. None where it has no room, or where the value has no
    /// spelling with so many arrays in one another.
    #[tactic(auto, using(crate::proofs::Rooms::room_null, crate::proofs::Rooms::room_int, crate::proofs::Rooms::room_bool, crate::proofs::Rooms::room_str, crate::proofs::Rooms::room_ref, crate::proofs::Rooms::room_flat, crate::proofs::Rooms::room_long))]
    fn room_after(&self, depth: u8, room: u32) -> Option<u32>
        ensures { result ≡ room_after self.now depth room }
    {
        match self {
            Value::Null => room_left(1, room),
            Value::Int(_) => room_left(5, room),
            Value::Bool(_) => room_left(2, room),
            Value::Str(text) => {
                if text.len() > 4096 {
                    return None;
                }
                room_left(3 + text.len() as u32, room)
            }
            Value::Ref(name) => name.room_after(room_left(1, room)?),
            Value::Array(items) => {
                if depth == 0 || items.len() > 4096 {
                    return None;
                }
                let mut left = room_left(3, room)?;
                for item in items.as_slice() {
                    left = item.room_after(depth - 1, left)?;
                }
                Some(left)
            }
        }
    }

    /// The size of the spelling, or 65,537 where it is greater than 65,536 or there is none.
    #[tactic(auto, unfolding(crate::specs::Spelling::size, crate::specs::Spelling::is_legal, crate::specs::Spelling::room_after))]
    pub fn encoded_size(&self) -> u32
        ensures { result ≡ size self.now }
    {
        match self.room_after(64, 65536) {
            Some(left) => 65536 - left,
            None => 65537,
        }
    }

    /// Whether the value keeps the limits of the language.
    #[tactic(auto, using(crate::proofs::Rooms::legal_spelled), unfolding(crate::specs::Spelling::is_legal, crate::specs::Spelling::room_after))]
    pub fn legal(&self) -> bool
        ensures exact { result ≡ is_legal self.now }
        ensures spelled { OnTrue result (IsTrue (is_spelled self.now)) }
    {
        self.room_after(64, 65536).is_some()
    }
}
