//! Frames on bytes.

ghost use Rattle.std.specs.Prelude.{◌≡◌, ◌≤◌, ◌&&◌, length, drop, IfOk};
ghost use Rattle.std.specs.Str.{bytes_eq};
ghost use Rattle.sal_carriage.specs.Frames.{frame_header, frame_bytes, is_frame, cut_frame, frame_of};
ghost use Rattle.sal_carriage.specs.Link.{datagram_of};

use crate::datagram::Datagram;
use sal_value::{List, NoMemory};
use std::alloc::Global;
use std::marker::Model;

/// What one datagram carries.
#[derive(Drop)]
pub struct Frame<'a> {
    pub program: [u8; 8],
    pub from: u8,
    pub to: u8,
    /// Whether it carries a fragment, and else it only acknowledges.
    pub is_data: bool,
    pub number: u64,
    pub wanted: u64,
    pub last: bool,
    pub payload: &'a [u8],
}

impl<'a> Model for Frame<'a> {
    ghost use Rattle.sal_carriage.specs.Frames as frames;

    ghost Value = { frames.Frame };

    ghost view = { λ f. record {
      program = f.program;
      from = f.from;
      to = f.to;
      is_data = f.is_data;
      number = f.number;
      wanted = f.wanted;
      last = f.last;
      payload = f.payload.now;
    } };
}

fn eight(bytes: &[u8]) -> [u8; 8]
    requires { length bytes.now ≡ 8 }
    ensures { result ≡ bytes.now }
{
    [
        bytes[0], bytes[1], bytes[2], bytes[3], bytes[4], bytes[5], bytes[6], bytes[7],
    ]
}

impl<'a> Frame<'a> {
    /// What stands at the places of a frame's fields.
    fn cut(bytes: &'a [u8]) -> Frame<'a>
        requires { 30 ≤ length bytes.now }
        ensures { result ≡ cut_frame bytes.now }
    {
        Frame {
            program: eight(&bytes[..8]),
            from: bytes[8],
            to: bytes[9],
            is_data: bytes[10] == 0,
            number: u64::from_be_bytes(eight(&bytes[11..19])),
            wanted: u64::from_be_bytes(eight(&bytes[19..27])),
            last: bytes[27] == 1,
            payload: &bytes[30..],
        }
    }

    /// Whether they are a frame's bytes, where it was cut out of them.
    #[tactic(auto, using(crate::proofs::Reading::header_tells))]
    fn is_spelled_by(&self, bytes: &[u8]) -> bool
        requires long { 30 ≤ length bytes.now }
        requires payload { self.now.payload ≡ drop 30 bytes.now }
        ensures { result ≡ (is_frame self.now && bytes_eq (frame_bytes self.now) bytes.now) }
    {
        self.is_frame() && self.header().as_slice() == &bytes[..30]
    }

    /// The frame that the bytes are.
    #[tactic(auto, using(crate::proofs::Reading::short_bytes), unfolding(crate::specs::Frames::frame_of))]
    pub fn read(bytes: &'a [u8]) -> Option<Frame<'a>>
        ensures { result ≡ frame_of bytes.now }
    {
        if bytes.len() < 30 {
            return None;
        }
        let frame = Frame::cut(bytes);
        if !frame.is_spelled_by(bytes) {
            return None;
        }
        Some(frame)
    }

    /// The bytes before the payload.
    fn header(&self) -> [u8; 30]
        requires { length self.now.payload ≤ 1024 }
        ensures { result ≡ frame_header self.now }
    {
        let p = self.program;
        let n = self.number.to_be_bytes();
        let w = self.wanted.to_be_bytes();
        let s = (self.payload.len() as u16).to_be_bytes();
        [
            p[0],
            p[1],
            p[2],
            p[3],
            p[4],
            p[5],
            p[6],
            p[7],
            self.from,
            self.to,
            u8::from(!self.is_data),
            n[0],
            n[1],
            n[2],
            n[3],
            n[4],
            n[5],
            n[6],
            n[7],
            w[0],
            w[1],
            w[2],
            w[3],
            w[4],
            w[5],
            w[6],
            w[7],
            u8::from(self.last),
            s[0],
            s[1],
        ]
    }

    /// The datagram that carries the frame.
    #[tactic(auto, unfolding(crate::specs::Frames::frame_bytes))]
    pub fn datagram(&self, alloc: Global) -> Result<Datagram, NoMemory>
        requires { length self.now.payload ≤ 1024 }
        ensures { IfOk result (λ d. d ≡ datagram_of self.now) }
    {
        let mut bytes = Vec::with_capacity(alloc, 30 + self.payload.len())?;
        bytes.extend_from_slice(&self.header())?;
        bytes.extend_from_slice(self.payload)?;
        Ok(Datagram {
            to: self.to,
            bytes: List::from_vec(bytes),
        })
    }

    fn is_frame(&self) -> bool
        ensures { result ≡ is_frame self.now }
    {
        if self.is_data {
            !self.payload.is_empty() && self.payload.len() <= 1024
        } else {
            self.number == 0 && !self.last && self.payload.is_empty()
        }
    }
}
