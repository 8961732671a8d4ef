//! The bytes that came from a client: its first message, and taking it.

ghost use Rattle.std.specs.Prelude.{◌≡◌, ◌++◌, drop, length, OnOk, OnErr};
ghost use Rattle.wl_wire.specs.Wire.{split_of};
ghost use Rattle.wl_wire.specs.declared.header.Split.TheVariants.{Message as Whole};
ghost use Rattle.wl_client.specs.First.{IsFirst};

use crate::checks::{are_fit, check_new_id};
use crate::clients::Client;
use crate::first_message::First;
use spec_desktop::{ErrorCode, Refusal};
use std::alloc::{AllocError, Allocator};
use wl_proto::decode;
use wl_wire::{Split, split};

impl<A: Allocator + Copy> Client<A> {
    /// Keeps a piece of bytes behind those that came before. No message is taken. An `Err` changes
    /// nothing.
    pub fn keep(&mut self, piece: &[u8]) -> Result<(), AllocError>
        ensures ok { OnOk result (self.new ≡ record self.old { rest = self.old.rest ++ piece.now }) }
        ensures err { OnErr result (self.new ≡ self.old) }
    {
        self.rest.append(piece)
    }

    /// How the first message fares, before its own errors are looked at. It isn't taken.
    pub fn first(&self) -> First<'_>
        ensures { IsFirst self.now result }
    {
        match split(self.rest.as_slice()) {
            Split::More => First::More,
            Split::Bad => First::Refused(Refusal::of_display(ErrorCode::InvalidMethod)),
            Split::Message {
                object,
                opcode,
                size,
            } => self.first_of(object, opcode, size),
        }
    }

    /// The first message, which has this header.
    fn first_of(&self, object: u32, opcode: u16, size: u16) -> First<'_>
        requires { split_of self.now.rest ≡ Whole object opcode size }
        ensures { IsFirst self.now result }
    {
        let Some(entry) = self.objects.get(object) else {
            return First::Refused(Refusal::of_display(ErrorCode::InvalidObject));
        };
        let body = &self.rest.as_slice()[8..size as usize];
        let Ok(request) = decode(entry.interface, entry.version, opcode, body) else {
            return First::Refused(Refusal::of_display(ErrorCode::InvalidMethod));
        };
        if !are_fit(&self.objects, request.objects()) {
            return First::Refused(Refusal::of_display(ErrorCode::InvalidMethod));
        }
        match check_new_id(&self.objects, request.new_id(), Ok(())) {
            Ok(()) => First::Request {
                object,
                version: entry.version,
                size: size as usize,
                target: entry.target,
                request,
            },
            Err(refusal) => First::Refused(refusal),
        }
    }

    /// Takes the first message, if it has this size.
    pub fn take_first(&mut self, size: usize)
        ensures { self.new ≡ record self.old { rest = drop size self.old.rest } }
    {
        let count = size.min(self.rest.as_slice().len());
        self.rest.take_front(count);
    }
}
