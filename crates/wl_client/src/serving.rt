//! One message at a time, for a client whose surfaces use some of its buffers.

ghost use Rattle.std.specs.Prelude.{ℕ, Bool, ◌≡◌, ◌≤◌, ◌<◌, is_some, length, true, false, None};
ghost use Rattle.spec_desktop.specs.Peer.{Errs, IsIdleAt, Peer, counted};
ghost use Rattle.wl_client.specs.Serving.{ActsWith, AreUsed, ChangesTable, EndsSo, IsNext, IsOwnMessage, KeepsSurfaces, PassesTo, ServesWith, may_be_done, was_taken};

use crate::clients::Client;
use crate::first_message::First;
use crate::served::{Next, Served};
use spec_desktop::{Action, Cause, ErrorCode, Refusal};
use std::alloc::Allocator;
use wl_surface::SurfaceStates;

impl<A: Allocator + Copy> Client<A> {
    ghost use Rattle.wl_client.specs.Agreement.{IsPeer};

    /// What is to be done with the first message.
    fn next(&self) -> Next
        ensures { IsNext self.now result }
    {
        match self.first() {
            First::More => Next::More,
            First::Refused(refusal) => Next::Refused(refusal),
            First::Request {
                object,
                version,
                size,
                request,
                ..
            } => match self.own_action(object, version, &request) {
                None => Next::Other,
                Some(judged) => Next::Own(size, judged),
            },
        }
    }

    /// Does what an accepted message asks.
    fn act_with(&mut self, action: Action, surfaces: &SurfaceStates<A>)
        requires allowed { may_be_done action ≡ true }
        ensures acts { (used : ℕ → Bool) → AreUsed surfaces.now used → (p : Peer) → IsPeer self.old p
            → (q : Peer) × ActsWith used action (counted p) q × IsPeer self.new q }
        ensures table { self.new.ended ≡ None → ChangesTable action self.old.objects self.new.objects }
        ensures rest { length self.new.rest ≤ length self.old.rest }
    {
        match action {
            Action::DestroyBuffer(id, store) => {
                self.count();
                self.destroy_buffer_with(id, store, surfaces);
            }
            action => self.act(action),
        }
    }

    /// Refuses the first message.
    fn refused(&mut self, refusal: Refusal) -> Served
        ensures taken { was_taken result ≡ true }
        ensures ended { is_some self.new.ended ≡ true }
        ensures errs { (p : Peer) → IsPeer self.old p → (q : Peer) × Errs refusal p q × IsPeer self.new q }
        ensures cause { EndsSo result self.new.ended }
        ensures rest { length self.new.rest ≡ 0 }
    {
        self.refuse(refusal);
        Served::Refused {
            object: refusal.object,
            code: refusal.code.number(),
        }
    }

    /// What became of an accepted message.
    fn outcome(&self) -> Served
        ensures taken { was_taken result ≡ true }
        ensures cause { EndsSo result self.now.ended }
    {
        match self.ended {
            Some(Cause::Memory) => Served::Refused {
                object: 1,
                code: ErrorCode::NoMemory.number(),
            },
            _ => Served::Done,
        }
    }

    /// Takes the first message of a living client, which has this size and is of one of the
    /// client's own interfaces. `judged` is what it asks, or its own error. When a wl_buffer goes,
    /// a surface that uses the buffer keeps its use of the store.
    pub fn serve_own(
        &mut self,
        size: usize,
        judged: Result<Action, Refusal>,
        surfaces: &SurfaceStates<A>,
    ) -> Served
        requires lives { self.old.ended ≡ None }
        requires own { IsOwnMessage self.old size judged }
        ensures taken { was_taken result ≡ true }
        ensures serves { (used : ℕ → Bool) → AreUsed surfaces.now used → (p : Peer) → IsPeer self.old p
            → (q : Peer) × ServesWith used p q × IsPeer self.new q }
        ensures less { length self.new.rest < length self.old.rest }
        ensures table { self.new.ended ≡ None → KeepsSurfaces self.old.objects self.new.objects }
        ensures cause { EndsSo result self.new.ended }
    {
        self.take_first(size);
        match judged {
            Ok(action) => {
                self.act_with(action, surfaces);
                self.outcome()
            }
            Err(refusal) => self.refused(refusal),
        }
    }

    /// Takes the first message of a living client, if it is of one of the client's own interfaces,
    /// or is refused before its own errors are looked at. When a wl_buffer goes, a surface that
    /// uses the buffer keeps its use of the store.
    pub fn serve(&mut self, surfaces: &SurfaceStates<A>) -> Served
        ensures serves { was_taken result ≡ true → (used : ℕ → Bool) → AreUsed surfaces.now used → (p : Peer) → IsPeer self.old p
            → (q : Peer) × ServesWith used p q × IsPeer self.new q }
        ensures less { was_taken result ≡ true → length self.new.rest < length self.old.rest }
        ensures idle { was_taken result ≡ false → self.new ≡ self.old }
        ensures more { result ≡ Served.More → IsIdleAt self.old.ended self.old.rest }
        ensures other { result ≡ Served.Other → (self.old.ended ≡ None) × PassesTo false self.old }
        ensures passes { self.old.ended ≡ None → PassesTo false self.old → result ≡ Served.Other }
        ensures table { self.new.ended ≡ None → KeepsSurfaces self.old.objects self.new.objects }
        ensures cause { EndsSo result self.new.ended }
    {
        if self.has_ended() {
            return Served::More;
        }
        match self.next() {
            Next::More => Served::More,
            Next::Other => Served::Other,
            Next::Refused(refusal) => self.refused(refusal),
            Next::Own(size, judged) => self.serve_own(size, judged, surfaces),
        }
    }
}
