//! The requests of xdg_popup, a short-lived, temporary surface such as a menu or a tooltip
//! (xdg-shell.xml, xdg_popup).

ghost use Rattle.std.specs.Prelude.{ℕ, ◌≡◌, ◌&&◌, ◌||◌, IfSome, None, [], is_some, not, true};
ghost use Rattle.wl_proto.specs.Messages.{xdg_popup_request};
ghost use Rattle.wl_proto.specs.declared.xdg_popup.XdgPopupRequest.TheVariants.{Destroy, Grab, Reposition};
ghost use Rattle.wl_shell.specs.Shell.{xdg_with};
ghost use Rattle.spec_desktop.specs.Changing.{is_serial};
ghost use Rattle.spec_desktop.specs.Demanding.{demand_of};
ghost use Rattle.spec_desktop.specs.XdgPopup.{popup_asked};
ghost use Rattle.wl_requests.specs.Holding.{HoldsAs};
ghost use Rattle.wl_requests.specs.Messages.{IsTouchOf};
ghost use Rattle.wl_requests.specs.Residents.{AnswersAllowed, AnswersDemandAs, AnswersGiven, AnswersPlaced, IsPopup, Leaves};
ghost use Rattle.wl_requests.specs.Touching.{IsTouched, Touch};

use crate::messages::Kind;
use crate::residents::{Given, Grabbing, Outcome, Placing, Resident, Stacking};
use std::alloc::Allocator;
use wl_proto::XdgPopupRequest;
use wl_surface::{Applied, SurfaceNo};

/// Whether a serial is this one, if there is one.
fn is_serial(serial: u32, other: Option<u32>) -> bool
    ensures { result ≡ is_serial serial other }
{
    match other {
        Some(other) => other == serial,
        None => false,
    }
}

impl Grabbing {
    /// Whether a grab with this serial is allowed, if the parent of its popup allows it.
    fn allows(&self, serial: u32) -> bool
        ensures { result ≡ ((is_serial serial self.now.press || is_serial serial self.now.release) && not self.now.held_elsewhere) }
    {
        (is_serial(serial, self.press) || is_serial(serial, self.release)) && !self.held_elsewhere
    }
}

impl<A: Allocator + Copy> Resident<A> {
    /// An outcome that applied nothing: no surface changes, no buffer is freed, and no callback
    /// goes.
    fn nothing_applied(&self) -> Applied<A>
        ensures { result.changes.items ≡ [] }
    {
        let alloc = self.client.allocator();
        Applied {
            changes: Vec::new(alloc),
            freed: Vec::new(alloc),
            callbacks: Vec::new(alloc),
            shown: Vec::new(alloc),
        }
    }

    /// xdg_popup.destroy: its id is given back. It is refused while a living popup has it as its
    /// parent. Without room for the windows that it leads to, its client ends as out of memory.
    fn destroy_popup(
        &mut self,
        object: u32,
        surface: SurfaceNo,
        has_room: bool,
    ) -> Option<Applied<A>>
        ensures decides { IsPopup self.old object surface → AnswersDemandAs (is_some result) (λ r. popup_asked r object (xdg_with object r.owned.shell) Destroy) self.old self.new }
        ensures told { IfSome result (λ applied. applied.changes.items ≡ []) }
        ensures room { is_some result ≡ true → has_room ≡ true }
        ensures rest { Leaves self.old self.new }
        ensures surfaces { self.new.owned.surfaces ≡ self.old.owned.surfaces }
        ensures holds { IsPopup self.old object surface → HoldsAs (is_some result) (λ r. popup_asked r object (xdg_with object r.owned.shell) Destroy) self.old self.new }
    {
        self.owned.shell.are_found();
        match self.owned.shell.destroy_popup(surface) {
            Ok(()) => {
                self.client.count();
                if !has_room {
                    self.client.lack_memory();
                    return None;
                }
                self.client.remove(object);
                Some(self.nothing_applied())
            }
            Err(error) => {
                self.refuse_xdg_surface(object, surface, error);
                None
            }
        }
    }

    /// xdg_popup.grab with this serial. The popup gets the grab if:
    /// - it isn't mapped;
    /// - the serial is that of the latest press or the latest release that its client was told of;
    /// - no other client holds a grab;
    /// - its parent is a toplevel or a popup with a grab.
    ///
    /// A mapped popup is refused. Else the popup is dismissed, with its descendants (xdg-shell.xml,
    /// xdg_popup.popup_done). Nothing is done if it was dismissed before.
    fn grab(&mut self, object: u32, surface: SurfaceNo, serial: u32, grabbing: Grabbing)
        ensures answers { IsPopup self.old object surface → (seat : ℕ)
            → AnswersAllowed grabbing (Kind.Popup (Grab seat serial)) (λ r. popup_asked r object (xdg_with object r.owned.shell) (Grab seat serial)) self.old self.new }
        ensures rest { Leaves self.old self.new }
    {
        self.owned.shell.are_found();
        match self.owned.shell.grab(surface, grabbing.allows(serial)) {
            Ok(true) => self.client.count(),
            Ok(false) => {
                self.client.count();
                self.dismiss_popups(surface);
            }
            Err(error) => self.refuse_xdg_surface(object, surface, error),
        }
    }

    /// xdg_popup.reposition: the popup gets a copy of the positioner with this id. If it was
    /// configured before and isn't dismissed, it is told with this token where it will stand, and
    /// its xdg_surface is configured. `placing` says by what it is placed.
    fn reposition(
        &mut self,
        object: u32,
        surface: SurfaceNo,
        positioner: u32,
        token: u32,
        placing: Placing,
    )
        ensures answers { IsPopup self.old object surface
            → AnswersPlaced placing (Kind.Popup (Reposition positioner token)) object (λ r. popup_asked r object (xdg_with object r.owned.shell) (Reposition positioner token)) self.old self.new }
        ensures rest { Leaves self.old self.new }
    {
        let values = self.positioner_of(positioner);
        let xdg_surface = self.xdg_surface_of(surface);
        let serial = self.client.serial();
        match self.owned.shell.reposition(
            surface,
            &values,
            placing.bounds,
            placing.parent_at,
            serial,
        ) {
            Ok(placed) => {
                self.client.count();
                self.tell_anew(object, token, placed, xdg_surface, serial);
            }
            Err(error) => self.refuse_xdg_surface(object, surface, error),
        }
    }

    /// A request of the popup of a surface. `given` says by what it is placed, and by what a grab
    /// is allowed.
    pub(crate) fn xdg_popup(
        &mut self,
        object: u32,
        surface: SurfaceNo,
        request: &XdgPopupRequest,
        given: Given,
    ) -> Outcome<A>
        ensures answers { (version : ℕ) → IsPopup self.old object surface → AnswersGiven given.placing given.grabbing (Kind.Popup request.now) object (λ r. demand_of r object version (xdg_popup_request request.now)) self.old self.new }
        ensures decides { (version : ℕ) (touch : Touch) → IsTouchOf (Kind.Popup request.now) object surface self.old touch → IsPopup self.old object surface
            → AnswersDemandAs (is_some result.applied) (λ r. demand_of r object version (xdg_popup_request request.now)) self.old self.new }
        ensures touched { (touch : Touch) → IsTouchOf (Kind.Popup request.now) object surface self.old touch → IsTouched touch self.old.owned.surfaces self.new.owned.surfaces result.applied }
        ensures nothing { ((touch : Touch) → IsTouchOf (Kind.Popup request.now) object surface self.old touch → ⊥) → result.applied ≡ None }
        ensures stays { result.stacking ≡ Stacking.Stays }
        ensures rest { Leaves self.old self.new }
        ensures room { is_some result.applied ≡ true → given.has_room ≡ true }
        ensures holds { (version : ℕ) (touch : Touch) → IsTouchOf (Kind.Popup request.now) object surface self.old touch → IsPopup self.old object surface
            → HoldsAs (is_some result.applied) (λ r. demand_of r object version (xdg_popup_request request.now)) self.old self.new }
    {
        match *request {
            XdgPopupRequest::Destroy => Outcome {
                stacking: Stacking::Stays,
                applied: self.destroy_popup(object, surface, given.has_room),
            },
            XdgPopupRequest::Grab { serial, .. } => {
                self.grab(object, surface, serial, given.grabbing);
                Outcome::of(Stacking::Stays)
            }
            XdgPopupRequest::Reposition { positioner, token } => {
                self.reposition(object, surface, positioner, token, given.placing);
                Outcome::of(Stacking::Stays)
            }
        }
    }
}
