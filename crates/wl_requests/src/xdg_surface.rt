//! The requests of xdg_surface, the base set of what toplevels and popups need of the compositor
//! (xdg-shell.xml, xdg_surface): role objects, window geometry and configures.

ghost use Rattle.std.specs.Prelude.{ℕ, ◌≡◌, ◌+◌, is_some, min, true};
ghost use Rattle.wl_client.specs.Agreement.{IsPeer, most_counted};
ghost use Rattle.wl_proto.specs.declared.interface.Interface.TheVariants.{XdgSurface};
ghost use Rattle.spec_desktop.specs.Peer.{Errs, Peer};
ghost use Rattle.wl_proto.specs.Messages.{xdg_surface_request};
ghost use Rattle.wl_proto.specs.declared.xdg_surface.XdgSurfaceRequest.TheVariants.{AckConfigure, Destroy, GetPopup, GetToplevel, SetWindowGeometry};
ghost use Rattle.wl_shell.specs.Kept.{kept_of};
ghost use Rattle.law_desktop.specs.Owning.{kept_base, kept_id, shell_refusal, targets_in};
ghost use Rattle.wl_requests.specs.Residents.{AnswersDemand, IsFree, IsXdgSurface, Leaves, NewIsFree, ObjectsFit};
ghost use Rattle.spec_desktop.specs.Demanding.{demand_of, xdg_demand};
ghost use Rattle.spec_desktop.specs.XdgPopup.{is_no_popup, positioner_of};
ghost use Rattle.spec_desktop.specs.XdgShell.{is_no_toplevel};

use crate::residents::Resident;
use std::alloc::Allocator;
use wl_client::{ErrorCode, Refusal};
use wl_geom::Rect;
use wl_proto::{Interface, XdgSurfaceRequest};
use wl_shell::{NewPopup, Positioner, ShellError};
use wl_surface::{Role, SurfaceNo};
use wl_table::Entry;

/// What xdg_surface.get_popup asks: a popup under this id.
#[derive(Clone, Copy)]
pub(crate) struct PopupAsked {
    pub id: u32,
    /// The id of the xdg_surface of its parent.
    pub parent: u32,
    /// The id of its xdg_positioner.
    pub positioner: u32,
}

/// An error of the shell's with its object: the xdg_wm_base, the xdg_surface, wl_display, or else
/// the object that was asked.
pub(crate) fn refusal_of(base: u32, xdg_surface: u32, object: u32, error: ShellError) -> Refusal
    ensures { result ≡ shell_refusal base xdg_surface object error }
{
    match error {
        ShellError::Role => Refusal::of(base, ErrorCode::Role),
        ShellError::DefunctSurfaces => Refusal::of(base, ErrorCode::DefunctSurfaces),
        ShellError::NotTheTopmostPopup => Refusal::of(base, ErrorCode::NotTheTopmostPopup),
        ShellError::InvalidPopupParent => Refusal::of(base, ErrorCode::InvalidPopupParent),
        ShellError::InvalidSurfaceState => Refusal::of(base, ErrorCode::InvalidSurfaceState),
        ShellError::InvalidPositioner => Refusal::of(base, ErrorCode::InvalidPositioner),
        ShellError::NotConstructed => Refusal::of(xdg_surface, ErrorCode::NotConstructed),
        ShellError::AlreadyConstructed => Refusal::of(xdg_surface, ErrorCode::AlreadyConstructed),
        ShellError::UnconfiguredBuffer => Refusal::of(xdg_surface, ErrorCode::UnconfiguredBuffer),
        ShellError::InvalidSerial => Refusal::of(xdg_surface, ErrorCode::InvalidSerial),
        ShellError::InvalidSize => Refusal::of(xdg_surface, ErrorCode::InvalidSize),
        ShellError::DefunctRoleObject => Refusal::of(xdg_surface, ErrorCode::DefunctRoleObject),
        ShellError::InvalidGrab => Refusal::of(object, ErrorCode::InvalidGrab),
        ShellError::InvalidInput => Refusal::of(object, ErrorCode::InvalidInput),
        ShellError::TooMany => Refusal::of_display(ErrorCode::Implementation),
        ShellError::Memory => Refusal::of_display(ErrorCode::NoMemory),
    }
}

/// Whether a role isn't that of a toplevel.
fn is_other_role(role: Option<Role>) -> bool
    ensures { result ≡ is_no_toplevel role }
{
    match role {
        None | Some(Role::Toplevel) => false,
        Some(Role::Popup) | Some(Role::Subsurface) | Some(Role::Cursor) => true,
    }
}

/// Whether a role isn't that of a popup.
fn is_not_of_popup(role: Option<Role>) -> bool
    ensures { result ≡ is_no_popup role }
{
    match role {
        None | Some(Role::Popup) => false,
        Some(Role::Toplevel) | Some(Role::Subsurface) | Some(Role::Cursor) => true,
    }
}

impl<A: Allocator + Copy> Resident<A> {
    /// The id of the xdg_surface of a surface; 0 if it has none.
    pub(crate) fn xdg_surface_of(&self, surface: SurfaceNo) -> u32
        ensures { result ≡ kept_id (kept_of self.now.owned.shell surface) }
    {
        match self.owned.shell.get(surface) {
            Some(xdg_surface) => xdg_surface.id(),
            None => 0,
        }
    }

    /// The id of the xdg_wm_base that made the xdg_surface of a surface; 0 if it has none.
    fn base_of(&self, surface: SurfaceNo) -> u32
        ensures { result ≡ kept_base (kept_of self.now.owned.shell surface) }
    {
        match self.owned.shell.get(surface) {
            Some(xdg_surface) => xdg_surface.base(),
            None => 0,
        }
    }

    /// Ends the client with an error of the shell's in a request of the xdg_surface of a surface.
    pub(crate) fn refuse_xdg_surface(&mut self, object: u32, surface: SurfaceNo, error: ShellError)
        ensures ended { is_some self.new.client.ended ≡ true }
        ensures errs { (p : Peer) → IsPeer self.old.client p
            → (q : Peer) × Errs (shell_refusal (kept_base (kept_of self.old.owned.shell surface)) object object error) p q × IsPeer self.new.client q }
        ensures rest { Leaves self.old self.new }
        ensures surfaces { self.new.owned.surfaces ≡ self.old.owned.surfaces }
    {
        let refusal = refusal_of(self.base_of(surface), object, object, error);
        self.client.refuse(refusal);
    }

    /// xdg_surface.destroy: its id is given back.
    fn destroy_xdg_surface(&mut self, object: u32, surface: SurfaceNo)
        ensures answers { (version : ℕ) → IsXdgSurface self.old object surface → AnswersDemand (λ r. xdg_demand r object version Destroy) self.old self.new }
        ensures rest { Leaves self.old self.new }
    {
        match self.owned.shell.destroy_xdg_surface(surface) {
            Ok(()) => {
                self.client.count();
                self.client.remove(object);
            }
            Err(error) => self.refuse_xdg_surface(object, surface, error),
        }
    }

    /// xdg_surface.get_toplevel: makes a toplevel under a free id. The surface gets the role of
    /// one.
    fn get_toplevel(&mut self, object: u32, version: u32, surface: SurfaceNo, id: u32)
        ensures answers { IsXdgSurface self.old object surface → IsFree self.old id
            → AnswersDemand (λ r. demand_of r object version (xdg_surface_request (GetToplevel id))) self.old self.new }
        ensures rest { Leaves self.old self.new }
    {
        let has_other_role = is_other_role(self.owned.surfaces.role(surface));
        match self.owned.shell.get_toplevel(surface, id, has_other_role) {
            Ok(()) => {
                let _given = self.owned.surfaces.give_role(surface, Role::Toplevel);
                let entry = Entry {
                    interface: Interface::XdgToplevel,
                    version,
                    target: surface,
                };
                self.client.count();
                self.client.add(id, entry, &[]);
            }
            Err(error) => self.refuse_xdg_surface(object, surface, error),
        }
    }

    /// xdg_surface.set_window_geometry: a rectangle in surface pixels.
    fn set_window_geometry(&mut self, object: u32, surface: SurfaceNo, rect: Rect)
        ensures answers { (version : ℕ) → IsXdgSurface self.old object surface
            → AnswersDemand (λ r. xdg_demand r object version (SetWindowGeometry rect.x rect.y rect.w rect.h)) self.old self.new }
        ensures rest { Leaves self.old self.new }
    {
        match self.owned.shell.geometry(surface, rect) {
            Ok(()) => self.client.count(),
            Err(error) => self.refuse_xdg_surface(object, surface, error),
        }
    }

    /// xdg_surface.ack_configure of the configure with this serial.
    fn ack_configure(&mut self, object: u32, surface: SurfaceNo, serial: u32)
        ensures answers { (version : ℕ) → IsXdgSurface self.old object surface
            → AnswersDemand (λ r. xdg_demand r object version (AckConfigure serial)) self.old self.new }
        ensures rest { Leaves self.old self.new }
    {
        match self.owned.shell.ack(surface, serial) {
            Ok(()) => self.client.count(),
            Err(error) => self.refuse_xdg_surface(object, surface, error),
        }
    }

    /// The number of the surface of the xdg_surface with this id.
    fn surface_of_xdg(&self, id: u32) -> Option<SurfaceNo>
        ensures { result ≡ targets_in XdgSurface self.now.client.objects id }
    {
        let entry = self.client.object(id)?;
        match entry.interface {
            Interface::XdgSurface => Some(entry.target),
            _ => None,
        }
    }

    /// The values of the xdg_positioner with this id.
    pub(crate) fn positioner_of(&self, id: u32) -> Positioner
        ensures { (p : Peer) → IsPeer self.now.client p → result ≡ positioner_of (p.positioners id) }
    {
        match self.client.positioner(id) {
            Some(positioner) => *positioner,
            None => Positioner::new(),
        }
    }

    /// The number of the request that is answered, at most the greatest of 64 bits.
    fn request_number(&self) -> u64
        ensures { result ≡ min (self.now.client.requests + 1) most_counted }
    {
        self.client.requests().saturating_add(1)
    }

    /// xdg_surface.get_popup: makes a popup under a free id, whose number is that of its request.
    /// The surface gets the role of one. A number of more than 64 bits counts as no memory.
    fn get_popup(&mut self, object: u32, version: u32, surface: SurfaceNo, asked: &PopupAsked)
        ensures answers { IsXdgSurface self.old object surface → IsFree self.old asked.now.id
            → ObjectsFit self.old (xdg_surface_request (GetPopup asked.now.id asked.now.parent asked.now.positioner))
            → AnswersDemand (λ r. demand_of r object version (xdg_surface_request (GetPopup asked.now.id asked.now.parent asked.now.positioner))) self.old self.new }
        ensures rest { Leaves self.old self.new }
    {
        let has_other_role = is_not_of_popup(self.owned.surfaces.role(surface));
        let number = self.request_number();
        let positioner = self.positioner_of(asked.positioner);
        let popup = NewPopup {
            id: asked.id,
            parent: self.surface_of_xdg(asked.parent),
            number,
        };
        match self
            .owned
            .shell
            .get_popup(surface, &popup, &positioner, has_other_role)
        {
            Ok(()) => {
                self.client.count();
                if number == u64::MAX {
                    self.client.lack_memory();
                    return;
                }
                let _given = self.owned.surfaces.give_role(surface, Role::Popup);
                let entry = Entry {
                    interface: Interface::XdgPopup,
                    version,
                    target: surface,
                };
                self.client.add(asked.id, entry, &[]);
            }
            Err(error) => self.refuse_xdg_surface(object, surface, error),
        }
    }

    /// A request of the xdg_surface of a surface, whose new id is free, and whose objects are
    /// there.
    pub(crate) fn xdg_surface(
        &mut self,
        object: u32,
        version: u32,
        surface: SurfaceNo,
        request: &XdgSurfaceRequest,
    )
        ensures answers { IsXdgSurface self.old object surface → NewIsFree self.old (xdg_surface_request request.now) → ObjectsFit self.old (xdg_surface_request request.now)
            → AnswersDemand (λ r. demand_of r object version (xdg_surface_request request.now)) self.old self.new }
        ensures rest { Leaves self.old self.new }
    {
        match *request {
            XdgSurfaceRequest::Destroy => self.destroy_xdg_surface(object, surface),
            XdgSurfaceRequest::GetToplevel { id } => self.get_toplevel(
                object, version, surface, id,
            ),
            XdgSurfaceRequest::GetPopup {
                id,
                parent,
                positioner,
            } => {
                let asked = PopupAsked {
                    id,
                    parent,
                    positioner,
                };
                self.get_popup(object, version, surface, &asked);
            }
            XdgSurfaceRequest::SetWindowGeometry {
                x,
                y,
                width,
                height,
            } => {
                let rect = Rect {
                    x,
                    y,
                    w: width,
                    h: height,
                };
                self.set_window_geometry(object, surface, rect);
            }
            XdgSurfaceRequest::AckConfigure { serial } => self.ack_configure(
                object, surface, serial,
            ),
        }
    }
}
