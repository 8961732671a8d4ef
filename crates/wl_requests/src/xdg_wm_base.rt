//! The requests of xdg_wm_base, with which clients turn their surfaces into windows of a desktop
//! (xdg-shell.xml, xdg_wm_base).

ghost use Rattle.std.specs.Prelude.{ℕ, ◌≡◌, ◌↔◌, IsTrue, Ok};
ghost use Rattle.wl_proto.specs.Messages.{xdg_wm_base_request};
ghost use Rattle.wl_proto.specs.declared.interface.Interface.TheVariants.{WlSurface};
ghost use Rattle.spec_desktop.specs.declared.actions.Action.TheVariants.{CreatePositioner};
ghost use Rattle.spec_desktop.specs.Ask.{EndObject, Ignore, Own};
ghost use Rattle.spec_desktop.specs.Demand.{Asks};
ghost use Rattle.law_desktop.specs.Owning.{targets_in};
ghost use Rattle.wl_requests.specs.Residents.{AnswersDemand, Does, GoesAlone, IsBase, IsFree, IsSurface, Leaves, NewIsFree, ObjectsFit};
ghost use Rattle.spec_desktop.specs.Demanding.{demand_of, demands};
ghost use Rattle.spec_desktop.specs.WlSubsurface.{past_limit};
ghost use Rattle.spec_desktop.specs.XdgShell.{base_destroyed, is_foreign, xdg_surface_made};

use crate::residents::Resident;
use crate::xdg_surface::refusal_of;
use std::alloc::Allocator;
use wl_client::{ErrorCode, Refusal};
use wl_proto::{Interface, XdgWmBaseRequest};
use wl_shell::ShellError;
use wl_surface::{Role, SurfaceNo};
use wl_table::Entry;

/// Whether a role isn't one of the shell's.
fn is_foreign_role(role: Option<Role>) -> bool
    ensures { result ≡ is_foreign role }
{
    match role {
        None | Some(Role::Toplevel) | Some(Role::Popup) => false,
        Some(Role::Subsurface) | Some(Role::Cursor) => true,
    }
}

/// Whether there was no memory.
fn is_memory(error: ShellError) -> bool
    ensures { IsTrue result ↔ (error ≡ ShellError.Memory) }
{
    error == ShellError::Memory
}

impl<A: Allocator + Copy> Resident<A> {
    /// Counts a request that has no effect.
    pub(crate) fn ignore(&mut self)
        ensures answers { AnswersDemand (λ r. Ok (Asks Ignore)) self.old self.new }
        ensures rest { Leaves self.old self.new }
    {
        self.client.count();
    }

    /// Refuses a request past a limit: wl_display.error, implementation.
    pub(crate) fn refuse_past_limit(&mut self)
        ensures answers { AnswersDemand (λ r. past_limit) self.old self.new }
        ensures rest { Leaves self.old self.new }
    {
        self.client
            .refuse(Refusal::of_display(ErrorCode::Implementation));
    }

    /// The number of the surface of the wl_surface with this id.
    pub(crate) fn surface_of(&self, id: u32) -> Option<SurfaceNo>
        ensures { result ≡ targets_in WlSurface self.now.client.objects id }
    {
        let entry = self.client.object(id)?;
        match entry.interface {
            Interface::WlSurface => Some(entry.target),
            _ => None,
        }
    }

    /// Removes an object with which nothing else of the client goes, and gives its id back.
    pub(crate) fn end_object(&mut self, object: u32)
        ensures does { GoesAlone self.old object → Does (λ r. EndObject object) self.old self.new }
        ensures rest { Leaves self.old self.new }
    {
        self.client.remove(object);
    }

    /// xdg_wm_base.destroy: its id is given back.
    fn destroy_base(&mut self, object: u32)
        ensures answers { IsBase self.old object → AnswersDemand (λ r. demands (base_destroyed r object)) self.old self.new }
        ensures rest { Leaves self.old self.new }
    {
        match self.owned.shell.check_base(object) {
            Ok(()) => {
                self.client.count();
                self.end_object(object);
            }
            Err(_) => self
                .client
                .refuse(Refusal::of(object, ErrorCode::DefunctSurfaces)),
        }
    }

    /// xdg_wm_base.create_positioner: makes a positioner under a free id, for which nothing is set.
    fn create_positioner(&mut self, version: u32, id: u32)
        ensures answers { IsFree self.old id → AnswersDemand (λ r. Ok (Asks (Own (CreatePositioner id version)))) self.old self.new }
        ensures rest { Leaves self.old self.new }
    {
        self.client.count();
        self.client.create_positioner(id, version);
    }

    /// xdg_wm_base.get_xdg_surface: makes an xdg_surface under a free id, for the surface with this
    /// number.
    fn get_xdg_surface(&mut self, object: u32, version: u32, id: u32, surface: SurfaceNo)
        ensures answers { (named : ℕ) → IsFree self.old id → IsSurface self.old named surface
            → AnswersDemand (λ r. demands (xdg_surface_made r object version id named)) self.old self.new }
        ensures rest { Leaves self.old self.new }
    {
        let has_other_role = is_foreign_role(self.owned.surfaces.role(surface));
        let has_content = self.owned.surfaces.has_content(surface);
        match self
            .owned
            .shell
            .get_xdg_surface(surface, id, object, has_other_role, has_content)
        {
            Ok(()) => {
                let entry = Entry {
                    interface: Interface::XdgSurface,
                    version,
                    target: surface,
                };
                self.client.count();
                self.client.add(id, entry, &[]);
            }
            Err(error) => {
                if is_memory(error) {
                    self.client.count();
                    self.client.lack_memory();
                } else {
                    self.client.refuse(refusal_of(object, id, object, error));
                }
            }
        }
    }

    /// A request of an xdg_wm_base whose new id is free and whose wl_surface is there.
    pub(crate) fn xdg_wm_base(&mut self, object: u32, version: u32, request: &XdgWmBaseRequest)
        ensures answers { IsBase self.old object → NewIsFree self.old (xdg_wm_base_request request.now) → ObjectsFit self.old (xdg_wm_base_request request.now)
            → AnswersDemand (λ r. demand_of r object version (xdg_wm_base_request request.now)) self.old self.new }
        ensures rest { Leaves self.old self.new }
    {
        match *request {
            XdgWmBaseRequest::Destroy => self.destroy_base(object),
            XdgWmBaseRequest::CreatePositioner { id } => self.create_positioner(version, id),
            XdgWmBaseRequest::GetXdgSurface { id, surface } => {
                if let Some(surface) = self.surface_of(surface) {
                    self.get_xdg_surface(object, version, id, surface);
                }
            }
            XdgWmBaseRequest::Pong { .. } => self.ignore(),
        }
    }
}
