//! What clients change of the output: the toplevels and their windows, and which points are to be
//! painted again.

ghost use Rattle.std.specs.Prelude.{◌≡◌, ◌++◌, ◌+◌, ◌≤◌, [], IfOk, OnOk, find, length, map, vec_capacity, vec_len};
ghost use Rattle.std.specs.Option.{option_map};
ghost use Rattle.spec_desktop.specs.Stacking.{Owned as Owns, is_of};
ghost use Rattle.wl_scene.specs.Kept.{standing_of};
ghost use Rattle.spec_desktop.specs.Windows.{Owner};
ghost use Rattle.wl_clients.specs.Screens.{FitIf, HasPlace, HasRoom, IsRunHeldIf, IsSameScreen, restacked_if, run_kept, run_on};
ghost use Rattle.wl_clients.specs.Seats.{IsRestacked};

use crate::screen::moving::Moving;
use crate::screen::roots::Roots;
use spec_desktop::ClientNo;
use std::alloc::{AllocError, Allocator};
use wl_paint::Damage;
use wl_requests::{Resident, Stacking};
use wl_scene::{Scene, StackedWindows, Surface, Toplevel, TreeWindow, add_trees};
use wl_surface::SurfaceNo;

/// Memory kept for what a message leads to, so the output takes none once the message is done.
#[derive(Drop)]
pub(crate) struct Spare<A: Allocator> {
    /// Room for the toplevels and one more.
    pub(crate) toplevels: Vec<Toplevel, A>,
    /// The windows of a toplevel before a message.
    pub(crate) was: Vec<TreeWindow, A>,
    /// The windows after it.
    pub(crate) is: Vec<TreeWindow, A>,
    /// The roots of a toplevel's windows.
    pub(crate) roots: Roots<A>,
    /// The windows of a toplevel that is moved.
    pub(crate) moving: Moving<A>,
}

/// The mapped toplevels of all clients with the windows stacked with them, and which points of the
/// output are to be painted again.
#[derive(Drop)]
pub struct Screen<A: Allocator> {
    /// The mapped toplevels, from bottom to top.
    pub scene: Scene<A>,
    /// The windows stacked with them, from bottom to top.
    pub stacked: StackedWindows<A>,
    /// The points that are to be painted again.
    pub damage: Damage<A>,
    pub(crate) spare: Spare<A>,
}

/// The toplevel of a surface, if one stands.
pub(crate) fn toplevel_of<A: Allocator>(scene: &Scene<A>, surface: Surface) -> Option<Toplevel>
    ensures { option_map standing_of result ≡ find (is_of surface.client surface.surface) scene.now.standing }
{
    let toplevel = scene
        .toplevels()
        .iter()
        .find(|toplevel| toplevel.surface == surface)?;
    Some(*toplevel)
}

impl<A: Allocator + Copy> Screen<A> {
    /// A screen without toplevels, with these points to be painted again. An `Err` means that
    /// memory ran out.
    pub fn new(alloc: A, damage: Damage<A>) -> Result<Self, AllocError>
        ensures scene { IfOk result (λ screen. screen.scene ≡ record { standing = []; next = 0 }) }
        ensures windows { IfOk result (λ screen. screen.stacked.windows ≡ []) }
        ensures damage { IfOk result (λ screen. screen.damage ≡ damage) }
    {
        let spare = Spare {
            toplevels: Vec::new(alloc),
            was: Vec::new(alloc),
            is: Vec::new(alloc),
            roots: Roots::new(alloc)?,
            moving: Moving::new(alloc)?,
        };
        Ok(Screen {
            scene: Scene::new(alloc),
            stacked: StackedWindows::new(alloc),
            damage,
            spare,
        })
    }

    /// Keeps the windows of this toplevel, if there is one, as they are, to be compared with those
    /// afterwards.
    fn keep_run(&mut self, client: ClientNo, toplevel: Option<SurfaceNo>) -> Result<(), AllocError>
        ensures was { OnOk result (self.new.spare.was.items ≡ run_kept client toplevel self.old.stacked.windows) }
        ensures same { IsSameScreen self.old self.new }
        ensures is { self.new.spare.is ≡ self.old.spare.is }
    {
        self.spare.was.clear();
        let Some(toplevel) = toplevel else {
            return Ok(());
        };
        let run = self.stacked.run(client, toplevel);
        self.spare
            .was
            .extend(run.iter().map(|stacked| stacked.window))
    }

    /// Makes room for one more toplevel and this many more windows.
    fn reserve(&mut self, count: usize) -> Result<(), AllocError>
        ensures room { OnOk result (HasRoom count self.new) }
        ensures same { IsSameScreen self.old self.new }
        ensures was { self.new.spare.was ≡ self.old.spare.was }
        ensures is { self.new.spare.is.items ≡ self.old.spare.is.items }
    {
        let toplevels = self.scene.toplevels().len();
        let Some(more) = toplevels.checked_add(1) else {
            return Err(AllocError);
        };
        self.spare.toplevels.clear();
        self.spare.toplevels.try_reserve(more)?;
        self.spare.is.try_reserve(count)?;
        self.stacked.reserve(count)
    }

    /// Keeps the windows of this toplevel, if there is one, as they are before a message. Makes
    /// room for one more toplevel, and for as many more windows as the client has surfaces. An
    /// `Err` means that memory ran out.
    pub(crate) fn prepare(
        &mut self,
        client: ClientNo,
        toplevel: Option<SurfaceNo>,
        surfaces: usize,
    ) -> Result<(), AllocError>
        ensures was { OnOk result (self.new.spare.was.items ≡ run_kept client toplevel self.old.stacked.windows) }
        ensures room { OnOk result (HasRoom surfaces self.new) }
        ensures is { self.new.spare.is.items ≡ [] }
        ensures same { IsSameScreen self.old self.new }
    {
        self.spare.is.clear();
        self.keep_run(client, toplevel)?;
        self.reserve(surfaces)
    }

    /// Does what a request asks of the stack of toplevels. There is room for one that is mapped.
    pub(crate) fn restack(&mut self, client: ClientNo, stacking: Stacking)
        ensures scene { HasPlace stacking self.old.scene (vec_capacity self.old.spare.toplevels) → IsRestacked client stacking self.old.scene self.new.scene }
        ensures stacked { self.new.stacked ≡ self.old.stacked }
        ensures damage { self.new.damage ≡ self.old.damage }
        ensures was { self.new.spare.was ≡ self.old.spare.was }
        ensures is { self.new.spare.is ≡ self.old.spare.is }
    {
        match stacking {
            Stacking::Stays => {}
            Stacking::ToTop(surface) => {
                let surface = Surface { client, surface };
                let _mapped = self.scene.map(surface, &mut self.spare.toplevels);
            }
            Stacking::Out(surface) => self.scene.unmap(Surface { client, surface }),
        }
    }

    /// Lists the windows that this toplevel has now, if it stands, beside those that it had. There
    /// is room for them.
    pub(crate) fn add_run(
        &mut self,
        resident: &Resident<A>,
        client: ClientNo,
        toplevel: Option<SurfaceNo>,
    )
        ensures is { (o : Owns) (owner : Owner) → IsRunHeldIf client resident.now toplevel self.old.scene.standing o
            → vec_len self.old.spare.is + length (run_on client owner o toplevel self.old.scene.standing) ≤ vec_capacity self.old.spare.is
            → self.new.spare.is.items ≡ self.old.spare.is.items ++ run_on client owner o toplevel self.old.scene.standing }
        ensures same { IsSameScreen self.old self.new }
        ensures stacked { self.new.stacked ≡ self.old.stacked }
        ensures was { self.new.spare.was ≡ self.old.spare.was }
    {
        let Some(surface) = toplevel else {
            return;
        };
        let Some(stands) = toplevel_of(&self.scene, Surface { client, surface }) else {
            return;
        };
        let owned = &resident.owned;
        self.spare.roots.find(owned, surface, stands.x, stands.y);
        let roots = self.spare.roots.places();
        let _added = add_trees(&owned.surfaces, roots, &mut self.spare.is);
    }

    /// Puts the windows that this toplevel has now, if there is one, in place of those that it had.
    /// There is room for them.
    pub(crate) fn restack_windows(
        &mut self,
        client: ClientNo,
        toplevel: Option<SurfaceNo>,
        stacking: Stacking,
    )
        ensures windows { FitIf toplevel stacking (length self.old.spare.is.items) self.old.stacked.room
            → self.new.stacked.windows ≡ restacked_if client toplevel stacking self.old.spare.is.items self.old.stacked.windows }
        ensures scene { self.new.scene ≡ self.old.scene }
        ensures damage { self.new.damage ≡ self.old.damage }
        ensures was { self.new.spare.was ≡ self.old.spare.was }
        ensures is { self.new.spare.is ≡ self.old.spare.is }
    {
        let Some(toplevel) = toplevel else {
            return;
        };
        let is = &self.spare.is;
        match stacking {
            Stacking::Out(_) => self.stacked.remove(client, toplevel),
            Stacking::ToTop(_) if !self.stacked.has_toplevel(client, toplevel) => {
                let _pushed = self.stacked.push(client, toplevel, is);
            }
            Stacking::ToTop(_) | Stacking::Stays => {
                let _replaced = self.stacked.replace(client, toplevel, is);
            }
        }
    }
}
