//! Which toplevels are mapped, and where they stand.

ghost use Rattle.std.specs.Prelude.{◌≡◌, ◌==◌, ◌<◌, ◌++◌, ◌∷◌, [], IsOk, OnOk, OnErr, vec_capacity, Some, find, length, map, position, remove, slice_index_or};
ghost use Rattle.std.specs.Option.{option_copied, option_map};
ghost use Rattle.wl_scene.specs.Focus.{place_of};
ghost use Rattle.spec_desktop.specs.Stacking.{is_of, moved_to, raised, without_client, without_surface_of};
ghost use Rattle.wl_scene.specs.Kept.{mapped_on, standing_of};

use crate::focus::Point;
use std::alloc::{AllocError, Allocator};
use std::marker::Model;
use std::mem;
use wl_surface::SurfaceNo;

/// How many different places mapped toplevels get, in turn.
const PLACES: u8 = 8;

/// How far a place is to the right of and below the one before it, in pixels.
const STEP: i32 = 32;

/// A surface of a client, each by its number.
#[derive(Clone, Copy, Debug, PartialEq, Eq)]
pub struct Surface {
    pub client: u32,
    pub surface: SurfaceNo,
}

/// A mapped toplevel, and where its surface's place is in the output in pixels.
#[derive(Clone, Copy, Debug)]
pub struct Toplevel {
    pub surface: Surface,
    pub x: i32,
    pub y: i32,
}

/// The mapped toplevels of all clients from bottom to top. Contracts see it as that list, and which
/// place comes next.
#[derive(Drop)]
pub struct Scene<A: Allocator> {
    standing: Vec<Toplevel, A>,
    next: u8,
}

impl<A: Allocator> Model for Scene<A> {
    ghost use Rattle.std.specs.Prelude.{◌<◌, map};
    ghost use Rattle.wl_scene.specs.Kept.{Stack, standing_of};

    ghost Value = { Stack };

    ghost view = { λ scene. record { standing = map standing_of scene.standing.items; next = scene.next } };

    ghost invariant = { λ scene. scene.next < 8 };
}

fn is_surface(toplevel: &Toplevel, surface: Surface) -> bool
    ensures { result ≡ is_of surface.client surface.surface (standing_of toplevel.now) }
{
    toplevel.surface == surface
}

fn is_client(toplevel: &Toplevel, client: u32) -> bool
    ensures { result ≡ ((standing_of toplevel.now).client == client) }
{
    toplevel.surface.client == client
}

/// The place of the toplevel of this surface.
fn position_of(standing: &[Toplevel], surface: Surface) -> Option<usize>
    ensures { result ≡ position (λ t. is_of surface.client surface.surface (standing_of t)) standing.now }
{
    standing
        .iter()
        .position(|toplevel| is_surface(toplevel, surface))
}

/// The toplevel of this surface.
fn find_toplevel(standing: &[Toplevel], surface: Surface) -> Option<&Toplevel>
    ensures { option_copied result ≡ find (λ t. is_of surface.client surface.surface (standing_of t)) standing.now }
{
    standing
        .iter()
        .find(|toplevel| is_surface(toplevel, surface))
}

/// Moves the toplevel at this place to the top.
fn to_top(standing: &mut [Toplevel], place: usize)
    requires { place < length standing.old }
    ensures len { length standing.new ≡ length standing.old }
    ensures top { (d : Toplevel) → standing.new ≡ remove standing.old place ++ slice_index_or standing.old place d ∷ [] }
{
    standing[place..].rotate_left(1);
}

impl<A: Allocator> Scene<A> {
    /// A scene without toplevels.
    pub fn new(alloc: A) -> Self
        ensures { result ≡ record { standing = []; next = 0 } }
    {
        Scene {
            standing: Vec::new(alloc),
            next: 0,
        }
    }

    /// The mapped toplevels, from bottom to top.
    pub fn toplevels(&self) -> &[Toplevel]
        ensures { map standing_of result.now ≡ self.now.standing }
    {
        &self.standing[..]
    }

    /// Where the toplevel of this surface stands in the output in pixels, if it is mapped.
    pub fn place(&self, surface: Surface) -> Option<Point>
        ensures { option_map place_of result ≡ option_map (λ s. s.place) (find (is_of surface.client surface.surface) self.now.standing) }
    {
        match find_toplevel(&self.standing, surface) {
            None => None,
            Some(toplevel) => Some(Point {
                x: toplevel.x,
                y: toplevel.y,
            }),
        }
    }

    /// Maps a toplevel: it stands on top, in the next place (xdg-shell.xml, xdg_surface: mapping).
    /// The caller makes sure that it isn't mapped yet.
    ///
    /// The toplevels are kept in `spare` from then on, and `spare` becomes the memory that they
    /// were kept in. If `spare` has room for one more than stand, mapping takes no memory. What it
    /// held before is lost.
    ///
    /// # Errors
    ///
    /// An `Err` means that memory ran out, and changes nothing of the scene.
    pub fn map(&mut self, surface: Surface, spare: &mut Vec<Toplevel, A>) -> Result<(), AllocError>
        ensures ok { OnOk result (self.new ≡ mapped_on surface.client surface.surface self.old) }
        ensures err { OnErr result (self.new ≡ self.old) }
        ensures succeeds { length self.old.standing < vec_capacity spare.old → IsOk result }
    {
        let at = i32::from(self.next) * STEP;
        let toplevel = Toplevel {
            surface,
            x: at,
            y: at,
        };
        spare.clear();
        spare.extend_from_slice(&self.standing)?;
        spare.push(toplevel)?;
        mem::swap(&mut self.standing, spare);
        self.next = (self.next + 1) % PLACES;
        Ok(())
    }

    /// Unmaps a toplevel. Nothing changes if it isn't mapped.
    pub fn unmap(&mut self, surface: Surface)
        ensures standing { self.new.standing ≡ without_surface_of surface.client surface.surface self.old.standing }
        ensures next { self.new.next ≡ self.old.next }
    {
        self.standing
            .retain(|toplevel| !is_surface(toplevel, surface));
    }

    /// Unmaps all of a client's toplevels.
    pub fn unmap_all(&mut self, client: u32)
        ensures standing { self.new.standing ≡ without_client client self.old.standing }
        ensures next { self.new.next ≡ self.old.next }
    {
        self.standing
            .retain(|toplevel| !is_client(toplevel, client));
    }

    /// Moves a toplevel to the top. Nothing changes if it isn't mapped.
    pub fn raise(&mut self, surface: Surface)
        ensures standing { self.new.standing ≡ raised surface.client surface.surface self.old.standing }
        ensures next { self.new.next ≡ self.old.next }
    {
        let Some(place) = position_of(&self.standing, surface) else {
            return;
        };
        to_top(&mut self.standing, place);
    }

    /// Puts a toplevel at another place, in pixels of the output. Nothing changes if it isn't
    /// mapped.
    pub fn move_to(&mut self, surface: Surface, x: i32, y: i32)
        ensures standing { self.new.standing ≡ moved_to surface.client surface.surface (record { x = x; y = y }) self.old.standing }
        ensures next { self.new.next ≡ self.old.next }
    {
        let Some(place) = position_of(&self.standing, surface) else {
            return;
        };
        self.standing[place] = Toplevel { surface, x, y };
    }
}
