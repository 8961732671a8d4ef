//! The frame requests that wait for their callbacks.

ghost use Rattle.std.specs.Prelude.{◌≡◌, IfOk, map};
ghost use Rattle.std.specs.List.{position};
ghost use Rattle.wl_surface.specs.Waiting.{applied_by, callbacks_of as those_of, held_by};

use crate::states::SurfaceNo;
use std::alloc::{AllocError, Allocator};

/// A callback that waits (wayland.xml, wl_surface.frame): its surface, and its id. The next commit
/// of the surface makes it held. It becomes applied when the surface is applied after that.
#[derive(Clone, Copy)]
pub(crate) struct Waiting {
    pub(crate) surface: SurfaceNo,
    pub(crate) callback: u32,
    pub(crate) is_held: bool,
    pub(crate) is_applied: bool,
}

impl Waiting {
    /// The request after a commit of the surface.
    fn held_by(self, surface: SurfaceNo) -> Waiting
        ensures { result ≡ held_by surface self }
    {
        Waiting {
            is_held: self.is_held || self.surface == surface,
            ..self
        }
    }

    /// The request after the surface is applied.
    fn applied_by(self, surface: SurfaceNo) -> Waiting
        ensures { result ≡ applied_by surface self }
    {
        Waiting {
            is_applied: if self.surface == surface {
                self.is_held
            } else {
                self.is_applied
            },
            ..self
        }
    }
}

/// Makes the surface's requests held, at its commit.
pub(crate) fn hold_all(frames: &mut [Waiting], surface: SurfaceNo)
    ensures { frames.new ≡ map (held_by surface) frames.old }
{
    for waiting in frames.iter_mut() {
        *waiting = waiting.held_by(surface);
    }
}

/// Makes the surface's held requests applied, as the surface is.
pub(crate) fn apply_all(frames: &mut [Waiting], surface: SurfaceNo)
    ensures { frames.new ≡ map (applied_by surface) frames.old }
{
    for waiting in frames.iter_mut() {
        *waiting = waiting.applied_by(surface);
    }
}

/// The callbacks of the surface, in the order of their requests.
pub(crate) fn callbacks_of<A: Allocator>(
    frames: &[Waiting],
    surface: SurfaceNo,
    alloc: A,
) -> Result<Vec<u32, A>, AllocError>
    ensures { IfOk result (λ callbacks. callbacks.items ≡ those_of surface frames.now) }
{
    let mut callbacks = Vec::new(alloc);
    for waiting in frames {
        if waiting.surface == surface {
            callbacks.push(waiting.callback)?;
        }
    }
    Ok(callbacks)
}

/// The place of the first request that is applied.
pub(crate) fn next_place(frames: &[Waiting]) -> Option<usize>
    ensures { result ≡ position (λ (w : Waiting). w.is_applied) frames.now }
{
    frames.iter().position(|waiting| waiting.is_applied)
}
