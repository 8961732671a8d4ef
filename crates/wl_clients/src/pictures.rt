//! One window of the output, lent to be painted.

ghost use Rattle.std.specs.Prelude.{◌≡◌, None, option_copied};
ghost use Rattle.std.specs.Option.{option_map};
ghost use Rattle.wl_surface.specs.Kept.{counting_of};
ghost use Rattle.wl_surface.specs.Slots.{kept_at};
ghost use Rattle.wl_paint.specs.Painting.{window_of};
ghost use Rattle.wl_clients.specs.LentPictures.{picture_shown, window_kept, window_showing};
ghost use Rattle.wl_scene.specs.Hit.{slots_or_none};

use std::alloc::Allocator;
use wl_client::Client;
use wl_geom::Region;
use wl_paint::Painted;
use wl_scene::{Stacked, TreeWindow, current_of};
use wl_store::{Picture, Scale, Transform};
use wl_surface::{Attached, SurfaceStates};

/// The picture of a buffer, if it can be shown.
fn picture_of<'a, A: Allocator + Copy>(
    client: Option<&'a Client<A>>,
    transform: Transform,
    scale: Scale,
    buffer: &Option<Attached>,
) -> Option<Picture<'a>>
    ensures { result ≡ picture_shown (option_copied client.entry) transform scale.number buffer.now }
{
    let Some(client) = client else {
        return None;
    };
    match buffer {
        Some(attached) => client.picture(attached.store, &attached.layout, transform, scale),
        None => None,
    }
}

/// A window with nothing to see: one transparent pixel at its corner, and nothing said to be
/// opaque.
fn unseen<'a, A: Allocator>(window: &TreeWindow, nowhere: &'a Region<A>) -> Painted<'a, A>
    ensures { window_of result ≡ window_showing nowhere.now window.now nowhere.now None }
{
    Painted {
        x: window.x,
        y: window.y,
        picture: Picture::transparent(),
        opaque: nowhere,
    }
}

/// Lends a window of the output, by its client and the client's surfaces, at its corner. It is the
/// picture of its surface's buffer, turned and scaled, with its applied opaque region (wayland.xml,
/// wl_surface.attach, set_buffer_transform, set_buffer_scale and set_opaque_region).
///
/// If the client or the surface isn't there, or the buffer can't be shown, it is one transparent
/// pixel, with the region `nowhere`.
pub fn lend<'a, A: Allocator + Copy>(
    stacked: &Stacked,
    client: Option<&'a Client<A>>,
    surfaces: Option<&'a SurfaceStates<A>>,
    nowhere: &'a Region<A>,
) -> Painted<'a, A>
    ensures { window_of result ≡ window_kept (option_copied client.entry) nowhere.now stacked.now.window
        (option_map counting_of (kept_at (slots_or_none (option_copied surfaces.entry)) stacked.now.window.surface)) }
{
    let window = &stacked.window;
    let Some(current) = current_of(surfaces, window.surface) else {
        return unseen(window, nowhere);
    };
    match picture_of(client, current.transform, current.scale, &current.buffer) {
        Some(picture) => Painted {
            x: window.x,
            y: window.y,
            picture,
            opaque: current.opaque,
        },
        None => unseen(window, nowhere),
    }
}
