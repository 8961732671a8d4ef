//! The viewer's place.

ghost use Rattle.std.specs.Prelude.{◌≡◌, ◌≤◌, None};

use std::alloc::Allocator;
use std::marker::Model;
use wl_viewer::Viewer;

/// A viewer, with its connection.
#[derive(Drop)]
pub struct Watcher<A: Allocator, C: Drop> {
    /// The hub's connection.
    pub conn: C,
    pub viewer: Viewer<A>,
    /// Whether it was told all that changed up to the last frame, so what it asked is to be
    /// answered.
    pub is_told: bool,
    /// Whether its connection failed or ended, or memory for it was refused.
    pub has_failed: bool,
}

impl<A: Allocator, C: Drop> Model for Watcher<A, C> {
    ghost use Rattle.wl_server.specs.Watching.{Watching};

    ghost Value = { Watching C };

    ghost view = { λ w. record { conn = w.conn; viewer = w.viewer; is_told = w.is_told; has_failed = w.has_failed } };
}

/// The place of a viewer: what gives its connections, and who has it, if anybody has.
#[derive(Drop)]
pub struct Viewing<A: Allocator, V, C: Drop> {
    /// Where the memory of a viewer comes from.
    pub alloc: A,
    /// The width of the output, in pixels.
    pub width: u32,
    /// The height of the output, in pixels.
    pub height: u32,
    /// What gives the connections, and moves their bytes.
    pub hub: V,
    /// Who has the place.
    pub watcher: Option<Watcher<A, C>>,
    ghost wide: { width ≤ 4096 },
    ghost high: { height ≤ 4096 },
}

impl<A: Allocator, V, C: Drop> Viewing<A, V, C> {
    /// Nobody has the place. The sides of the output are in pixels. It takes no memory.
    pub fn new(alloc: A, width: u32, height: u32, hub: V) -> Viewing<A, V, C>
        requires wide { width ≤ 4096 }
        requires high { height ≤ 4096 }
        ensures hub { result.hub ≡ hub }
        ensures watcher { result.watcher ≡ None }
        ensures width { result.width ≡ width }
        ensures height { result.height ≡ height }
    {
        Viewing {
            alloc,
            width,
            height,
            hub,
            watcher: None,
        }
    }
}
