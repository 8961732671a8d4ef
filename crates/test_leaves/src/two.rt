ghost use Rattle.std.specs.Prelude.{◌≡◌, pos};
ghost use Rattle.wl_paint.specs.Painting.{window_of};
ghost use Rattle.wl_store.specs.Stores.{picture_of};
ghost use Rattle.std.specs.Option.{option_map};
ghost use Rattle.test_leaves.specs.Two.{window_at};

use std::alloc::Allocator;
use wl_geom::Region;
use wl_paint::{Painted, Windows};
use wl_store::{Layout, Stores};

/// Two windows of one store, if both layouts end within it: one at (0, 0), and one at (1, 0) above
/// it.
#[derive(Drop)]
pub struct Two<'a, A: Allocator> {
    pub stores: &'a Stores<A>,
    pub store: u32,
    pub lower: Layout,
    pub upper: Layout,
    pub opaque: &'a Region<A>,
}

fn lend<'a, A: Allocator>(
    stores: &'a Stores<A>,
    store: u32,
    layout: &Layout,
    x: i32,
    opaque: &'a Region<A>,
) -> Option<Painted<'a, A>>
    ensures { option_map window_of result ≡ option_map (window_at x (pos 0) opaque.now) (picture_of store layout.now 0 1 stores.now) }
{
    let picture = stores.picture(store, layout, 0, 1)?;
    Some(Painted {
        x,
        y: 0,
        picture,
        opaque,
    })
}

impl<'a, A: Allocator> Windows for Two<'a, A> {
    type Heap = A;

    ghost use Rattle.std.specs.Prelude.{pos};
    ghost use Rattle.std.specs.Option.{option_map};
    ghost use Rattle.wl_store.specs.Stores.{picture_of};
    ghost use Rattle.test_leaves.specs.Two.{pair_of, window_at};

    ghost windows = { λ t. pair_of
        (option_map (window_at (pos 0) (pos 0) t.opaque.now) (picture_of t.store t.lower 0 1 t.stores.now))
        (option_map (window_at (pos 1) (pos 0) t.opaque.now) (picture_of t.store t.upper 0 1 t.stores.now)) };

    fn len(&self) -> usize {
        let lower = lend(self.stores, self.store, &self.lower, 0, self.opaque);
        let upper = lend(self.stores, self.store, &self.upper, 1, self.opaque);
        if lower.is_some() && upper.is_some() {
            2
        } else {
            0
        }
    }

    fn window(&self, k: usize) -> Painted<'_, A> {
        let lower = lend(self.stores, self.store, &self.lower, 0, self.opaque);
        let upper = lend(self.stores, self.store, &self.upper, 1, self.opaque);
        match (lower, upper) {
            (Some(lower), Some(upper)) => { if k == 0 { lower } else { upper } }
            _ => unreachable!(),
        }
    }
}
