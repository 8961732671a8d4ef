ghost use Rattle.std.specs.Prelude.{◌≡◌};
ghost use Rattle.wl_store.specs.Stores.{picture_turned};

use std::alloc::Allocator;
use wl_geom::Region;
use wl_paint::{Painted, Windows};
use wl_store::{Layout, Picture, Scale, StoreNo, Stores, Transform};

/// A window at the top left corner of the output, if its store lends its picture.
#[derive(Drop)]
pub(crate) struct One<'a, A: Allocator> {
    pub stores: &'a Stores<A>,
    pub store: StoreNo,
    pub layout: Layout,
    pub transform: Transform,
    pub scale: Scale,
    pub opaque: &'a Region<A>,
}

impl<'a, A: Allocator> One<'a, A> {
    fn picture(&self) -> Option<Picture<'_>>
        ensures { result ≡ picture_turned self.now.store self.now.layout self.now.transform self.now.scale.number self.now.stores.now }
    {
        self.stores
            .picture_turned(self.store, &self.layout, self.transform, self.scale)
    }
}

impl<'a, A: Allocator> Windows for One<'a, A> {
    type Heap = A;

    ghost use Rattle.wl_store.specs.Stores.{picture_turned};
    ghost use Rattle.bench_paint.specs.One.{window_of_picture};

    ghost windows = { λ one. window_of_picture one.opaque.now
        (picture_turned one.store one.layout one.transform one.scale.number one.stores.now) };

    fn len(&self) -> usize {
        match self.picture() {
            Some(_) => 1,
            None => 0,
        }
    }

    fn window(&self, _k: usize) -> Painted<'_, A> {
        match self.picture() {
            Some(picture) => Painted {
                x: 0,
                y: 0,
                picture,
                opaque: self.opaque,
            },
            None => unreachable!(),
        }
    }
}
