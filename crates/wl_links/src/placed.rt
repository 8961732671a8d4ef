//! Who stands in the stack of a surface, and where.

ghost use Rattle.std.specs.Prelude.{◌≡◌, find, pos, position};
ghost use Rattle.wl_links.specs.Stacks.{is_of, moved, moved_place};

use crate::trees::SurfaceNo;

/// Who stands in the stack of a surface.
#[derive(Clone, Copy, Debug, PartialEq, Eq)]
pub enum Member {
    /// The surface itself.
    Itself,
    /// A child of the surface, by its number.
    Child(SurfaceNo),
}

/// On which side of a member another one comes.
#[derive(Clone, Copy, Debug, PartialEq, Eq)]
pub enum Side {
    /// Right above it.
    Above,
    /// Right below it.
    Below,
}

/// Who stands in the stack of a surface, and where its upper left corner is, in pixels right and
/// down from the surface's.
#[derive(Clone, Copy, Debug, PartialEq, Eq)]
pub struct Placed {
    pub member: Member,
    pub x: i32,
    pub y: i32,
}

/// Whether this is the place of a member.
pub(crate) fn is_place_of(place: &Placed, member: Member) -> bool
    ensures { result ≡ is_of member place.now }
{
    match (member, place.member) {
        (Member::Itself, Member::Itself) => true,
        (Member::Child(child), Member::Child(other)) => child == other,
        _ => false,
    }
}

/// The place of a member.
pub(crate) fn place_of(places: &[Placed], member: Member) -> Option<Placed>
    ensures { result ≡ find (is_of member) places.now }
{
    places
        .iter()
        .copied()
        .find(|place| is_place_of(place, member))
}

/// Where the place of a member stands, counted from below.
pub(crate) fn index_of(places: &[Placed], member: Member) -> Option<usize>
    ensures { result ≡ position (is_of member) places.now }
{
    places.iter().position(|place| is_place_of(place, member))
}

impl Placed {
    /// A member at (0, 0).
    pub(crate) fn at_corner(member: Member) -> Placed
        ensures { result ≡ record { member = member; x = pos 0; y = pos 0 } }
    {
        Placed { member, x: 0, y: 0 }
    }

    /// The place of a child that is moved; that of anyone else stays as it is.
    fn moved(self, child: SurfaceNo, x: i32, y: i32) -> Placed
        ensures { result ≡ moved_place child x y self }
    {
        if is_place_of(&self, Member::Child(child)) {
            Placed { x, y, ..self }
        } else {
            self
        }
    }
}

/// A child is moved.
pub(crate) fn move_child(places: &mut [Placed], child: SurfaceNo, x: i32, y: i32)
    ensures { places.new ≡ moved child x y places.old }
{
    for place in places.iter_mut() {
        *place = place.moved(child, x, y);
    }
}
