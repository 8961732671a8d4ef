//! The checks that each message has to pass before its own errors are looked at.

ghost use Rattle.std.specs.Prelude.{◌≡◌, ◌==◌, ℕ, length, is_some, Ok, Err, Result, map};
ghost use Rattle.std.specs.List.{list_all};
ghost use Rattle.std.specs.Prelude.{flat_map, option_to_list};
ghost use Rattle.spec_desktop.specs.Objects.{Object, fits, interface_number, is_of, object_of, objects_in};
ghost use Rattle.spec_desktop.specs.Judgement.{after_new_id, is_free};

use spec_desktop::{ErrorCode, Refusal};
use std::alloc::Allocator;
use wl_proto::{Interface, NewId, ObjectArg};
use wl_table::{MAX_ID, MAX_OBJECTS, Objects};

fn number_of(interface: Interface) -> u8
    ensures { result ≡ interface_number interface }
{
    interface as u8
}

/// Whether an argument names a live object of its interface, or is null and may be.
fn is_fit<A: Allocator>(objects: &Objects<A>, arg: ObjectArg) -> bool
    ensures { result ≡ fits (objects_in objects.now) arg }
{
    if arg.id == 0 {
        return arg.nullable;
    }
    match objects.get(arg.id) {
        None => false,
        Some(entry) => number_of(entry.interface) == number_of(arg.interface),
    }
}

fn is_fit_or_absent<A: Allocator>(objects: &Objects<A>, arg: Option<ObjectArg>) -> bool
    ensures { result ≡ list_all (fits (objects_in objects.now)) (option_to_list arg) }
{
    match arg {
        None => true,
        Some(arg) => is_fit(objects, arg),
    }
}

pub(crate) fn are_fit<A: Allocator>(objects: &Objects<A>, args: [Option<ObjectArg>; 2]) -> bool
    ensures { result ≡ list_all (fits (objects_in objects.now)) (flat_map option_to_list args) }
{
    is_fit_or_absent(objects, args[0]) && is_fit_or_absent(objects, args[1])
}

/// Whether a new object may have this id.
fn is_free_id<A: Allocator>(objects: &Objects<A>, id: u32) -> bool
    ensures { result ≡ is_free (objects_in objects.now) id }
{
    1 <= id && id <= MAX_ID && objects.get(id).is_none()
}

/// Whether a new id is free, and there is room for another object.
pub(crate) fn check_new_id<A: Allocator, X: Drop>(
    objects: &Objects<A>,
    new_id: Option<NewId>,
    action: Result<X, Refusal>,
) -> Result<X, Refusal>
    ensures { result ≡ after_new_id (objects_in objects.now) (length objects.now) new_id action }
{
    let Some(new) = new_id else {
        return action;
    };
    if !is_free_id(objects, new.id) {
        return Err(Refusal::of_display(ErrorCode::InvalidObject));
    }
    if objects.len() >= MAX_OBJECTS {
        return Err(Refusal::of_display(ErrorCode::Implementation));
    }
    action
}
