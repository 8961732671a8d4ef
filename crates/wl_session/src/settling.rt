//! The ends of a step: a client that can't be told ends, and the pointer's focus is settled again.

ghost use Rattle.std.specs.Prelude.{◌≡◌, ℕ, ◌≤◌, length};
ghost use Rattle.wl_scene.specs.Marking.{IsAsLarge};
ghost use Rattle.wl_desk.specs.Feeding.{rest_in};
ghost use Rattle.wl_desk.specs.Ways.{EndsAllFrom, EndsFrom, SettlesFrom};

use std::alloc::Allocator;
use wl_desk::{Desk, MAX_CLIENTS};

/// How often the focus may have to be settled in a step: each time but the last ends a client.
const SETTLINGS: usize = MAX_CLIENTS + 1;

/// Ends the clients that can't be told of a step's own change, the least number first. Only their
/// windows are marked.
pub(crate) fn end_each<A: Allocator + Copy>(desk: &mut Desk<A>)
    ensures ends { EndsAllFrom desk.old desk.new }
    ensures sides { IsAsLarge desk.old.damage desk.new.damage }
    ensures rests { (c : ℕ) → length (rest_in c desk.new.desk.kept) ≤ length (rest_in c desk.old.desk.kept) }
    ensures output { desk.new.desk.kept.output ≡ desk.old.desk.kept.output }
{
    for _ in 0..SETTLINGS {
        let Some(client) = desk.struck() else {
            return;
        };
        desk.end_struck(client);
    }
}

/// Settles the focus, and ends the client with the least number that can't be told of it, again and
/// again, until nobody is to end. Only the windows of clients that end are marked.
pub(crate) fn settle_all<A: Allocator + Copy>(desk: &mut Desk<A>)
    ensures settles { SettlesFrom desk.old desk.new }
    ensures sides { IsAsLarge desk.old.damage desk.new.damage }
    ensures rests { (c : ℕ) → length (rest_in c desk.new.desk.kept) ≤ length (rest_in c desk.old.desk.kept) }
    ensures output { desk.new.desk.kept.output ≡ desk.old.desk.kept.output }
{
    for _ in 0..SETTLINGS {
        desk.settle();
        let Some(client) = desk.struck() else {
            return;
        };
        desk.end_struck(client);
    }
}

/// The same if the focus is settled already: nothing is done unless a client is to end.
pub(crate) fn end_all<A: Allocator + Copy>(desk: &mut Desk<A>)
    ensures ends { EndsFrom desk.old desk.new }
    ensures sides { IsAsLarge desk.old.damage desk.new.damage }
    ensures rests { (c : ℕ) → length (rest_in c desk.new.desk.kept) ≤ length (rest_in c desk.old.desk.kept) }
    ensures output { desk.new.desk.kept.output ≡ desk.old.desk.kept.output }
{
    let Some(_) = desk.struck() else {
        return;
    };
    settle_all(desk);
}
