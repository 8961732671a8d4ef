//! Where the windows stacked with a toplevel stand among those of the output, and how others take
//! their place.

ghost use Rattle.std.specs.Prelude.{◌≡◌, ◌++◌, ◌+◌, ◌≤◌, IsOk, OnErr, OnOk, MatchOption, drop, false, find, length, map, option_copied, position, take};
ghost use Rattle.std.specs.List.{list_any};
ghost use Rattle.std.specs.Vec.{vec_capacity, vec_len};
ghost use Rattle.wl_scene.specs.Stacked.{AreTogether, IsRun, first_last, is_of, is_rooted, last_first, raised, replaced, run_of, stacked};

use crate::stacked::{Stacked, add_all, is_of_root, is_of_toplevel};
use crate::tree_window::TreeWindow;
use std::alloc::{AllocError, Allocator};
use wl_surface::SurfaceNo;

/// Windows that stand together: where they start, and how many they are.
#[derive(Clone, Copy, Debug)]
struct Run {
    start: usize,
    count: usize,
}

/// The place of the lowest window stacked with a toplevel.
fn position_of(all: &[Stacked], client: u32, toplevel: SurfaceNo) -> Option<usize>
    ensures { result ≡ position (λ s. is_of client toplevel s) all.now }
{
    all.iter()
        .position(|stacked| is_of_toplevel(stacked, client, toplevel))
}

/// How many windows are stacked with a toplevel.
fn count_of(all: &[Stacked], client: u32, toplevel: SurfaceNo) -> usize
    ensures { result ≡ length (run_of client toplevel all.now) }
{
    all.iter()
        .filter(|stacked| is_of_toplevel(stacked, client, toplevel))
        .count()
}

/// Where the windows stacked with a toplevel stand, if there are any.
fn find_run(all: &[Stacked], client: u32, toplevel: SurfaceNo) -> Option<Run>
    requires { AreTogether all.now }
    ensures { MatchOption result (list_any (is_of client toplevel) all.now ≡ false)
        (λ run. IsRun (is_of client toplevel) run.start run.count all.now) }
{
    let start = position_of(all, client, toplevel)?;
    let count = count_of(all, client, toplevel);
    Some(Run { start, count })
}

/// The windows stacked with a toplevel.
pub(crate) fn run_in(all: &[Stacked], client: u32, toplevel: SurfaceNo) -> &[Stacked]
    requires { AreTogether all.now }
    ensures { result.now ≡ run_of client toplevel all.now }
{
    match find_run(all, client, toplevel) {
        Some(run) => &all[run.start..run.start + run.count],
        None => &[],
    }
}

/// The lowest window of the tree of a root.
pub(crate) fn lowest_in(all: &[Stacked], client: u32, root: SurfaceNo) -> Option<&Stacked>
    ensures { option_copied result ≡ find (λ s. is_rooted client root s) all.now }
{
    all.iter().find(|stacked| is_of_root(stacked, client, root))
}

/// Puts the uppermost `count` windows below the others from `start` on.
fn put_below(all: &mut [Stacked], start: usize, count: usize)
    requires { start + count ≤ length all.old }
    ensures len { length all.new ≡ length all.old }
    ensures put { all.new ≡ take start all.old ++ last_first count (drop start all.old) }
{
    all[start..].rotate_right(count);
}

/// Takes the windows of a run out.
fn take_out<A: Allocator>(all: &mut Vec<Stacked, A>, run: Run)
    requires { run.start + run.count ≤ length all.old.items }
    ensures { all.new.items ≡ take run.start all.old.items ++ drop (run.start + run.count) all.old.items }
{
    all.drain(run.start..run.start + run.count);
}

/// Puts these windows in the place of those stacked with a toplevel. Nothing changes if it has
/// none.
///
/// # Errors
///
/// An `Err` means that memory ran out, and changes nothing.
pub(crate) fn replace_in<A: Allocator>(
    all: &mut Vec<Stacked, A>,
    client: u32,
    toplevel: SurfaceNo,
    windows: &[TreeWindow],
) -> Result<(), AllocError>
    requires { AreTogether all.old.items }
    ensures ok { OnOk result (all.new.items ≡ replaced client toplevel windows.now all.old.items) }
    ensures err { OnErr result (all.new.items ≡ all.old.items) }
    ensures together { AreTogether all.new.items }
    ensures succeeds { vec_len all.old + length windows.now ≤ vec_capacity all.old → IsOk result }
{
    let Some(run) = find_run(all, client, toplevel) else {
        return Ok(());
    };
    add_all(all, client, toplevel, windows)?;
    take_out(all, run);
    put_below(all, run.start, windows.len());
    Ok(())
}

/// Puts the `count` windows from `start` on above the others.
fn put_above(all: &mut [Stacked], start: usize, count: usize)
    requires { start + count ≤ length all.old }
    ensures len { length all.new ≡ length all.old }
    ensures put { all.new ≡ take start all.old ++ first_last count (drop start all.old) }
{
    all[start..].rotate_left(count);
}

/// Puts the windows stacked with a toplevel on top of the others. Nothing changes if there are
/// none.
pub(crate) fn raise_in(all: &mut [Stacked], client: u32, toplevel: SurfaceNo)
    requires { AreTogether all.old }
    ensures len { length all.new ≡ length all.old }
    ensures raised { all.new ≡ raised client toplevel all.old }
{
    let Some(run) = find_run(all, client, toplevel) else {
        return;
    };
    put_above(all, run.start, run.count);
}

/// Writes these windows, stacked with a toplevel, over those from `start` on.
fn write_over(
    all: &mut [Stacked],
    start: usize,
    client: u32,
    toplevel: SurfaceNo,
    windows: &[TreeWindow],
)
    requires { start + length windows.now ≤ length all.old }
    ensures len { length all.new ≡ length all.old }
    ensures written { all.new ≡ take start all.old ++ (map (stacked client toplevel) windows.now ++ drop (start + length windows.now) all.old) }
{
    for (k, window) in windows.iter().enumerate() {
        all[start + k] = Stacked {
            client,
            toplevel,
            window: *window,
        };
    }
}

/// Writes these windows over those stacked with a toplevel, one by one. Nothing changes unless
/// there are equally many.
pub(crate) fn move_in(all: &mut [Stacked], client: u32, toplevel: SurfaceNo, windows: &[TreeWindow])
    requires { AreTogether all.old }
    ensures len { length all.new ≡ length all.old }
    ensures together { AreTogether all.new }
    ensures moved { length windows.now ≡ length (run_of client toplevel all.old) → all.new ≡ replaced client toplevel windows.now all.old }
{
    let Some(run) = find_run(all, client, toplevel) else {
        return;
    };
    if windows.len() == run.count {
        write_over(all, run.start, client, toplevel, windows);
    }
}
