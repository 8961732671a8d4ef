//! What a viewer holds and is owed.

ghost use Rattle.std.specs.Prelude.{◌≡◌, ◌≤◌, ◌<◌, ◌&&◌, ◌||◌, ◌==◌, ◌++◌, ℕ, [], IfOk, OnErr, OnOk, Ok, None, true, false, drop, flat_map, length, map, pos, vec_len};
ghost use Rattle.wl_session.specs.Damage.{has};
ghost use Rattle.wl_session.specs.Run.{AllLieIn};
ghost use Rattle.wl_recording.specs.Text.{frame_line};
ghost use Rattle.wl_viewer.specs.Hearing.{granted, held_after, kept, may_be, may_hold, with_button, without_button};
ghost use Rattle.wl_viewer.specs.Telling.{Joins, piece_of, piece_text, update_of, update_text};

use crate::asked::{Asked, asked_of};
use crate::texts::{
    WindowLine, append_run, write_count, write_greeting, write_head, write_synced, write_window,
};
use arrayvec::ArrayVec;
use std::alloc::{AllocError, Allocator};
use std::marker::Model;
use wl_geom::Rect;
use wl_session::{Damage, Framebuffer, Run, runs_of};

/// How many bytes a viewer's line may have, with its line feed.
pub const LINE_LIMIT: usize = 64;

/// How many buttons a viewer may hold down.
pub const MOST_HELD: usize = 16;

/// A viewer of an output. It keeps what it wasn't told yet, the line that it began, and the buttons
/// that it holds down. It also keeps what it asked and wasn't answered, and the bytes that wait to
/// be sent to it.
#[derive(Drop)]
pub struct Viewer<A: Allocator> {
    width: u32,
    height: u32,
    /// The points whose pixels it wasn't told.
    untold: Damage<A>,
    /// The line that it began, without a line feed.
    line: ArrayVec<u8, 63>,
    /// The buttons that it pressed and didn't release.
    held: ArrayVec<u32, MOST_HELD>,
    /// Whether it sent a bad line.
    is_bad: bool,
    /// Whether it was told of a bad line, so nothing else is told.
    is_over: bool,
    /// The number of the sync that waits.
    sync: Option<u32>,
    /// Whether it asked for the windows.
    wants_windows: bool,
    out: Vec<u8, A>,
    /// How many bytes of `out` were sent.
    sent: usize,
    alloc: A,
}

impl<A: Allocator> Model for Viewer<A> {
    ghost use Rattle.std.specs.Prelude.{◌≡◌, ◌≤◌, drop, length};
    ghost use Rattle.wl_viewer.specs.View.{Heard, ViewerView};

    ghost Value = { ViewerView };

    ghost view = { λ v. record {
      heard = record { line = v.line.items; held = v.held.items; sync = v.sync; wants_windows = v.wants_windows; is_bad = v.is_bad };
      untold = v.untold;
      out = drop v.sent v.out.items;
      is_over = v.is_over;
    } };

    ghost invariant = { λ v. (v.untold.width ≡ v.width) × (v.untold.height ≡ v.height) × (v.sent ≤ length v.out.items) × (v.width ≤ 4096) × (v.height ≤ 4096) };
}

impl<A: Allocator + Copy> Viewer<A> {
    ghost use Rattle.wl_viewer.specs.Asked.{asked_by};
    ghost use Rattle.wl_viewer.specs.Hearing.{asked_after, heard_after, without_line};
    ghost use Rattle.std.specs.Prelude.{Option};
    ghost use Rattle.wl_viewer.specs.Telling.{IsTold, Update, answered, count_line, ended, greeting, is_as_large, is_done, is_free, sync_text, told_windows, window_line};
    ghost use Rattle.wl_viewer.specs.View.{Heard};

    /// A viewer of an output with these sides in pixels, which wasn't told anything yet: its
    /// greeting waits for it, and all points are untold.
    pub fn new(alloc: A, width: u32, height: u32) -> Result<Viewer<A>, AllocError>
        requires wide { width ≤ 4096 }
        requires high { height ≤ 4096 }
        ensures heard { IfOk result (λ v. v.heard ≡ record { line = []; held = []; sync = None; wants_windows = false; is_bad = false }) }
        ensures untold { IfOk result (λ v. (x y : ℕ) → x < width → y < height → has v.untold x y ≡ true) }
        ensures width { IfOk result (λ v. v.untold.width ≡ width) }
        ensures height { IfOk result (λ v. v.untold.height ≡ height) }
        ensures out { IfOk result (λ v. v.out ≡ greeting width height) }
        ensures fresh { IfOk result (λ v. v.is_over ≡ false) }
    {
        let mut untold = Damage::new(alloc, width, height)?;
        untold.add(untold.bounds());
        let mut out = Vec::new(alloc);
        if write_greeting(width, height, &mut out).is_err() {
            return Err(AllocError);
        }
        Ok(Viewer {
            width,
            height,
            untold,
            line: ArrayVec::new(),
            held: ArrayVec::new(),
            is_bad: false,
            is_over: false,
            sync: None,
            wants_windows: false,
            out,
            sent: 0,
            alloc,
        })
    }

    /// Takes a byte that the viewer sent. A byte that ends a line asks what the line asks; any
    /// other asks nothing. A line is bad without a line feed among its first 64 bytes. After a bad
    /// line nothing is taken.
    pub fn take(&mut self, byte: u8) -> Asked
        ensures asked { result ≡ asked_after self.old.heard byte }
        ensures heard { self.new ≡ record self.old { heard = heard_after self.old.heard byte } }
    {
        if self.is_bad {
            return Asked::Nothing;
        }
        if byte == b'\n' {
            let asked = self.end_line();
            return self.hear(asked);
        }
        match self.line.try_push(byte) {
            Ok(()) => Asked::Nothing,
            Err(_) => self.hear(Asked::Bad),
        }
    }

    /// Ends the line that was begun, and answers what it asks.
    fn end_line(&mut self) -> Asked
        ensures asked { result ≡ asked_by self.old.heard.line }
        ensures heard { self.new ≡ record self.old { heard = without_line self.old.heard } }
    {
        let asked = asked_of(&self.line);
        self.line.clear();
        asked
    }

    /// Keeps what is asked, and answers it. A press asks nothing if 16 buttons are held.
    fn hear(&mut self, asked: Asked) -> Asked
        ensures asked { result ≡ granted asked self.old.heard }
        ensures heard { self.new ≡ record self.old { heard = kept asked self.old.heard } }
    {
        match asked {
            Asked::Motion { .. } | Asked::Nothing => {}
            Asked::Button { code, pressed } => {
                if !hold(&mut self.held, code, pressed) {
                    return Asked::Nothing;
                }
            }
            Asked::Sync { number } => self.sync = Some(number),
            Asked::Windows => self.wants_windows = true,
            Asked::Bad => self.is_bad = true,
        }
        asked
    }

    /// The buttons that the viewer pressed and didn't release.
    pub fn held(&self) -> &[u32]
        ensures { result.now ≡ self.now.heard.held }
    {
        &self.held
    }

    /// Whether the viewer sent a bad line.
    pub fn is_bad(&self) -> bool
        ensures { result ≡ self.now.heard.is_bad }
    {
        self.is_bad
    }

    /// Whether the viewer was told that a line was bad, and nothing waits to be sent any more.
    pub fn is_done(&self) -> bool
        ensures { result ≡ is_done self.now }
    {
        self.is_over && self.out().is_empty()
    }

    /// Whether the viewer asked for the windows, and wasn't told them yet.
    pub fn wants_windows(&self) -> bool
        ensures { result ≡ self.now.heard.wants_windows }
    {
        self.wants_windows
    }

    /// Whether the viewer's output is as large as this frame and its damage.
    pub fn is_as_large(&self, frame: &Framebuffer<A>, damage: &Damage<A>) -> bool
        ensures { result ≡ is_as_large self.now.untold damage.now frame.now }
    {
        let bounds = damage.bounds();
        frame.width() == self.width
            && frame.height() == self.height
            && bounds.w as u32 == self.width
            && bounds.h as u32 == self.height
    }

    /// A frame was shown with this damage: its points are untold too.
    pub fn changed(&mut self, damage: &Damage<A>)
        requires wide { damage.now.width ≡ self.old.untold.width }
        requires high { damage.now.height ≡ self.old.untold.height }
        ensures joins { Joins self.old.untold damage.now self.new.untold }
        ensures heard { self.new.heard ≡ self.old.heard }
        ensures out { self.new.out ≡ self.old.out }
        ensures is_over { self.new.is_over ≡ self.old.is_over }
    {
        join(&mut self.untold, damage, self.height);
    }

    /// Makes one update of all that is untold, if anything is, in the pixels of this frame. The
    /// answer is false, and nothing changes, if something waits to be sent or a bad line was told
    /// of. If it is true, all is told.
    ///
    /// Out of memory, a part of the update may wait.
    pub fn update(&mut self, frame: &Framebuffer<A>, time: u32) -> Result<bool, AllocError>
        requires wide { self.old.untold.width ≡ frame.now.width }
        requires high { self.old.untold.height ≡ frame.now.height }
        ensures free { IfOk result (λ is_told. is_told ≡ is_free self.old) }
        ensures kept { result ≡ Ok false → self.new ≡ self.old }
        ensures refused { OnErr result (is_free self.old ≡ true) }
        ensures told { result ≡ Ok true → (update : Option Update) × IsTold frame.now time update self.old self.new }
        ensures heard { self.new.heard ≡ self.old.heard }
    {
        if self.is_over || !self.out().is_empty() {
            return Ok(false);
        }
        self.out.clear();
        self.sent = 0;
        if self.untold.count() > 0 {
            let runs = runs_of(self.alloc, &self.untold, self.height)?;
            append_update(&mut self.out, &runs, frame, time)?;
            self.untold.clear();
        }
        Ok(true)
    }

    /// Answers the last sync that waits, if one does, at this time.
    pub fn answer_sync(&mut self, time: u32) -> Result<(), AllocError>
        ensures told { OnOk result (self.new ≡ record self.old { heard = answered self.old.heard; out = self.old.out ++ sync_text self.old.heard.sync time }) }
        ensures held { self.new.heard.held ≡ self.old.heard.held }
    {
        let Some(number) = self.sync else {
            return Ok(());
        };
        self.sync = None;
        if write_synced(number, time, &mut self.out).is_err() {
            self.out.clear();
            self.sent = 0;
            return Err(AllocError);
        }
        Ok(())
    }

    /// Tells how many windows are shown. Each of them is told next.
    pub fn tell_windows(&mut self, count: usize) -> Result<(), AllocError>
        ensures told { OnOk result (self.new ≡ record self.old { heard = told_windows self.old.heard; out = self.old.out ++ count_line count }) }
        ensures held { self.new.heard.held ≡ self.old.heard.held }
    {
        self.wants_windows = false;
        if write_count(count, &mut self.out).is_err() {
            self.out.clear();
            self.sent = 0;
            return Err(AllocError);
        }
        Ok(())
    }

    /// Tells of a window.
    pub fn tell_window(&mut self, line: &WindowLine) -> Result<(), AllocError>
        ensures told { OnOk result (self.new ≡ record self.old { out = self.old.out ++ window_line line.now }) }
        ensures held { self.new.heard.held ≡ self.old.heard.held }
    {
        if write_window(line, &mut self.out).is_err() {
            self.out.clear();
            self.sent = 0;
            return Err(AllocError);
        }
        Ok(())
    }

    /// Tells that a line was bad, if one was; then nothing else is told.
    pub fn tell_bad(&mut self) -> Result<(), AllocError>
        ensures told { OnOk result (self.new ≡ ended self.old) }
        ensures held { self.new.heard.held ≡ self.old.heard.held }
    {
        if !self.is_bad || self.is_over {
            return Ok(());
        }
        self.is_over = true;
        self.out.extend_from_slice(b"bad line\n")
    }

    /// The bytes that wait to be sent.
    pub fn out(&self) -> &[u8]
        ensures { result.now ≡ self.now.out }
    {
        &self.out[self.sent..]
    }

    /// Drops this many of the bytes that wait, which were sent.
    pub fn sent(&mut self, count: usize)
        requires { count ≤ length self.old.out }
        ensures { self.new ≡ record self.old { out = drop count self.old.out } }
    {
        self.sent += count;
    }
}

/// Keeps whether a button is held. The answer is false if it can't be.
fn hold(held: &mut ArrayVec<u32, MOST_HELD>, code: u32, pressed: bool) -> bool
    ensures granted { result ≡ may_be pressed code held.old.items }
    ensures held { held.new.items ≡ held_after pressed code held.old.items }
{
    if pressed {
        press(held, code)
    } else {
        release(held, code);
        true
    }
}

fn press(held: &mut ArrayVec<u32, MOST_HELD>, code: u32) -> bool
    ensures granted { result ≡ may_hold code held.old.items }
    ensures held { held.new.items ≡ with_button code held.old.items }
{
    if held.contains(&code) {
        return true;
    }
    if held.len() < MOST_HELD {
        held.push(code);
        return true;
    }
    false
}

fn release(held: &mut ArrayVec<u32, MOST_HELD>, code: u32)
    ensures { held.new.items ≡ without_button code held.old.items }
{
    held.retain(|other| *other != code);
}

/// Adds the points of `damage` to `untold`; both have this height.
fn join<A: Allocator>(untold: &mut Damage<A>, damage: &Damage<A>, height: u32)
    requires wide { damage.now.width ≡ untold.old.width }
    requires high { damage.now.height ≡ untold.old.height }
    requires height { height ≡ untold.old.height }
    requires narrow { damage.now.width ≤ 4096 }
    requires low { height ≤ 4096 }
    ensures { Joins untold.old damage.now untold.new }
{
    for y in 0..height {
        join_row(untold, damage, y);
    }
}

/// Adds the points of row `y` of `damage` to `untold`.
fn join_row<A: Allocator>(untold: &mut Damage<A>, damage: &Damage<A>, y: u32)
    requires row { y < damage.now.height }
    requires narrow { damage.now.width ≤ 4096 }
    requires low { y ≤ 4096 }
    requires wide { damage.now.width ≡ untold.old.width }
    requires high { damage.now.height ≡ untold.old.height }
    ensures points { (x z : ℕ) → x < untold.old.width → z < untold.old.height → has untold.new x z ≡ (has untold.old x z || ((z == y) && has damage.now x z)) }
    ensures width { untold.new.width ≡ untold.old.width }
    ensures height { untold.new.height ≡ untold.old.height }
{
    let mut from = 0;
    while let Some((x, w)) = damage.next_run(y, from) {
        untold.add(rect_of(x, y, w));
        from = x + w;
    }
}

/// The points of row `y` from column `x` on, `w` of them.
fn rect_of(x: u32, y: u32, w: u32) -> Rect
    requires column { x ≤ 4096 }
    requires row { y ≤ 4096 }
    requires width { w ≤ 4096 }
    ensures { result ≡ record { x = pos x; y = pos y; w = pos w; h = pos 1 } }
{
    Rect {
        x: x as i32,
        y: y as i32,
        w: w as i32,
        h: 1,
    }
}

/// Appends an update of these runs, in the pixels of this frame.
fn append_update<A: Allocator>(
    out: &mut Vec<u8, A>,
    runs: &[Run],
    frame: &Framebuffer<A>,
    time: u32,
) -> Result<(), AllocError>
    requires within { AllLieIn frame.now.width frame.now.height runs.now }
    ensures { OnOk result (out.new.items ≡ out.old.items ++ update_text (update_of frame.now time runs.now)) }
{
    append_head(out, time, runs.len())?;
    append_runs(out, runs, frame)?;
    Ok(())
}

/// Appends the line that announces an update of this many runs.
fn append_head<A: Allocator>(
    out: &mut Vec<u8, A>,
    time: u32,
    count: usize,
) -> Result<(), AllocError>
    ensures { OnOk result (out.new.items ≡ out.old.items ++ frame_line time count) }
{
    match write_head(time, count, out) {
        Ok(()) => Ok(()),
        Err(_) => Err(AllocError),
    }
}

/// Appends these runs, in the pixels of this frame.
fn append_runs<A: Allocator>(
    out: &mut Vec<u8, A>,
    runs: &[Run],
    frame: &Framebuffer<A>,
) -> Result<(), AllocError>
    requires { AllLieIn frame.now.width frame.now.height runs.now }
    ensures { OnOk result (out.new.items ≡ out.old.items ++ flat_map piece_text (map (piece_of frame.now) runs.now)) }
{
    for run in runs {
        append_run(out, run, frame)?;
    }
    Ok(())
}
