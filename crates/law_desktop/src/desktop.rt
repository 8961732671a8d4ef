//! The main laws of the plain desktop. What happens is determined, and a client's stream may be cut
//! anywhere. Other clients are left alone, and desktops stay sound. What isn't marked is painted as
//! before. Each law is a function that does nothing and promises it.

ghost use Rattle.law_desktop.specs.AnyPieces.{AnyPieces};
ghost use Rattle.law_desktop.specs.Focus.{ActsAreFew, FocusIsSettled, SettlingShowsNothing};
ghost use Rattle.law_desktop.specs.Happenings.{HappeningsAreSound, MarkedThrough, PieceIsMessages};
ghost use Rattle.law_desktop.specs.Laws.{LeastIsMost, ScratchStays, WindowsAreDistinct};
ghost use Rattle.law_desktop.specs.Soundness.{EmptyIsSound, RunIsSound, SoundIsDistinct};
ghost use Rattle.law_desktop.specs.Through.{HappensLeadsThrough, MessagesLeadThrough};
ghost use Rattle.law_desktop.specs.RunLaws.{EndsStay, MayHappen, OneRun, OnlyRun};
ghost use Rattle.law_desktop.specs.Others.{RefusedAlone, OthersAreLeftAlone};
ghost use Rattle.law_desktop.specs.Own.{OwnStays};

/// All that a step marks at least is among what it marks at most.
pub fn least_is_most()
    ensures { LeastIsMost }
{}

/// If no toplevel stands twice and no surface is linked to another, no surface has two windows.
pub fn windows_are_distinct()
    ensures { WindowsAreDistinct }
{}

/// If the toplevels, popups and subsurfaces of a desktop make trees, each surface in one place of
/// one of them, no surface has two windows.
pub fn sound_is_distinct()
    ensures { SoundIsDistinct }
{}

/// The toplevels, popups and subsurfaces of a desktop without clients make trees.
pub fn empty_is_sound()
    ensures { EmptyIsSound }
{}

/// They still do, whatever happens from there on.
pub fn run_is_sound()
    ensures { RunIsSound }
{}

/// A point that a step doesn't mark is painted from nothing as before. For this, windows that keep
/// their records have to show the same colours outside the damage that was applied. It holds
/// whichever windows are shown.
pub fn scratch_stays()
    ensures { ScratchStays }
{}

/// A step of a client leaves every other client as it was, except for what that is told of the
/// pointer's focus.
pub fn others_are_left_alone()
    ensures { OthersAreLeftAlone }
{}

/// A message that is refused ends its client with that error, is the last that is taken of that
/// client, and leaves every other client alone.
pub fn refused_alone()
    ensures { RefusedAlone }
{}

/// Whatever else happens leaves a client what it has, or ends it for an event that wasn't queued.
/// That covers all but the client's own steps: a tick and what the pointer does too.
pub fn own_stays()
    ensures { OwnStays }
{}

/// Whatever is asked of a desktop may happen, with some answer. If there is memory, a function says
/// so.
pub fn may_happen()
    ensures { MayHappen }
{}

/// What happens is determined, and its answer too, unless memory runs out.
pub fn one_run()
    ensures { OneRun }
{}

/// A list of acts has at most one run that doesn't run out of memory, with its answers.
pub fn only_run()
    ensures { OnlyRun }
{}

/// A client's stream may be cut into any pieces: two pieces lead to where they lead as one.
pub fn any_pieces()
    ensures { AnyPieces }
{}

/// A client that ended stays so, for the same cause, until its number is given back.
pub fn ends_stay()
    ensures { EndsStay }
{}

/// A message leads to the same desktop by way of its own change, of each end, and of each settling
/// of the focus. All desktops on this way are there.
pub fn messages_lead_through()
    ensures { MessagesLeadThrough }
{}

/// Whatever else happens leads to the same desktop in that way. Only a piece is left out: it is the
/// messages that it completes.
pub fn happens_leads_through()
    ensures { HappensLeadsThrough }
{}

/// A piece of a client's stream is its bytes as they come, and then the messages that they
/// complete, one after another.
pub fn piece_is_messages()
    ensures { PieceIsMessages }
{}

/// No surface ever has two windows, whatever happens from a desktop without clients on, one message
/// at a time. That holds of each desktop on the way too: of its own change, and of each end and
/// each settling of the focus.
pub fn happenings_are_sound()
    ensures { HappeningsAreSound }
{}

/// All that is marked from the first to the last of a step's desktops is also marked through those
/// on the way.
pub fn marked_through()
    ensures { MarkedThrough }
{}

/// Whatever happens leaves the pointer's focus settled (wayland.xml, wl_pointer.enter and leave).
/// The focus is what the pointer hits, or while a button is down what had it before, while that is
/// shown. There are at most 32 clients, so 33 settlings are enough.
pub fn focus_is_settled()
    ensures { FocusIsSettled }
{}

/// Settling the focus changes no window and no toplevel that stands.
pub fn settling_shows_nothing()
    ensures { SettlingShowsNothing }
{}

/// Whatever comes in to the pointer, it does at most three things.
pub fn acts_are_few()
    ensures { ActsAreFew }
{}
