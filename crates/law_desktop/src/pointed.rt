//! The pointer apart. A step of the desktop does what it does while nobody has pointed; then the
//! pointer is put back, and its focus settled. Ends follow, round by round. Other laws say which
//! wl_pointers clients have. Each function does nothing and promises one law.

ghost use Rattle.law_desktop.specs.Pointed.Acting.{GoesAlong, MotionsAct, PressesAct, ReleasesAct};
ghost use Rattle.law_desktop.specs.Pointed.Apart.{PointerApart, PointerApartThrough};
ghost use Rattle.law_desktop.specs.Pointed.ByRounds.{ButtonsByRounds, ButtonsMayBeIdle, ButtonsRaise, MotionsByRounds};
ghost use Rattle.law_desktop.specs.Pointed.Entering.{NewPointerApart, NewPointerApartThrough};
ghost use Rattle.law_desktop.specs.Pointed.Happenings.{EndedApart, EndsApart, FramesApart, QuietApart};
ghost use Rattle.law_desktop.specs.Pointed.Lives.{FocusLives, HitLives};
ghost use Rattle.law_desktop.specs.Pointed.Marking.{LastMarksNothing, MarksApart, MarksInParts, MarksOwnThenRounds, NewPointerMarks, RoundsMarkEnds};
ghost use Rattle.law_desktop.specs.Pointed.Marking.{RoundsMarkInTurn, SettlingMarksNothing};
ghost use Rattle.law_desktop.specs.Pointed.Moved.{MovedStandsFirst, MovedStandsMid, MovedStandsOn};
ghost use Rattle.law_desktop.specs.Pointed.Rounds.{ButtonsEnd, MotionsEnd, RoundsAreFew, RoundsSettle, SettledAtOnce, SettlesAtLast, SettlesIdly};
ghost use Rattle.law_desktop.specs.Pointed.Seats.{EndedStay, NewPointerShowsNothing, PointersStay, RoundsEndClients, SerialsStay};
ghost use Rattle.law_desktop.specs.Pointed.Whole.{StepsByRounds};

// ---- messages

/// A message is served with the pointer put aside; then the pointer is put back, and its focus is
/// settled. That holds of all messages but wl_seat.get_pointer of the client that has the focus.
pub fn pointer_apart()
    ensures { PointerApart }
{}

/// It holds of the desktops on the way too.
pub fn pointer_apart_through()
    ensures { PointerApartThrough }
{}

/// wl_seat.get_pointer of the client that has the focus is served with the pointer put aside. Then
/// the pointer is put back, the new wl_pointer is told of the focus, and that is settled last
/// (wayland.xml, wl_pointer.enter).
pub fn new_pointer_apart()
    ensures { NewPointerApart }
{}

/// It holds of the desktops on the way too.
pub fn new_pointer_apart_through()
    ensures { NewPointerApartThrough }
{}

// ---- whatever else happens

/// The pointer stays as it is when a client connects, is written to, sent to or closed, or when its
/// bytes come.
pub fn quiet_apart()
    ensures { QuietApart }
{}

/// When memory runs out, or a client goes, the pointer leaves it, and then its focus is settled.
pub fn ends_apart()
    ensures { EndsApart }
{}

/// The same holds of a client's end for any cause.
pub fn ended_apart()
    ensures { EndedApart }
{}

/// When a frame is shown, the pointer leaves each client that ended, and then its focus is settled.
pub fn frames_apart()
    ensures { FramesApart }
{}

/// A toplevel that is moved with the pointer always stands.
pub fn moved_stands_on()
    ensures { MovedStandsOn }
{}

/// It also stands in the middle of a step.
pub fn moved_stands_mid()
    ensures { MovedStandsMid }
{}

/// It also stands after the pointer moves, or a button is pressed or released.
pub fn moved_stands_first()
    ensures { MovedStandsFirst }
{}

// ---- the parts of a settling

// ---- the ends that follow

/// The ends of a step are rounds. In each the focus is settled, and then the first client ends that
/// is to end. If there is none, the step is over.
pub fn rounds_settle()
    ensures { RoundsSettle }
{}

/// Each round ends a living client, so 32 clients have at most 32 rounds.
pub fn rounds_are_few()
    ensures { RoundsAreFew }
{}

/// The focus can always be settled with the ends that follow, and with 32 clients it is settled at
/// last.
pub fn settles_at_last()
    ensures { SettlesAtLast }
{}

/// Settling a focus that is settled does nothing.
pub fn settles_idly()
    ensures { SettlesIdly }
{}

/// If it is settled and nobody is to end, nothing follows.
pub fn settled_at_once()
    ensures { SettledAtOnce }
{}

/// After a motion the focus is settled, and ends may follow at once.
pub fn motions_end()
    ensures { MotionsEnd }
{}

/// After a button the focus is settled before ends follow.
pub fn buttons_end()
    ensures { ButtonsEnd }
{}

// ---- what is marked

/// What is marked through desktops is what is marked through the first of them, and then through
/// the others.
pub fn marks_in_parts()
    ensures { MarksInParts }
{}

/// With the pointer put back a step marks what it marks with the pointer put aside, and then what
/// is marked from its last desktop on.
pub fn marks_apart()
    ensures { MarksApart }
{}

/// Settling the focus marks nothing.
pub fn settling_marks_nothing()
    ensures { SettlingMarksNothing }
{}

/// A round marks what its end marks.
pub fn rounds_mark_ends()
    ensures { RoundsMarkEnds }
{}

/// One round more marks what its end marks.
pub fn rounds_mark_in_turn()
    ensures { RoundsMarkInTurn }
{}

/// Settling after rounds marks nothing.
pub fn last_marks_nothing()
    ensures { LastMarksNothing }
{}

/// After a motion or a button a step marks what its own change marks, and then what is marked from
/// there on.
pub fn marks_own_then_rounds()
    ensures { MarksOwnThenRounds }
{}

/// Telling a new wl_pointer of the focus marks nothing.
pub fn new_pointer_marks()
    ensures { NewPointerMarks }
{}

// ---- a step as a whole

/// A step is the step with the pointer put aside, and then the rounds that follow with the pointer
/// put back. It marks what those mark.
pub fn steps_by_rounds()
    ensures { StepsByRounds }
{}

/// A motion and a button are split in the same way. They mark what their own change marks, and what
/// the ends of the rounds mark.
pub fn motions_by_rounds()
    ensures { MotionsByRounds }
{}

/// The same holds of a press that counts, and of a release that does.
pub fn buttons_by_rounds()
    ensures { ButtonsByRounds }
{}

/// A press or a release that doesn't count does nothing and marks nothing.
pub fn buttons_may_be_idle()
    ensures { ButtonsMayBeIdle }
{}

/// A press that counts raised the toplevel that holds the hit, unless that was topmost.
pub fn buttons_raise()
    ensures { ButtonsRaise }
{}

// ---- what the pointer does

/// When the pointer moves to a point, the toplevel that it moves goes along, and nothing else is
/// done.
pub fn goes_along()
    ensures { GoesAlong }
{}

/// After a motion the pointer is at its point, and its focus is settled.
pub fn motions_act()
    ensures { MotionsAct }
{}

/// If nobody holds a grab, a press raises the toplevel that holds the hit and is told to the focus.
/// Nothing else is done.
pub fn presses_act()
    ensures { PressesAct }
{}

/// A release is told to the focus, and nothing else is done.
pub fn releases_act()
    ensures { ReleasesAct }
{}

// ---- who lives

/// If the focus is settled, the client that has it lives.
pub fn focus_lives()
    ensures { FocusLives }
{}

/// The client whose window the pointer hits lives, and the toplevel of that window stands.
pub fn hit_lives()
    ensures { HitLives }
{}

// ---- the seats of clients

/// Whatever happens, only wl_seat.get_pointer changes which wl_pointers a living client has.
pub fn pointers_stay()
    ensures { PointersStay }
{}

/// Whatever happens, only a button changes which press and which release a living client was told
/// of last.
pub fn serials_stay()
    ensures { SerialsStay }
{}

/// While nobody points, a client that gets a wl_pointer and lives on leaves all windows as they
/// are.
pub fn new_pointer_shows_nothing()
    ensures { NewPointerShowsNothing }
{}

/// A client that ended stays so until its number is given back, whatever happens. That holds round
/// by round too.
pub fn ended_stay()
    ensures { EndedStay }
{}

/// Each round ends a living client: if none has ended, there was no round.
pub fn rounds_end_clients()
    ensures { RoundsEndClients }
{}
