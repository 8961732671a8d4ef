//! What each client owns is in order while nobody points, with subsurfaces and with popups. This is
//! one invariant, which each step keeps, and each single message. Each law is a function that does
//! nothing and promises it.

ghost use Rattle.law_desktop.specs.InOrderLaws.{ClientsAreInOrder, DemandsKeepInOrder, EmptyIsInOrder, EndsKeepInOrder};
ghost use Rattle.law_desktop.specs.InOrderLaws.{FramesKeepInOrder, InOrderIsSound, InOrderStays, MessagesKeepInOrder};
ghost use Rattle.law_desktop.specs.InOrderLaws.{OthersDismissNone, PeersKeepInOrder};
ghost use Rattle.law_desktop.specs.InOrderLaws.{PiecesKeepInOrder, PopupsAreNumbered, PopupsRise};

/// A desktop without clients is in order.
pub fn empty_is_in_order()
    ensures { EmptyIsInOrder }
{}

/// On a desktop in order, all that a living client owns is in order.
pub fn clients_are_in_order()
    ensures { ClientsAreInOrder }
{}

/// On a desktop in order no surface has two windows.
pub fn in_order_is_sound()
    ensures { InOrderIsSound }
{}

/// No two popups of such a client have the same number, and none has one past that of the client's
/// last request.
pub fn popups_are_numbered()
    ensures { PopupsAreNumbered }
{}

/// The numbers of such a client's popups rise in order of creation.
pub fn popups_rise()
    ensures { PopupsRise }
{}

/// Whatever happens that leaves the pointer alone leaves a desktop in order.
pub fn in_order_stays()
    ensures { InOrderStays }
{}

/// One message of a client leaves a desktop in order.
pub fn messages_keep_in_order()
    ensures { MessagesKeepInOrder }
{}

/// Keeping a client's stream, before its messages are taken, leaves a desktop in order.
pub fn pieces_keep_in_order()
    ensures { PiecesKeepInOrder }
{}

/// The end of a client leaves a desktop in order.
pub fn ends_keep_in_order()
    ensures { EndsKeepInOrder }
{}

/// A frame that a client is told of leaves a desktop in order.
pub fn frames_keep_in_order()
    ensures { FramesKeepInOrder }
{}

/// What a client owns stays in order if other parts of its peer change than its objects and
/// buffers, and if it makes more requests.
pub fn peers_keep_in_order()
    ensures { PeersKeepInOrder }
{}

/// What a client owns stays in order after the demand of an accepted message.
pub fn demands_keep_in_order()
    ensures { DemandsKeepInOrder }
{}

/// Only a grab and the end of a toplevel tell a client that a popup is done. No other demand does.
pub fn others_dismiss_none()
    ensures { OthersDismissNone }
{}
