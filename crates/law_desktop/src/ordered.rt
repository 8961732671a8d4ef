//! The laws of order with popups and grabs: what each client owns is in order on every desktop that
//! is reached, with the pointer put aside. Each law is a function that promises it.

ghost use Rattle.law_desktop.specs.OrderedLaws.{DemandsKeepOrdered, EmptyIsOrdered, EndsKeepOrdered, FramesKeepOrdered};
ghost use Rattle.law_desktop.specs.OrderedLaws.{DismissalsKeepOrdered, MessagesKeepOrdered, MovesKeepOrdered, OrderedHasOrder};
ghost use Rattle.law_desktop.specs.OrderedLaws.{OrderedStays, PeersKeepOrdered, PiecesKeepOrdered, PressesKeepOrdered};

/// A client's popups have the order that the shell asks for (xdg-shell.xml, xdg_popup).
pub fn ordered_has_order()
    ensures { OrderedHasOrder }
{}

/// A desktop without clients is in order.
pub fn empty_is_ordered()
    ensures { EmptyIsOrdered }
{}

/// Whatever happens that leaves the pointer alone leaves a desktop in order.
pub fn ordered_stays()
    ensures { OrderedStays }
{}

/// One message of a client leaves a desktop in order.
pub fn messages_keep_ordered()
    ensures { MessagesKeepOrdered }
{}

/// Keeping the stream of a client that is there leaves a desktop in order.
pub fn pieces_keep_ordered()
    ensures { PiecesKeepOrdered }
{}

/// The end of a client leaves a desktop in order.
pub fn ends_keep_ordered()
    ensures { EndsKeepOrdered }
{}

/// A frame that a client is told of leaves a desktop in order.
pub fn frames_keep_ordered()
    ensures { FramesKeepOrdered }
{}

/// Raising a toplevel leaves a desktop in order, and so does moving one.
pub fn moves_keep_ordered()
    ensures { MovesKeepOrdered }
{}

/// What a client owns stays in order under another peer with the same objects and buffers.
pub fn peers_keep_ordered()
    ensures { PeersKeepOrdered }
{}

/// What a client owns stays in order after the demand of an accepted message.
pub fn demands_keep_ordered()
    ensures { DemandsKeepOrdered }
{}

/// It stays in order when popups are dismissed.
pub fn dismissals_keep_ordered()
    ensures { DismissalsKeepOrdered }
{}

/// A press leaves a desktop in order that dismisses the popups of the client that holds a grab.
pub fn presses_keep_ordered()
    ensures { PressesKeepOrdered }
{}
