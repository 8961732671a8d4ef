//! A session that is served over any hub, turn by turn.

use crate::memory::{Client, MemoryHub};
use std::alloc::Global;
use wl_recording::SideFiles;
use wl_server::{Connections, Hub, Recorded, Service, turn};
use wl_session::{Config, Rgb, Session};

pub(crate) const CONFIG: Config = Config {
    width: 2,
    height: 1,
    background: Rgb { r: 0, g: 0, b: 0 },
};

/// A hub with a client that sends these bytes. None where there is no memory.
pub(crate) fn hub_of<'a>(alloc: Global, sends: &'a [u8]) -> Option<MemoryHub<'a>> {
    let mut clients = Vec::new(alloc);
    clients.push(Client::new(alloc, sends)).ok()?;
    Some(MemoryHub::new(clients, 4096))
}

/// A session that is served over a hub.
pub(crate) type Served<H, S> = Service<Global, Vec<u8>, H, S>;

/// A session before its first turn, without pointer lines. None where there is no memory for it.
pub(crate) fn served<H: Drop, S: Drop>(alloc: Global, hub: H, side: S) -> Option<Served<H, S>> {
    let session = Session::new(alloc, CONFIG).ok()?;
    Some(Service::new(Recorded::without(session), hub, side, Vec::new(alloc)))
}

/// Whether these turns were taken, from the one up to the other, without images.
pub(crate) fn takes<H: Hub, S: SideFiles>(
    service: &mut Served<H, S>,
    connections: &mut Connections<H::Conn>,
    from: u32,
    to: u32,
    report: &mut Vec<u8>,
) -> bool {
    for time in from..to.saturating_add(1) {
        if turn(service, connections, time, report, &mut None::<Vec<u8>>).is_err() {
            return false;
        }
    }
    true
}

/// A new session after so many turns. None where something else is reported of them.
pub(crate) fn reports<'a, S: SideFiles + Drop>(
    alloc: Global,
    hub: MemoryHub<'a>,
    side: S,
    turns: u32,
    wanted: &[u8],
) -> Option<Served<MemoryHub<'a>, S>> {
    let mut service = served(alloc, hub, side)?;
    let mut connections = Connections::new();
    let mut report = Vec::new(alloc);
    if takes(&mut service, &mut connections, 1, turns, &mut report) && report.as_slice() == wanted {
        Some(service)
    } else {
        None
    }
}
