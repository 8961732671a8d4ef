//! Which client of a session has which number in a recording of it.

ghost use Rattle.std.specs.Prelude.{◌≡◌, ◌<◌, IfSome, None, replicate};
ghost use Rattle.wl_recording.specs.Recording.{first_place, is_client, is_free, joined, left, number_of};

use std::marker::Model;

/// The greatest number of clients.
const CLIENTS: usize = 32;

/// Which client of a session has which number in its recording. Contracts see the numbers in the
/// session, by those in the recording, from 1.
///
/// A replay gives each client that connects the lowest free number, and frees it when the client
/// ends. A session frees its own numbers later.
#[derive(Drop)]
pub struct Roster {
    clients: [Option<u32>; CLIENTS],
}

impl Model for Roster {
    ghost use Rattle.std.specs.Prelude.{ℕ, List, Option};

    ghost Value = { List (Option ℕ) };

    ghost view = { λ r. r.clients };
}

impl Roster {
    /// Nobody has a number.
    pub fn new() -> Roster
        ensures { result ≡ replicate 32 None }
    {
        Roster {
            clients: [None; CLIENTS],
        }
    }

    /// The number that a client of the session has in the recording.
    pub fn number(&self, client: u32) -> Option<u32>
        ensures { result ≡ number_of client self.now }
    {
        let Some(place) = place_of(&self.clients, client) else {
            return None;
        };
        Some(place as u32 + 1)
    }

    /// Gives a client the lowest free number, if there is one.
    pub fn join(&mut self, client: u32)
        ensures { self.new ≡ joined client self.old }
    {
        if let Some(place) = first_free(&self.clients) {
            self.clients[place] = Some(client);
        }
    }

    /// Frees the number of a client, if it has one.
    pub fn leave(&mut self, client: u32)
        ensures { self.new ≡ left client self.old }
    {
        if let Some(place) = place_of(&self.clients, client) {
            self.clients[place] = None;
        }
    }
}

/// The place of a client, counted from 0.
fn place_of(clients: &[Option<u32>; CLIENTS], client: u32) -> Option<usize>
    ensures place { result ≡ first_place (is_client client) clients.now }
    ensures within { IfSome result (λ place. place < 32) }
{
    clients.iter().position(|there| *there == Some(client))
}

/// The first place that nobody has, counted from 0.
fn first_free(clients: &[Option<u32>; CLIENTS]) -> Option<usize>
    ensures place { result ≡ first_place is_free clients.now }
    ensures within { IfSome result (λ place. place < 32) }
{
    clients.iter().position(|there| is_free(there))
}

fn is_free(there: &Option<u32>) -> bool
    ensures { result ≡ is_free there.now }
{
    match there {
        Some(_) => false,
        None => true,
    }
}
