//! How many clients are served at a time, and the passes that they call with.

ghost use Rattle.std.specs.Prelude.{◌≡◌, ◌≤◌, ◌+◌, if◌then◌else◌};
ghost use Rattle.server.specs.Clients.{consumers_of, places_of};

use std::marker::Brand;

/// How many clients are served at a time, at most.
pub(crate) const MAX_CLIENTS: u32 = 64;
/// How many clients that only read are served at a time, at a port of their own.
pub(crate) const CONSUMERS: usize = 64;

/// Names one pass by its number.
pub(crate) trait Place {
    ghost use Rattle.std.specs.Prelude.{ℕ};

    /// The number.
    ghost number: { ℕ };
}

impl Place for Brand {
    ghost number = { 0 };
}

/// How many followers there are at a time, at most.
pub(crate) const MAX_FOLLOWERS: usize = 60;

/// How many clients are served at a time, and how many followers.
#[derive(Clone, Copy)]
pub(crate) struct Places {
    /// Clients, at all ports.
    pub count: usize,
    /// Those at the control port.
    pub clients: usize,
    pub followers: usize,
    ghost some: { 1 ≤ count },
    ghost few: { count ≤ 128 },
    ghost few_followers: { followers ≤ 60 },
}

impl Places {
    /// As many clients as an option asks for: 1 at least, which it is without the option, and 64 at most. 64 more at a port of
    /// consumers, if there is one, and 60 followers, if there are any.
    pub fn of(clients: Option<u32>, has_consumers: bool, follows: bool) -> Places
        ensures clients { result.clients ≡ places_of clients }
        ensures count { result.count ≡ places_of clients + consumers_of has_consumers }
        ensures followers { result.followers ≡ (if follows then 60 else 0) }
    {
        let clients = clients.unwrap_or(1).clamp(1, MAX_CLIENTS) as usize;
        Places {
            count: clients + if has_consumers { CONSUMERS } else { 0 },
            clients,
            followers: if follows { MAX_FOLLOWERS } else { 0 },
        }
    }
}
