//! Publications that got no place. docs/PROTOCOL.md, "Places".

ghost use Rattle.std.specs.Prelude.{◌≡◌, None, replicate};
ghost use Rattle.std.specs.List.{list_any};
ghost use Rattle.server_receiver.specs.Places.{after_telling, is_noted_as, is_telling_time, more_to_tell, with_publication};

use frame_core::Publication;

/// Publications that are noted at most.
const MOST: usize = 64;
/// Milliseconds from one report to the next.
const PAUSE: u64 = 60_000;

/// The last publications that got no place, at most 64, and when that was reported last.
#[derive(Clone, Copy)]
pub(crate) struct NoPlaces {
    noted: [Option<Publication>; MOST],
    /// Which of them is forgotten next.
    next: usize,
    /// When it was reported last, in milliseconds.
    told_at: Option<u64>,
    /// How many publications came to get no place since.
    more: u64,
}

impl NoPlaces {
    /// None.
    pub fn new() -> NoPlaces
        ensures { result ≡ record { noted = replicate 64 None; next = 0; told_at = None; more = 0 } }
    {
        NoPlaces {
            noted: [None; MOST],
            next: 0,
            told_at: None,
            more: 0,
        }
    }

    /// Whether a publication is noted.
    pub fn contains(&self, publication: &Publication) -> bool
        ensures { result ≡ list_any (is_noted_as publication.now) self.now.noted }
    {
        self.noted
            .iter()
            .any(|noted| is_noted_as(publication, noted))
    }

    /// Notes a publication in place of the one that was noted longest ago.
    pub fn add(&mut self, publication: Publication)
        ensures { self.new ≡ with_publication publication self.old }
    {
        let place = self.next % MOST;
        self.noted[place] = Some(publication);
        self.next = (place + 1) % MOST;
        self.more = self.more.saturating_add(1);
    }

    /// Whether it is to be reported now, once in 60,000 milliseconds, and if so, how many publications more than the one that it is
    /// reported of got no place since it was reported last.
    pub fn tells(&mut self, now: u64) -> Option<u64>
        ensures told { result ≡ more_to_tell now self.old }
        ensures after { self.new ≡ after_telling now self.old }
    {
        if !self.is_time(now) {
            return None;
        }
        let more = self.more.saturating_sub(1);
        self.told_at = Some(now);
        self.more = 0;
        Some(more)
    }

    fn is_time(&self, now: u64) -> bool
        ensures { result ≡ is_telling_time now self.now.told_at }
    {
        match self.told_at {
            Some(last) => PAUSE <= now.saturating_sub(last),
            None => true,
        }
    }
}

/// Whether this publication is noted.
fn is_noted_as(publication: &Publication, noted: &Option<Publication>) -> bool
    ensures { result ≡ is_noted_as publication.now noted.now }
{
    match noted {
        Some(noted) => {
            noted.session_id == publication.session_id && noted.stream_id == publication.stream_id
        }
        None => false,
    }
}
