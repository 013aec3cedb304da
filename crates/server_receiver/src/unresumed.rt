//! Publications that don't go on before their setup frames for a while. docs/PROTOCOL.md, "Where an image joins".

ghost use Rattle.std.specs.Prelude.{◌≡◌, None, replicate};
ghost use Rattle.std.specs.List.{position};
ghost use Rattle.server_receiver.specs.Resuming.{is_noted_of, note_next, note_place, resumes_at, resumes_by, resumes_now, with_unresumed};

use frame_core::Publication;
use server_state::Resumes;

/// Publications that are noted at most.
const MOST: usize = 64;
/// Milliseconds for which a publication doesn't resume.
const UNRESUMED: u64 = 60_000;

/// A publication whose image was given up, or lost.
#[derive(Clone, Copy, Debug, PartialEq, Eq)]
pub(crate) struct Unresumed {
    /// The publication.
    pub publication: Publication,
    /// Why it does not resume.
    pub cause: Resumes,
    /// When that was, in milliseconds.
    pub at: u64,
}

/// The publications whose images were given up, or lost, last: at most 64.
#[derive(Clone, Copy)]
pub(crate) struct UnresumedPublications {
    noted: [Option<Unresumed>; MOST],
    /// Which of them is forgotten next.
    next: usize,
}

impl UnresumedPublications {
    /// None.
    pub fn new() -> UnresumedPublications
        ensures { result ≡ record { noted = replicate 64 None; next = 0 } }
    {
        UnresumedPublications {
            noted: [None; MOST],
            next: 0,
        }
    }

    /// Notes one, in place of what was noted of its publication; else one of 64 is forgotten for it, in turn.
    pub fn note(&mut self, publication: Publication, cause: Resumes, now: u64)
        ensures { self.new ≡ with_unresumed publication cause now self.old }
    {
        let found = self.place_of(&publication);
        let place = note_place(found, self.next);
        if place < MOST {
            self.noted[place] = Some(Unresumed {
                publication,
                cause,
                at: now,
            });
        }
        self.next = note_next(found, self.next);
    }

    /// Whether a publication may resume now: none of its images was given up, or lost, within the last 60,000 milliseconds. If
    /// one was, why it may not.
    pub fn resumes(&self, publication: &Publication, now: u64) -> Resumes
        ensures { result ≡ resumes_now publication.now now self.now }
    {
        match self.place_of(publication) {
            Some(place) => match self.noted.get(place) {
                Some(noted) => resumes_by(now, *noted),
                None => Resumes::Yes,
            },
            None => Resumes::Yes,
        }
    }

    fn place_of(&self, publication: &Publication) -> Option<usize>
        ensures { result ≡ position (is_noted_of publication.now) self.now.noted }
    {
        self.noted
            .iter()
            .position(|noted| is_noted_of(publication, noted))
    }
}

/// Whether this was noted of a publication.
fn is_noted_of(publication: &Publication, noted: &Option<Unresumed>) -> bool
    ensures { result ≡ is_noted_of publication.now noted.now }
{
    match noted {
        Some(noted) => {
            noted.publication.session_id == publication.session_id
                && noted.publication.stream_id == publication.stream_id
        }
        None => false,
    }
}

fn note_place(found: Option<usize>, next: usize) -> usize
    ensures { result ≡ note_place found next }
{
    match found {
        Some(place) => place,
        None => next,
    }
}

fn note_next(found: Option<usize>, next: usize) -> usize
    ensures { result ≡ note_next found next }
{
    match found {
        Some(_) => next,
        None => (next % MOST + 1) % MOST,
    }
}

/// Whether a publication may resume, by what was noted of it.
fn resumes_by(now: u64, noted: Option<Unresumed>) -> Resumes
    ensures { result ≡ resumes_by now noted }
{
    match noted {
        Some(noted) if now.saturating_sub(noted.at) < UNRESUMED => noted.cause,
        _ => Resumes::Yes,
    }
}
