//! Holes between recordings of one publication, by publication. docs/SERVING.md, "Metrics".

ghost use Rattle.std.specs.Prelude.{◌≡◌, None, replicate};
ghost use Rattle.std.specs.List.{position};
ghost use Rattle.server_state.specs.Holes.{after_hole, bytes_kept, hole_next, hole_place, holes_at, holes_of, is_hole_of};

use frame_core::Publication;

/// Publications that are kept at most.
const MOST: usize = 64;

/// What is kept of a publication.
#[derive(Clone, Copy, Debug, PartialEq, Eq)]
pub(crate) struct PublicationHoles {
    /// The publication.
    pub publication: Publication,
    /// Bytes of its holes.
    pub bytes: u64,
}

/// The publications that holes were seen of: at most 64.
#[derive(Clone, Copy)]
pub(crate) struct SeenHoles {
    kept: [Option<PublicationHoles>; MOST],
    /// Which of them is forgotten next.
    next: usize,
}

impl SeenHoles {
    /// None.
    pub fn new() -> SeenHoles
        ensures { result ≡ record { kept = replicate 64 None; next = 0 } }
    {
        SeenHoles {
            kept: [None; MOST],
            next: 0,
        }
    }

    /// A hole of so many bytes was seen: it is added to what is kept of its publication. If nothing is, one of 64 publications is
    /// forgotten for it, in turn.
    pub fn add(&mut self, publication: Publication, bytes: u64)
        ensures { self.new ≡ after_hole publication bytes self.old }
    {
        let found = self.place_of(&publication);
        let bytes = self.bytes_at(found).saturating_add(bytes);
        let place = hole_place(found, self.next);
        if place < MOST {
            self.kept[place] = Some(PublicationHoles { publication, bytes });
        }
        self.next = hole_next(found, self.next);
    }

    /// Bytes of a publication's holes, as far as they are kept.
    pub fn bytes_of(&self, publication: &Publication) -> u64
        ensures { result ≡ holes_of publication.now self.now }
    {
        self.bytes_at(self.place_of(publication))
    }

    fn bytes_at(&self, found: Option<usize>) -> u64
        ensures { result ≡ holes_at found self.now.kept }
    {
        match found {
            Some(place) => match self.kept.get(place) {
                Some(kept) => bytes_kept(*kept),
                None => 0,
            },
            None => 0,
        }
    }

    fn place_of(&self, publication: &Publication) -> Option<usize>
        ensures { result ≡ position (is_hole_of publication.now) self.now.kept }
    {
        self.kept
            .iter()
            .position(|kept| is_hole_of(publication, kept))
    }
}

fn bytes_kept(kept: Option<PublicationHoles>) -> u64
    ensures { result ≡ bytes_kept kept }
{
    match kept {
        Some(kept) => kept.bytes,
        None => 0,
    }
}

/// Whether this is kept of a publication.
fn is_hole_of(publication: &Publication, kept: &Option<PublicationHoles>) -> bool
    ensures { result ≡ is_hole_of publication.now kept.now }
{
    match kept {
        Some(kept) => {
            kept.publication.session_id == publication.session_id
                && kept.publication.stream_id == publication.stream_id
        }
        None => false,
    }
}

fn hole_place(found: Option<usize>, next: usize) -> usize
    ensures { result ≡ hole_place found next }
{
    match found {
        Some(place) => place,
        None => next,
    }
}

fn hole_next(found: Option<usize>, next: usize) -> usize
    ensures { result ≡ hole_next found next }
{
    match found {
        Some(_) => next,
        None => (next % MOST + 1) % MOST,
    }
}
