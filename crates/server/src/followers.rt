//! Who is sent the frames of a replay, and by which of the archive's replays. docs/SERVING.md, "Consumers".

use control_lines::FollowFields;
use frame_core::Refusal;
use server_sender::Endpoint;
use std::alloc::{AllocError, Global};
use std::mem;
use std::net::{SocketAddr, TcpStream};
use std::sync::atomic::{AtomicBool, Ordering};
use std::sync::{Condvar, Mutex, MutexGuard, Wait};

/// What a client asks for, where its connection comes from, if that is known, and where to the frames are sent as a publication, if
/// they are not sent to the connection.
#[derive(Clone, Copy)]
pub(crate) struct Asked {
    pub fields: FollowFields,
    pub address: Option<SocketAddr>,
    pub to: Option<Endpoint>,
}

/// How far the place of a follower is.
#[derive(Drop)]
enum Stage {
    /// Nobody follows.
    Free,
    /// Nobody can, as its thread could not be made.
    Lost,
    /// A client has asked for frames.
    Asked(Asked),
    /// The place's thread opens a replay.
    Opening,
    /// It has answered where the frames begin, in bytes of the stream, or the number of a sending; or why there are none.
    Answered(Result<i64, Refusal>),
    /// The client is told so.
    Awaited,
    /// The client's connection is to be sent the frames.
    Handed(TcpStream),
    /// The client could not be told.
    Left,
    /// Frames are sent.
    Sending,
}

/// The place of a follower.
#[derive(Drop)]
struct FollowerPlace {
    stage: Stage,
    /// How many clients asked here.
    asked: u64,
    /// The archive's replay that keeps the frames in place.
    replay: Option<i64>,
    /// Whether a client asked to close that replay.
    is_ended: bool,
}

/// The places of followers.
#[derive(Drop)]
pub(crate) struct FollowerPlaces {
    places: Vec<FollowerPlace>,
    is_over: bool,
}

/// A client's claim to a place.
#[derive(Clone, Copy)]
pub(crate) struct Claim {
    place: usize,
    asked: u64,
}

impl FollowerPlaces {
    /// Whether a replay of this number keeps a follower's frames in place.
    pub fn has(&self, replay: i64) -> bool {
        self.places.iter().any(|place| place.replay == Some(replay))
    }

    /// The replay of this number keeps the frames of a place's follower in place; or none does.
    pub fn set_replay(&mut self, place: usize, replay: Option<i64>) {
        if let Some(place) = self.places.get_mut(place) {
            place.replay = replay;
        }
    }

    /// Whether a client asked to close the replay of a place's follower.
    pub fn is_ended(&self, place: usize) -> bool {
        match self.places.get(place) {
            Some(place) => place.is_ended,
            None => true,
        }
    }

    /// The follower that a replay is of is to end: its place.
    fn ask_to_end(&mut self, replay: i64) -> Option<usize> {
        for (index, place) in self.places.iter_mut().enumerate() {
            if place.replay == Some(replay) {
                place.is_ended = true;
                return Some(index);
            }
        }
        None
    }

    /// Takes a place that is free for a client who asks.
    fn take(&mut self, asked: &Asked) -> Option<Claim> {
        for (index, place) in self.places.iter_mut().enumerate() {
            if matches!(place.stage, Stage::Free) {
                place.stage = Stage::Asked(*asked);
                place.asked = place.asked.wrapping_add(1);
                return Some(Claim {
                    place: index,
                    asked: place.asked,
                });
            }
        }
        None
    }

    /// Whether a place's thread has nothing to do yet.
    fn is_idle(&self, place: usize) -> bool {
        match self.places.get(place) {
            Some(place) => !self.is_over && !matches!(place.stage, Stage::Asked(_)),
            None => false,
        }
    }

    /// What a client asked for at a place.
    fn take_asked(&mut self, place: usize) -> Option<Asked> {
        let place = self.places.get_mut(place)?;
        match &place.stage {
            Stage::Asked(asked) => {
                let asked = *asked;
                place.stage = Stage::Opening;
                Some(asked)
            }
            _ => None,
        }
    }

    /// Whether a place's thread has not answered yet.
    fn is_unanswered(&self, claim: &Claim) -> bool {
        match self.places.get(claim.place) {
            Some(place) => {
                !self.is_over && matches!(&place.stage, Stage::Asked(_) | Stage::Opening)
            }
            None => false,
        }
    }

    /// What a place's thread answered. It is free again if that is a refusal.
    fn take_answer(&mut self, claim: &Claim) -> Result<i64, Refusal> {
        let Some(place) = self.places.get_mut(claim.place) else {
            return Err(Refusal::Broken);
        };
        let Stage::Answered(answer) = &place.stage else {
            return Err(Refusal::Broken);
        };
        let answer = *answer;
        place.stage = if answer.is_ok() {
            Stage::Awaited
        } else {
            Stage::Free
        };
        answer
    }

    /// A place goes on to a stage.
    fn set(&mut self, place: usize, stage: Stage) {
        if let Some(place) = self.places.get_mut(place) {
            place.stage = stage;
        }
    }

    /// A client's place goes on to a stage, if it is the client's still, and awaited.
    fn set_claimed(&mut self, claim: &Claim, stage: Stage) {
        if let Some(place) = self.places.get_mut(claim.place) {
            if place.asked == claim.asked && matches!(place.stage, Stage::Awaited) {
                place.stage = stage;
            }
        }
    }

    /// Whether a place's thread waits for its client's connection.
    fn awaits_stream(&self, place: usize) -> bool {
        match self.places.get(place) {
            Some(place) => match &place.stage {
                Stage::Answered(_) => !self.is_over,
                Stage::Awaited => !self.is_over && !place.is_ended,
                _ => false,
            },
            None => false,
        }
    }

    /// The connection of a place's client, to which frames are sent from now on.
    fn take_stream(&mut self, place: usize) -> Option<TcpStream> {
        let place = self.places.get_mut(place)?;
        match mem::replace(&mut place.stage, Stage::Sending) {
            Stage::Handed(stream) => Some(stream),
            _ => None,
        }
    }

    /// Nobody follows at a place any more.
    fn leave(&mut self, place: usize) {
        if let Some(place) = self.places.get_mut(place) {
            place.stage = Stage::Free;
            place.replay = None;
            place.is_ended = false;
        }
    }
}

/// The places of followers, which the threads of a server share. Their lock is taken before the archive's.
#[derive(Drop)]
pub(crate) struct Followers {
    table: Mutex<FollowerPlaces>,
    changed: Condvar,
    /// Of each place whether its follower is to end, for the thread that sends frames.
    ends: Vec<AtomicBool>,
}

impl Followers {
    /// So many places, all of them free. Costs memory for them.
    pub fn new(alloc: Global, count: usize) -> Result<Followers, AllocError> {
        let mut places = Vec::with_capacity(alloc, count)?;
        let mut ends = Vec::with_capacity(alloc, count)?;
        for _ in 0..count {
            ends.push(AtomicBool::new(false))?;
            places.push(FollowerPlace {
                stage: Stage::Free,
                asked: 0,
                replay: None,
                is_ended: false,
            })?;
        }
        Ok(Followers {
            table: Mutex::new(FollowerPlaces {
                places,
                is_over: false,
            }),
            changed: Condvar::new(),
            ends,
        })
    }

    /// Whether connections may follow.
    pub fn are_served(&self) -> bool {
        !self.ends.is_empty()
    }

    /// Whether the follower at a place is to end. Takes no lock.
    pub fn is_to_end(&self, place: usize) -> bool {
        match self.ends.get(place) {
            Some(ends) => ends.load(Ordering::SeqCst),
            None => true,
        }
    }

    fn set_to_end(&self, place: usize, is_to_end: bool) {
        if let Some(ends) = self.ends.get(place) {
            ends.store(is_to_end, Ordering::SeqCst);
        }
    }

    /// The places, which stay as they are meanwhile, but for what the caller changes.
    pub fn lock<R: Wait>(&self, rt: &R) -> MutexGuard<'_, FollowerPlaces> {
        self.table.lock(rt)
    }

    /// Asks for frames, and waits until a thread has answered: a claim to its place, and where the frames begin, or the number of the
    /// sending. `MaxReplays` if no place is free, `BadLine` if there are none, `Broken` if no archive is open.
    pub fn ask<R: Wait>(&self, rt: &R, asked: &Asked) -> Result<(Claim, i64), Refusal> {
        if !self.are_served() {
            return Err(Refusal::BadLine);
        }
        let mut table = self.table.lock(rt);
        if table.is_over {
            return Err(Refusal::Broken);
        }
        let Some(claim) = table.take(asked) else {
            return Err(Refusal::MaxReplays);
        };
        self.changed.notify_all();
        let mut table = self
            .changed
            .wait_while(rt, table, |table| table.is_unanswered(&claim));
        let position = table.take_answer(&claim)?;
        Ok((claim, position))
    }

    /// A client's connection is to be sent its frames.
    pub fn hand<R: Wait>(&self, rt: &R, claim: &Claim, stream: TcpStream) {
        self.table
            .lock(rt)
            .set_claimed(claim, Stage::Handed(stream));
        self.changed.notify_all();
    }

    /// A client could not be told that it follows.
    pub fn give_up<R: Wait>(&self, rt: &R, claim: &Claim) {
        self.table.lock(rt).set_claimed(claim, Stage::Left);
        self.changed.notify_all();
    }

    /// A follower whose frames the replay of this number keeps in place ends, if there is one. Waits until it has.
    pub fn end_follower<R: Wait>(&self, rt: &R, replay: i64) {
        let mut table = self.table.lock(rt);
        let Some(place) = table.ask_to_end(replay) else {
            return;
        };
        self.set_to_end(place, true);
        self.changed.notify_all();
        let table = self
            .changed
            .wait_while(rt, table, |table| table.has(replay));
        let _ = table.is_over;
    }

    /// What a client asks for at a place, once one does. None if the server ends.
    pub fn next<R: Wait>(&self, rt: &R, place: usize) -> Option<Asked> {
        let table = self.table.lock(rt);
        let mut table = self
            .changed
            .wait_while(rt, table, |table| table.is_idle(place));
        table.take_asked(place)
    }

    /// Answers the client at a place. If that is a refusal, nobody follows there.
    pub fn answer<R: Wait>(&self, rt: &R, place: usize, answer: Result<i64, Refusal>) {
        let mut table = self.table.lock(rt);
        if answer.is_err() {
            table.leave(place);
            self.set_to_end(place, false);
        }
        table.set(place, Stage::Answered(answer));
        self.changed.notify_all();
    }

    /// The connection of the client at a place, once it was told. None if it could not be told, or is not to be sent anything.
    pub fn stream<R: Wait>(&self, rt: &R, place: usize) -> Option<TcpStream> {
        let table = self.table.lock(rt);
        let mut table = self
            .changed
            .wait_while(rt, table, |table| table.awaits_stream(place));
        table.take_stream(place)
    }

    /// Nobody follows at a place any more.
    pub fn leave<R: Wait>(&self, rt: &R, place: usize) {
        let mut table = self.table.lock(rt);
        table.leave(place);
        self.set_to_end(place, false);
        self.changed.notify_all();
    }

    /// The thread of a place could not be made.
    pub fn lose<R: Wait>(&self, rt: &R, place: usize) {
        self.table.lock(rt).set(place, Stage::Lost);
    }

    /// No client asks any more: threads that wait for one end.
    pub fn end<R: Wait>(&self, rt: &R) {
        self.table.lock(rt).is_over = true;
        self.changed.notify_all();
    }
}
