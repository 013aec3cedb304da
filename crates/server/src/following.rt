//! The threads that send followers the frames of replays, or read what is sent as publications, beside the archive's lock.
//! docs/SERVING.md, "Consumers" and "Send a recording".

ghost use Rattle.std.specs.Prelude.{◌≡◌, ◌≤ℤ◌, IfErr, IfOk};
ghost use Rattle.server.specs.Clients.{IsBack};

use crate::connections::Connections;
use crate::followed_stream::FollowedStream;
use crate::follower_connection::{FollowerConnection, FollowerWriter};
use crate::followers::Asked;
use crate::openings::Openings;
use crate::pushing::{FollowEnd, send_all};
use crate::sending::send_recording;
use archive_lock::{Made, Naming, SharedArchive};
use archive_model::Descriptor;
use call_history::Pass;
use control_lines::FollowFields;
use disk_core::Disk;
use frame_core::Refusal;
use server_state::{ClientNews, Happening, KnownReplay, ReplayReader, Reporter};
use settled_replays::{
    HeldReplay, SentFrames, SettledReplayer, Unbegun, Unopened, described, open_in_term,
};
use std::alloc::Global;
use std::marker::PhantomData;
use std::net::TcpStream;
use std::rt::Clock;
use std::sync::{Mutex, Wait};

/// What the thread of a follower's place works with.
#[derive(Drop)]
pub(crate) struct Following<'a, D: Disk, A: Naming, R, T> {
    pub rt: &'a R,
    pub alloc: Global,
    pub archive: &'a SharedArchive<D, A>,
    pub with: &'a Connections<T>,
    pub place: usize,
}

/// What a follower is sent, and by which replay.
#[derive(Drop)]
pub(crate) struct Followed<E: Disk> {
    pub replayer: SettledReplayer<E>,
    pub stream: FollowedStream,
}

/// Who sends the followers of places their frames.
pub(crate) trait FrameSender {
    ghost use Rattle.server.specs.Clients.{IsBack};

    /// Sends frames to the followers of a place, one after another, until the server ends: the pass.
    fn send_frames<D: Disk, A: Naming, R: Wait + Clock, T: Reporter>(
        &self,
        following: &Following<'_, D, A, R, T>,
        pass: Pass<Made>,
    ) -> Pass<Made>
        requires { pass.table ≡ A.table }
        ensures { IsBack pass result };
}

/// Sends frames that are read from the disk, opened again as an `E`.
#[derive(Clone, Copy)]
pub(crate) struct ReadSender<'a, E, O> {
    openings: &'a O,
    /// No opening: threads share this as they may share a lock of one.
    opens: PhantomData<Mutex<E>>,
}

impl<'a, E, O> ReadSender<'a, E, O> {
    /// What sends frames that are read by these openings.
    pub fn new(openings: &'a O) -> ReadSender<'a, E, O> {
        ReadSender {
            openings,
            opens: PhantomData,
        }
    }
}

impl<E: Disk + Drop, O: Openings<E>> FrameSender for ReadSender<'_, E, O> {
    fn send_frames<D: Disk, A: Naming, R: Wait + Clock, T: Reporter>(
        &self,
        following: &Following<'_, D, A, R, T>,
        pass: Pass<Made>,
    ) -> Pass<Made> {
        follow_by::<D, A, R, T, E, O>(following, self.openings, pass)
    }
}

/// Sends frames to the followers of a place, as `send_frames`.
fn follow_by<D: Disk, A: Naming, R: Wait + Clock, T: Reporter, E: Disk + Drop, O: Openings<E>>(
    following: &Following<'_, D, A, R, T>,
    openings: &O,
    pass: Pass<Made>,
) -> Pass<Made>
    requires { pass.table ≡ A.table }
    ensures { IsBack pass result }
{
    let mut pass = pass;
    for _ in following.rt.forever() {
        let next = following.with.followers.next(following.rt, following.place);
        let Some(asked) = next else {
            return pass;
        };
        pass = follow::<D, A, R, T, E, O>(following, openings, pass, &asked);
    }
    unreachable!()
}

/// Sends a client the frames that it asks for, if there are any: the pass.
fn follow<D: Disk, A: Naming, R: Wait + Clock, T: Reporter, E: Disk + Drop, O: Openings<E>>(
    following: &Following<'_, D, A, R, T>,
    openings: &O,
    pass: Pass<Made>,
    asked: &Asked,
) -> Pass<Made>
    requires { pass.table ≡ A.table }
    ensures { IsBack pass result }
{
    let Following {
        rt,
        with,
        place,
        ..
    } = following;
    match begun::<D, A, R, T, E, O>(following, openings, pass, &asked.fields) {
        Ok(followed) => match &asked.to {
            Some(to) => send_recording(following, followed, asked, to),
            None => send_frames(following, followed, asked),
        },
        Err(Unopened { pass, refusal }) => {
            with.followers.answer(*rt, *place, Err(refusal));
            pass
        }
    }
}

/// Sends a client the frames that it asks for: the pass.
fn send_frames<D: Disk, A: Naming, R: Wait + Clock, T: Reporter, E: Disk + Drop>(
    following: &Following<'_, D, A, R, T>,
    followed: Followed<E>,
    asked: &Asked,
) -> Pass<Made>
    requires { followed.replayer.held.pass.table ≡ A.table }
    ensures { IsBack followed.replayer.held.pass result }
{
    let Following {
        rt,
        with,
        place,
        ..
    } = following;
    note_begun(following, &followed.replayer, asked, ReplayReader::Follow);
    let position = followed.replayer.next_position();
    with.followers.answer(*rt, *place, Ok(position));
    match with.followers.stream(*rt, *place) {
        Some(stream) => send(following, followed, stream),
        None => finish(following, followed.replayer),
    }
}

/// Notes a replay among those that are open.
pub(crate) fn note_begun<D: Disk, A: Naming, E: Disk + Drop, R: Wait, T: Reporter>(
    following: &Following<'_, D, A, R, T>,
    replayer: &SettledReplayer<E>,
    asked: &Asked,
    reader: ReplayReader,
) {
    let position = Some(replayer.next_position());
    let replay = KnownReplay {
        number: replayer.number(),
        recording: replayer.recording(),
        first: position,
        next: position,
        length: asked.fields.length,
        reader,
        address: asked.address,
    };
    following.with.shared.replays.follow(following.rt, replay);
}

/// Sends a connection the frames of a replay, and then ends it: the pass.
fn send<D: Disk, A: Naming, E: Disk + Drop, R: Wait + Clock, T: Reporter>(
    following: &Following<'_, D, A, R, T>,
    followed: Followed<E>,
    stream: TcpStream,
) -> Pass<Made>
    requires { followed.replayer.held.pass.table ≡ A.table }
    ensures { IsBack followed.replayer.held.pass result }
{
    let Followed {
        mut replayer,
        stream: followed,
    } = followed;
    let connection = FollowerConnection::new(following.rt, following.with, following.place, stream);
    if let Some(connection) = connection {
        let mut sent = SentFrames::new(following.alloc);
        let mut writer = FollowerWriter(&connection);
        let end = send_all(
            following,
            &followed,
            &connection,
            &mut replayer,
            &mut sent,
            &mut writer,
        );
        report(following, &replayer, end);
    }
    finish(following, replayer)
}

/// Reports that no frame can be sent any more, if that is so.
fn report<D: Disk, A: Naming, E: Disk + Drop, R, T: Reporter>(
    following: &Following<'_, D, A, R, T>,
    replayer: &SettledReplayer<E>,
    end: FollowEnd,
) {
    if let FollowEnd::Failed(cause) = end {
        let failed = ClientNews::FollowingFailed {
            recording: replayer.recording(),
            position: replayer.next_position(),
            cause,
        };
        following.with.shared.report(&Happening::Client(failed));
    }
}

/// Closes the archive's replay, unless a client has asked for that and waits, and leaves the place: the pass.
fn finish<D: Disk, A: Naming, E: Disk + Drop, R: Wait, T: Reporter>(
    following: &Following<'_, D, A, R, T>,
    replayer: SettledReplayer<E>,
) -> Pass<Made>
    requires { replayer.held.pass.table ≡ A.table }
    ensures { IsBack replayer.held.pass result }
{
    let number = replayer.number();
    let pass = freed(following, replayer);
    following.with.shared.replays.close(following.rt, number);
    following
        .with
        .followers
        .leave(following.rt, following.place);
    pass
}

/// Closes the archive's replay, or leaves it to the client that has asked for that. Its number is any client's from then on.
pub(crate) fn freed<D: Disk, A: Naming, E: Disk + Drop, R: Wait, T: Reporter>(
    following: &Following<'_, D, A, R, T>,
    replayer: SettledReplayer<E>,
) -> Pass<Made>
    requires { replayer.held.pass.table ≡ A.table }
    ensures { IsBack replayer.held.pass result }
{
    let Following {
        rt,
        alloc,
        archive,
        with,
        place,
    } = following;
    let mut places = with.followers.lock(*rt);
    places.set_replay(*place, None);
    if places.is_ended(*place) {
        replayer.release()
    } else {
        replayer.close(*rt, *alloc, *archive)
    }
}

/// Opens what a client asks for, as a replay of the archive whose frames are read beside its lock; or why not, and the pass.
fn begun<D: Disk, A: Naming, R: Wait, T: Reporter, E: Disk + Drop, O: Openings<E>>(
    following: &Following<'_, D, A, R, T>,
    openings: &O,
    mut pass: Pass<Made>,
    fields: &FollowFields,
) -> Result<Followed<E>, Unopened>
    requires { pass.table ≡ A.table }
    ensures begun { IfOk result (λ followed. IsBack pass followed.replayer.held.pass) }
    ensures back { IfErr result (λ un. IsBack pass un.pass) }
{
    if fields.position < -1 || fields.length < -1 {
        return Err(Unopened {
            pass,
            refusal: Refusal::BadParameter,
        });
    }
    let found = described(
        following.rt,
        following.alloc,
        following.archive,
        &mut pass,
        fields.recording,
    );
    match found {
        Ok(descriptor) => begun_of(following, openings, pass, descriptor, fields),
        Err(refusal) => Err(Unopened { pass, refusal }),
    }
}

/// Opens what a client asks for of a recording.
fn begun_of<D: Disk, A: Naming, R: Wait, T: Reporter, E: Disk + Drop, O: Openings<E>>(
    following: &Following<'_, D, A, R, T>,
    openings: &O,
    pass: Pass<Made>,
    descriptor: Descriptor,
    fields: &FollowFields,
) -> Result<Followed<E>, Unopened>
    requires { pass.table ≡ A.table }
    ensures begun { IfOk result (λ followed. IsBack pass followed.replayer.held.pass) }
    ensures back { IfErr result (λ un. IsBack pass un.pass) }
{
    let Following {
        rt,
        alloc,
        archive,
        ..
    } = following;
    let position = if fields.position == -1 {
        descriptor.start_position
    } else {
        fields.position
    };
    let stream = FollowedStream::of(&descriptor);
    let held = held_at(following, pass, &descriptor, position)?;
    let Some(disk) = openings.open_again(*alloc) else {
        return Err(unheld(following, held, Refusal::DeviceFault));
    };
    let begun = SettledReplayer::begin(
        *rt,
        *alloc,
        *archive,
        held,
        disk,
        descriptor,
        position,
        fields.length,
    );
    match begun {
        Ok(replayer) => Ok(Followed { replayer, stream }),
        Err(Unbegun { held, refusal }) => Err(unheld(following, held, refusal)),
    }
}

/// Opens a replay for a position, whose number is kept from all clients from then on.
fn held_at<D: Disk, A: Naming, R: Wait, T: Reporter>(
    following: &Following<'_, D, A, R, T>,
    pass: Pass<Made>,
    descriptor: &Descriptor,
    position: i64,
) -> Result<HeldReplay, Unopened>
    requires { pass.table ≡ A.table }
    ensures protected { IfOk result (λ held. held.from ≤ℤ position) }
    ensures recording { IfOk result (λ held. held.recording ≡ descriptor.now.recording) }
    ensures held { IfOk result (λ held. IsBack pass held.pass) }
    ensures back { IfErr result (λ un. IsBack pass un.pass) }
{
    let Following {
        rt,
        alloc,
        archive,
        with,
        place,
    } = following;
    let mut places = with.followers.lock(*rt);
    let held = open_in_term(*rt, *alloc, *archive, pass, descriptor, position)?;
    places.set_replay(*place, Some(held.number()));
    Ok(held)
}

/// Closes a replay from which no frames are sent: why, and the pass.
fn unheld<D: Disk, A: Naming, R: Wait, T: Reporter>(
    following: &Following<'_, D, A, R, T>,
    held: HeldReplay,
    refusal: Refusal,
) -> Unopened
    requires { held.pass.table ≡ A.table }
    ensures { IsBack held.pass result.pass }
{
    let mut places = following.with.followers.lock(following.rt);
    let pass = held.close(following.rt, following.alloc, following.archive);
    places.set_replay(following.place, None);
    Unopened { pass, refusal }
}
