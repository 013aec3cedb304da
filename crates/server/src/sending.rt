//! The threads that read what is sent as publications. docs/SERVING.md, "Send a recording".

ghost use Rattle.std.specs.Prelude.{◌≡◌, ◌≤ℤ◌, [], OnErr, OnOk, pos};
ghost use Rattle.disk_core.specs.DiskImage.{reads};
ghost use Rattle.recording_reads.specs.Handing.{HandsShown};
ghost use Rattle.recording_reads.specs.Settled.{seen_to};
ghost use Rattle.server.specs.Clients.{IsBack};
ghost use Rattle.server_sender.specs.Publishing.{KeepsRead};

use crate::followed_stream::FollowedStream;
use crate::followers::Asked;
use crate::following::{Followed, Following, freed, note_begun};
use crate::pushing::keep_up;
use crate::sendings::{ActiveSending, SendPlace};
use archive_lock::{Made, Naming};
use call_history::Pass;
use disk_core::Disk;
use frame_core::{Refusal, replay_bound};
use server_sender::{
    Endpoint, LastFrames, Publishing, ReadFrames, SendOver, SendProgress, SendRequest, SendState,
};
use server_state::{Happening, ReplayReader, Reporter, SendNews};
use settled_replays::SettledReplayer;
use std::rt::Clock;
use std::sync::Wait;
use std::thread;
use std::time::Duration;

/// Milliseconds that a thread waits for frames, or until those that it read are taken, at once at most.
const LOOK: u64 = 80;
/// Waits of 80 milliseconds after which frames that could not be read are asked for again.
const WAITS: u64 = 12;
/// Bytes of frames that are read at once, about.
const READ_AT_ONCE: i64 = 131_072;

/// What came of reading on.
#[derive(Clone, Copy, Debug, PartialEq, Eq)]
enum ReadOn {
    /// Frames were read, or none come any more: the thread that sends has it.
    Given,
    /// None is there at the moment.
    Nothing,
    /// They could not be read, and may be asked for again later.
    Later,
}

/// Sends a recording to an endpoint, until all of it is consumed, its receiver is gone, it is stopped, or the server ends: the pass.
pub(crate) fn send_recording<D: Disk, A: Naming, R: Wait + Clock, T: Reporter, E: Disk + Drop>(
    following: &Following<'_, D, A, R, T>,
    followed: Followed<E>,
    asked: &Asked,
    to: &Endpoint,
) -> Pass<Made>
    requires { followed.replayer.held.pass.table ≡ A.table }
    ensures { IsBack followed.replayer.held.pass result }
{
    let Following {
        rt,
        with,
        place,
        ..
    } = following;
    let Followed {
        mut replayer,
        stream,
    } = followed;
    let request = request_of(following, &replayer, &stream, asked, to);
    let number = match with.shared.sends.begin(*rt, &request) {
        Ok(number) => number,
        Err(refusal) => {
            let pass = freed(following, replayer);
            with.followers.answer(*rt, *place, Err(refusal));
            return pass;
        }
    };
    begin(following, &replayer, &stream, asked, &request, number);
    let answer = i64::try_from(number).unwrap_or(i64::MAX);
    with.followers.answer(*rt, *place, Ok(answer));
    let _ = with.followers.stream(*rt, *place).is_some();
    read_all(following, &stream, request.bound, &mut replayer);
    finish(following, replayer, number)
}

/// What is to be sent, and where to.
fn request_of<D: Disk, A: Naming, R, T, E: Disk + Drop>(
    following: &Following<'_, D, A, R, T>,
    replayer: &SettledReplayer<E>,
    stream: &FollowedStream,
    asked: &Asked,
    to: &Endpoint,
) -> SendRequest {
    let position = replayer.next_position();
    let bound = if asked.fields.length < 0 {
        -1
    } else {
        replay_bound(&position, &asked.fields.length)
    };
    SendRequest {
        recording: replayer.recording(),
        endpoint: *to,
        publication: stream.publication,
        position: position.unsigned_abs(),
        bound,
        place: following.place,
    }
}

/// A sending begins: its replay is noted among those that are open, and the thread that sends has it from now on.
fn begin<D: Disk, A: Naming, R: Wait + Clock, T: Reporter, E: Disk + Drop>(
    following: &Following<'_, D, A, R, T>,
    replayer: &SettledReplayer<E>,
    stream: &FollowedStream,
    asked: &Asked,
    request: &SendRequest,
    number: u64,
) {
    let Following {
        rt,
        alloc,
        with,
        place,
        ..
    } = following;
    note_begun(following, replayer, asked, ReplayReader::Send);
    with.shared.report(&Happening::Sending(SendNews::Began {
        send: number,
        recording: request.recording,
        to: request.endpoint.to_socket(),
        publication: request.publication,
        position: request.position,
    }));
    let now = with.sendings.now(*rt);
    let publishing = Publishing::new(
        *alloc,
        stream.geometry,
        stream.publication,
        request.position,
        now,
    );
    if let Some(place) = with.sendings.place(*place) {
        let noted = publishing.progress();
        place.put(
            *rt,
            ActiveSending {
                number,
                to: request.endpoint,
                mtu: stream.geometry.mtu,
                begun_at: now,
                publishing,
                read: ReadFrames::new(*alloc),
                noted,
                is_waiting_reported: false,
                over: None,
            },
        );
    }
    with.sendings.wake();
}

/// Reads the frames of a sending, those that come next before they are wanted, until it is over, a client asks to close its replay,
/// or the server ends.
fn read_all<D: Disk, A: Naming, R: Wait + Clock, T: Reporter, E: Disk + Drop>(
    following: &Following<'_, D, A, R, T>,
    stream: &FollowedStream,
    bound: i64,
    replayer: &mut SettledReplayer<E>,
)
    requires { replayer.old.held.pass.table ≡ A.table }
    ensures pass { IsBack replayer.old.held.pass replayer.new.held.pass }
{
    let Following { rt, with, .. } = following;
    let Some(place) = with.sendings.place(following.place) else {
        return;
    };
    let mut read = ReadFrames::new(following.alloc);
    for _ in rt.forever() {
        if is_to_end(following, place) {
            return;
        }
        if place.wait(*rt, LOOK) {
            let settled = with.shared.settles.count(*rt);
            match read_on(following, stream, bound, place, replayer, &mut read) {
                ReadOn::Given => with.sendings.wake(),
                ReadOn::Nothing => with.shared.settles.wait(*rt, settled, LOOK),
                ReadOn::Later => rest(following, place),
            }
        }
    }
    unreachable!()
}

/// Whether no more frames of a sending are read.
fn is_to_end<D: Disk, A: Naming, R: Wait + Clock, T: Reporter>(
    following: &Following<'_, D, A, R, T>,
    place: &SendPlace,
) -> bool {
    let Following { rt, with, .. } = following;
    with.has_ended() || with.followers.is_to_end(following.place) || place.is_over(*rt)
}

/// Waits about a second, whatever is settled meanwhile, unless the sending is over or is to end before.
fn rest<D: Disk, A: Naming, R: Wait + Clock, T: Reporter>(
    following: &Following<'_, D, A, R, T>,
    place: &SendPlace,
) {
    for _ in 0..WAITS {
        if is_to_end(following, place) {
            return;
        }
        thread::sleep(following.rt, Duration::from_millis(LOOK));
    }
}

/// Reads the next frames of a sending, whose frames before them are taken, and gives them to the thread that sends. The archive's
/// replay follows what is taken.
fn read_on<D: Disk, A: Naming, R: Wait + Clock, T: Reporter, E: Disk + Drop>(
    following: &Following<'_, D, A, R, T>,
    stream: &FollowedStream,
    bound: i64,
    place: &SendPlace,
    replayer: &mut SettledReplayer<E>,
    read: &mut ReadFrames,
) -> ReadOn
    requires { replayer.old.held.pass.table ≡ A.table }
    ensures pass { IsBack replayer.old.held.pass replayer.new.held.pass }
{
    keep_up(following, replayer);
    if let Err(refusal) = read_next(following, most_of(stream), replayer, read) {
        return refuse(following.rt, place, refusal);
    }
    if !read.is_empty() {
        place.give(following.rt, read);
        return ReadOn::Given;
    }
    if !replayer.is_done() {
        return ReadOn::Nothing;
    }
    let last = last_at(bound, replayer.next_position());
    place.give_last(following.rt, last);
    ReadOn::Given
}

/// How many frames of a stream are read at once at most.
fn most_of(stream: &FollowedStream) -> i64
    ensures { pos 1 ≤ℤ result }
{
    (READ_AT_ONCE / i64::from(stream.geometry.mtu.max(1))).clamp(1, 128)
}

/// Why no more frames come of a replay that is done.
fn last_at(bound: i64, position: i64) -> LastFrames {
    if bound >= 0 && bound <= position {
        LastFrames::Bound
    } else {
        LastFrames::Stopped
    }
}

/// Frames could not be read: none comes any more, unless the device failed or there is no memory.
fn refuse<R: Wait>(rt: &R, place: &SendPlace, refusal: Refusal) -> ReadOn {
    if matches!(refusal, Refusal::DeviceFault | Refusal::NoMemory) {
        return ReadOn::Later;
    }
    place.give_last(rt, LastFrames::Refused(refusal));
    ReadOn::Given
}

/// Reads the next frames of a replay, at most so many: they are settled. No lock of the sending is held meanwhile.
///
/// Refused as `SettledReplayer::turn`; then none are kept.
fn read_next<D: Disk, A: Naming, R: Wait, T: Reporter, E: Disk + Drop>(
    following: &Following<'_, D, A, R, T>,
    most: i64,
    replayer: &mut SettledReplayer<E>,
    read: &mut ReadFrames,
) -> Result<(), Refusal>
    requires table { replayer.old.held.pass.table ≡ A.table }
    requires some { pos 1 ≤ℤ most }
    ensures read { OnOk result (HandsShown KeepsRead read.old read.new (E.life replayer.new.reader.disk).obeys
        (reads (E.life replayer.old.reader.disk).now) (seen_to replayer.new.held.seen replayer.old.reader.cursor.known)
        replayer.old.reader.cursor.replay most replayer.new.reader.cursor.replay.next) }
    ensures none { OnErr result (read.new ≡ []) }
    ensures pass { IsBack replayer.old.held.pass replayer.new.held.pass }
{
    let turned = replayer.turn(following.rt, following.alloc, following.archive, most, read);
    if turned.is_err() {
        read.clear();
    }
    turned
}

/// Nothing is sent any more: closes the archive's replay, unless a client has asked for that and waits, leaves the place, and notes how
/// the sending ended: the pass.
fn finish<D: Disk, A: Naming, R: Wait + Clock, T: Reporter, E: Disk + Drop>(
    following: &Following<'_, D, A, R, T>,
    replayer: SettledReplayer<E>,
    number: u64,
) -> Pass<Made>
    requires { replayer.held.pass.table ≡ A.table }
    ensures { IsBack replayer.held.pass result }
{
    let Following { rt, with, .. } = following;
    let ended = match with.sendings.place(following.place) {
        Some(place) => place.take(*rt),
        None => None,
    };
    let replay = replayer.number();
    let pass = freed(following, replayer);
    with.shared.replays.close(*rt, replay);
    with.followers.leave(*rt, following.place);
    if let Some(ended) = ended {
        note_end(following, &ended);
    }
    with.shared.sends.end(*rt, number, SendState::Refused);
    pass
}

/// Notes and reports how a sending ended.
fn note_end<D: Disk, A: Naming, R: Wait, T: Reporter>(
    following: &Following<'_, D, A, R, T>,
    ended: &ActiveSending,
) {
    let Following { rt, with, .. } = following;
    let progress = ended.publishing.progress();
    with.shared.sends.note(*rt, ended.number, &progress);
    with.shared
        .sends
        .end(*rt, ended.number, state_after(&ended.over));
    if !with.has_ended() {
        with.shared
            .report(&Happening::Sending(news_of(ended, &progress)));
    }
}

/// How far a sending is that ended so.
fn state_after(over: &Option<SendOver>) -> SendState {
    match over {
        Some(SendOver::Done) => SendState::Done,
        Some(SendOver::Gone) => SendState::Gone,
        _ => SendState::Refused,
    }
}

/// What is reported of a sending that ended.
fn news_of(ended: &ActiveSending, progress: &SendProgress) -> SendNews {
    let send = ended.number;
    match ended.over {
        Some(SendOver::Done) => SendNews::Done {
            send,
            position: progress.position,
            consumed: progress.consumed,
            repeats: progress.repeats,
        },
        Some(SendOver::Gone) => SendNews::Gone {
            send,
            consumed: progress.consumed,
        },
        Some(SendOver::TooLong) => SendNews::TooLong {
            send,
            position: progress.position,
        },
        Some(SendOver::Refused(cause)) => SendNews::Failed {
            send,
            position: progress.position,
            cause,
        },
        None => SendNews::Closed {
            send,
            consumed: progress.consumed,
        },
    }
}
