//! What a follower is sent: frames as they are settled, and heartbeats. docs/PROTOCOL.md, "Following a recording".

ghost use Rattle.std.specs.Prelude.{◌≡◌, IsTrue, MatchOption};
ghost use Rattle.server.specs.Following.{IsSentOn, IsSentUntil, IsTold, sign_of};

use crate::followed_stream::FollowedStream;
use crate::follower_connection::FollowerConnection;
use crate::following::Following;
use archive_lock::Naming;
use disk_core::Disk;
use frame_core::Refusal;
use server_state::Reporter;
use settled_replays::{SentFrames, SettledReplayer, Sign, sign_at};
use std::io::Write;
use std::rt::Clock;
use std::sync::Wait;
use std::time::{Duration, Instant};

/// Milliseconds for which a thread waits for frames at once at most, so that a heartbeat goes out each 100.
const LOOK: u64 = 80;

/// How a follower's frames ended.
#[derive(Clone, Copy)]
pub(crate) enum FollowEnd {
    /// It was told that no frame comes any more.
    Done,
    /// It was told that no frame can be sent any more, for this reason.
    Failed(Refusal),
    /// The server ends, or a client asked to close the replay: what was sent was sent whole.
    Stopped,
    /// The connection is gone, or took too little: how much of what was written last went out isn't known.
    Gone,
}

/// Sends the frames of a replay as they are settled, and a heartbeat each 100 milliseconds while nothing comes, until there is no
/// more.
pub(crate) fn send_all<D: Disk, A: Naming, E: Disk + Drop, R: Wait + Clock, T: Reporter, W: Write>(
    following: &Following<'_, D, A, R, T>,
    stream: &FollowedStream,
    connection: &FollowerConnection<'_, R, T>,
    replayer: &mut SettledReplayer<E>,
    sent: &mut SentFrames,
    writer: &mut W,
) -> FollowEnd
    requires { replayer.old.held.pass.table ≡ A.table }
    ensures sent { IsSentUntil result stream.now (E.life replayer.old.reader.disk) (E.life replayer.new.reader.disk)
        replayer.old.reader.cursor replayer.new.reader.cursor (W.contents writer.old) (W.contents writer.new) }
    ensures pass { (replayer.new.held.pass.table ≡ replayer.old.held.pass.table)
        × (replayer.new.held.pass.number ≡ replayer.old.held.pass.number) }
{
    let mut quiet = Instant::now(following.rt).ok();
    for _ in following.rt.forever() {
        if !connection.goes_on() {
            return FollowEnd::Stopped;
        }
        let settled = following.with.shared.settles.count(following.rt);
        if let Some(end) = send_next(following, stream, replayer, sent, writer) {
            return end;
        }
        if sent.as_slice().is_empty() {
            connection.rest();
            if !keep_alive(following.rt, stream, replayer, &mut quiet, writer) {
                return FollowEnd::Gone;
            }
            following
                .with
                .shared
                .settles
                .wait(following.rt, settled, LOOK);
        } else {
            quiet = Instant::now(following.rt).ok();
        }
    }
    unreachable!()
}

/// Sends a heartbeat if one is due. Whether it went out, if so.
fn keep_alive<R: Clock, E: Disk + Drop, W: Write>(
    rt: &R,
    stream: &FollowedStream,
    replayer: &SettledReplayer<E>,
    quiet: &mut Option<Instant>,
    writer: &mut W,
) -> bool
    ensures { IsTrue result → IsSentOn stream.now (E.life replayer.now.reader.disk) (E.life replayer.now.reader.disk)
        replayer.now.reader.cursor replayer.now.reader.cursor (W.contents writer.old) (W.contents writer.new) }
{
    if !is_due(rt, *quiet) {
        return true;
    }
    *quiet = Instant::now(rt).ok();
    tell(stream, replayer, Sign::Alive, writer)
}

/// Whether nothing was sent for so long that a heartbeat is due. Where the clock can't be read one is.
fn is_due<R: Clock>(rt: &R, since: Option<Instant>) -> bool {
    match (since, Instant::now(rt)) {
        (Some(since), Ok(now)) => now.duration_since(since) >= Duration::from_millis(LOOK),
        _ => true,
    }
}

/// Sends the next frames of a replay, if there are any; how it ended, if there are none any more.
fn send_next<D: Disk, A: Naming, E: Disk + Drop, R: Wait, T: Reporter, W: Write>(
    following: &Following<'_, D, A, R, T>,
    stream: &FollowedStream,
    replayer: &mut SettledReplayer<E>,
    sent: &mut SentFrames,
    writer: &mut W,
) -> Option<FollowEnd>
    requires { replayer.old.held.pass.table ≡ A.table }
    ensures sent { MatchOption result
        (IsSentOn stream.now (E.life replayer.old.reader.disk) (E.life replayer.new.reader.disk)
        replayer.old.reader.cursor replayer.new.reader.cursor (W.contents writer.old) (W.contents writer.new))
        (λ end. IsSentUntil end stream.now (E.life replayer.old.reader.disk) (E.life replayer.new.reader.disk)
        replayer.old.reader.cursor replayer.new.reader.cursor (W.contents writer.old) (W.contents writer.new)) }
    ensures pass { (replayer.new.held.pass.table ≡ replayer.old.held.pass.table)
        × (replayer.new.held.pass.number ≡ replayer.old.held.pass.number) }
{
    let turned = replayer.send(
        following.rt,
        following.alloc,
        following.archive,
        stream.most,
        sent,
    );
    if let Err(refusal) = turned {
        return Some(end_by(stream, replayer, FollowEnd::Failed(refusal), writer));
    }
    keep_up(following, replayer);
    if writer.write_all(sent.as_slice()).is_err() {
        return Some(FollowEnd::Gone);
    }
    if sent.as_slice().is_empty() && replayer.is_done() {
        return Some(end_by(stream, replayer, FollowEnd::Done, writer));
    }
    None
}

/// Moves the archive's replay on as `move_on`, and notes where the next frame begins.
pub(crate) fn keep_up<D: Disk, A: Naming, E: Disk + Drop, R: Wait, T: Reporter>(
    following: &Following<'_, D, A, R, T>,
    replayer: &mut SettledReplayer<E>,
)
    requires { replayer.old.held.pass.table ≡ A.table }
    ensures reader { replayer.new.reader ≡ replayer.old.reader }
    ensures pass { (replayer.new.held.pass.table ≡ replayer.old.held.pass.table)
        × (replayer.new.held.pass.number ≡ replayer.old.held.pass.number) }
{
    let before = replayer.number();
    move_on(following, replayer);
    following.with.shared.replays.move_on(
        following.rt,
        before,
        replayer.number(),
        replayer.next_position(),
    );
}

/// Moves the archive's replay on, if the next frame is in a later segment, and keeps its new number from all clients; but not if
/// a client has asked to close it.
fn move_on<D: Disk, A: Naming, E: Disk + Drop, R: Wait, T: Reporter>(
    following: &Following<'_, D, A, R, T>,
    replayer: &mut SettledReplayer<E>,
)
    requires { replayer.old.held.pass.table ≡ A.table }
    ensures reader { replayer.new.reader ≡ replayer.old.reader }
    ensures pass { (replayer.new.held.pass.table ≡ replayer.old.held.pass.table)
        × (replayer.new.held.pass.number ≡ replayer.old.held.pass.number) }
{
    if !replayer.is_ahead() {
        return;
    }
    let mut places = following.with.followers.lock(following.rt);
    if !places.is_ended(following.place) {
        replayer.keep_up(following.rt, following.alloc, following.archive);
        places.set_replay(following.place, Some(replayer.number()));
    }
}

/// Tells a follower that its frames ended so. How they did, unless that did not go out.
fn end_by<E: Disk + Drop, W: Write>(
    stream: &FollowedStream,
    replayer: &SettledReplayer<E>,
    end: FollowEnd,
    writer: &mut W,
) -> FollowEnd
    ensures { IsSentUntil result stream.now (E.life replayer.now.reader.disk) (E.life replayer.now.reader.disk)
        replayer.now.reader.cursor replayer.now.reader.cursor (W.contents writer.old) (W.contents writer.new) }
{
    if tell(stream, replayer, sign_of(&end), writer) {
        end
    } else {
        FollowEnd::Gone
    }
}

/// What a follower is told whose frames ended so.
fn sign_of(end: &FollowEnd) -> Sign
    ensures { result ≡ sign_of end.now }
{
    match end {
        FollowEnd::Done => Sign::Ended,
        _ => Sign::Failed,
    }
}

/// Tells a follower something at the position that comes next. Whether it went out; a position without a term is told nothing.
fn tell<E: Disk + Drop, W: Write>(
    stream: &FollowedStream,
    replayer: &SettledReplayer<E>,
    sign: Sign,
    writer: &mut W,
) -> bool
    ensures { IsTrue result → IsTold stream.now sign replayer.now.reader.cursor.replay.next
        (W.contents writer.old) (W.contents writer.new) }
{
    let position = replayer.next_position().unsigned_abs();
    match sign_at(&stream.geometry, &stream.publication, position, sign) {
        Some(bytes) => writer.write_all(&bytes).is_ok(),
        None => true,
    }
}
