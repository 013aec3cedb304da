//! What a call that was answered changes of the pairs. docs/ARCHITECTURE.md, "Images and recorder sessions".

ghost use Rattle.std.specs.Prelude.{◌≡◌};
ghost use Rattle.std.specs.List.{zip};
ghost use Rattle.server_state.specs.Noting.{after_noted, after_opening, after_settling, after_settling_to, after_settlings, after_stopping, extend_point, session_opened_at, seat_of_opening, settled_at, start_point};
ghost use Rattle.stream_pairs.specs.Pairs.{seat_of};

use archive_model::{ExtendFields, Reply, StartFields};
use control_core::{Event, Request};
use frame_core::{Geometry, Publication};
use stream_pairs::{Pairs, Seat, StreamPoint};

/// Notes a call that was answered Ok: a session that a start or an extension opened, positions that were settled, a recording
/// that was stopped, whose session's seat is given back, or not. Other calls change nothing.
pub(crate) fn note(pairs: &mut Pairs, gives_back: bool, event: &Event, reply: &Reply)
    ensures { pairs.new ≡ after_noted gives_back event.now reply.now pairs.old }
{
    match (event, reply) {
        (Event::Ask(Request::Start(fields)), Reply::Started { recording, session }) => {
            note_opened(pairs, gives_back, session, recording, start_point(fields));
        }
        (Event::Ask(Request::Extend(fields)), Reply::Extended { session }) => {
            note_opened(
                pairs,
                gives_back,
                session,
                &fields.recording,
                extend_point(fields),
            );
        }
        (Event::Settle { session }, Reply::Settled { position }) => {
            note_settled(pairs, session, position);
        }
        (Event::SettleAll { sessions }, Reply::SettledAll { positions }) => {
            note_group(pairs, sessions.as_slice(), positions.as_slice());
        }
        (
            Event::Ask(
                Request::Stop {
                    recording,
                    timestamp,
                },
            ),
            Reply::Stopped { position },
        ) => {
            let _ = timestamp;
            let _ = position;
            note_stopped(pairs, gives_back, recording);
        }
        _ => {}
    }
}

fn note_opened(
    pairs: &mut Pairs,
    gives_back: bool,
    session: &i64,
    recording: &i64,
    point: StreamPoint,
)
    ensures { pairs.new ≡ after_opening gives_back session.now recording.now point pairs.old }
{
    if *session >= 0 {
        let seat = seat_of_opening(pairs, gives_back, *session);
        note_seat(pairs, seat, *session, *recording, point);
    }
}

/// The seat of a session that was opened: that of its own number, or any that is free, if seats are given back.
fn seat_of_opening(pairs: &Pairs, gives_back: bool, session: i64) -> Option<Seat>
    ensures { result ≡ seat_of_opening gives_back session pairs.now }
{
    if gives_back {
        pairs.seat_for(session)
    } else {
        Some(session.unsigned_abs() as usize)
    }
}

fn note_seat(
    pairs: &mut Pairs,
    seat: Option<Seat>,
    session: i64,
    recording: i64,
    point: StreamPoint,
)
    ensures { pairs.new ≡ session_opened_at seat session recording point pairs.old }
{
    if let Some(seat) = seat {
        pairs.opened(seat, session, recording, point);
    }
}

fn note_settled(pairs: &mut Pairs, session: &i64, position: &i64)
    ensures { pairs.new ≡ after_settling session.now position.now pairs.old }
{
    settle(pairs, *session, *position);
}

/// Sessions are recorded, each up to its own position, if it has one.
fn note_group(pairs: &mut Pairs, sessions: &[i64], positions: &[Option<i64>])
    ensures { pairs.new ≡ after_settlings (zip sessions.now positions.now) pairs.old }
{
    for (session, position) in sessions.iter().zip(positions) {
        note_settled_to(pairs, session, position);
    }
}

fn note_settled_to(pairs: &mut Pairs, session: &i64, position: &Option<i64>)
    ensures { pairs.new ≡ after_settling_to session.now position.now pairs.old }
{
    if let Some(position) = position {
        note_settled(pairs, session, position);
    }
}

/// The session of a number is recorded up to a position.
pub(crate) fn settle(pairs: &mut Pairs, session: i64, position: i64)
    ensures { pairs.new ≡ settled_at (seat_of session pairs.old) position pairs.old }
{
    if let Some(seat) = pairs.seat_of(session) {
        pairs.settled(seat, position);
    }
}

fn note_stopped(pairs: &mut Pairs, gives_back: bool, recording: &i64)
    ensures { pairs.new ≡ after_stopping gives_back recording.now pairs.old }
{
    if gives_back {
        pairs.released(*recording);
    } else {
        pairs.stopped(*recording);
    }
}

/// Where a new recording stands.
fn start_point(fields: &StartFields) -> StreamPoint
    ensures { result ≡ start_point fields.now }
{
    StreamPoint {
        publication: Publication {
            session_id: fields.session_id,
            stream_id: fields.stream_id,
        },
        geometry: Geometry {
            initial_term_id: fields.initial_term_id,
            term_length: fields.term_length,
            mtu: fields.mtu,
        },
        position: fields.start_position,
    }
}

/// Where a recording stands that goes on.
fn extend_point(fields: &ExtendFields) -> StreamPoint
    ensures { result ≡ extend_point fields.now }
{
    StreamPoint {
        publication: Publication {
            session_id: fields.session_id,
            stream_id: fields.stream_id,
        },
        geometry: Geometry {
            initial_term_id: fields.initial_term_id,
            term_length: fields.term_length,
            mtu: fields.mtu,
        },
        position: fields.join_position,
    }
}
