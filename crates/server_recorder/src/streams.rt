//! Publications that are recorded without being asked: what a recording of theirs is. docs/SERVING.md, "Recording without being
//! asked".

ghost use Rattle.std.specs.Prelude.{◌≡◌};
ghost use Rattle.server_recorder.specs.Streams.{continued, continues_recording, extend_fields, finding_for, found_before, is_passed_over, last_continued, last_resumable, last_stand, or_else, resumed_stand, segment_of, stand_before, stand_or_else, start_fields, stop_point, stopped_stand, tells_stand, told_stand};

use archive_model::{Channel, Descriptor, ExtendFields, SourceIdentity, StartFields};
use frame_core::{Geometry, Publication};
use server_state::{Resumes, Stand, is_one_stream, is_within_reach};
use stream_pairs::StreamPoint;

/// The recording that a publication goes on with which joined at a point, of recordings by rising id: the last that has its
/// stream, session id, terms and MTU, and was stopped there. Costs a step for each recording. Does not allocate.
#[tactic(auto, using(crate::proofs::StreamLemmas::last_more, crate::proofs::StreamLemmas::last_first))]
pub(crate) fn last_continued(recordings: &[Descriptor], point: &StreamPoint) -> Option<i64>
    ensures { result ≡ last_continued point.now recordings.now }
{
    let mut last = None;
    for (index, recording) in recordings.iter().enumerate() {
        let _ = index;
        last = or_else(continued(recording, point), last);
    }
    last
}

/// The recording that a publication goes on with which joined at a point, if that is this one.
fn continued(recording: &Descriptor, point: &StreamPoint) -> Option<i64>
    ensures { result ≡ continued point.now recording.now }
{
    if continues(recording, point) {
        Some(recording.recording)
    } else {
        None
    }
}

/// A recording, or else the other one.
fn or_else(recording: Option<i64>, other: Option<i64>) -> Option<i64>
    ensures { result ≡ or_else recording other }
{
    match recording {
        Some(recording) => Some(recording),
        None => other,
    }
}

/// Whether a publication that joined at a point goes on with a recording: this was stopped there.
fn continues(recording: &Descriptor, point: &StreamPoint) -> bool
    ensures { result ≡ continues_recording point.now recording.now }
{
    stop_point(recording).is_at(point)
}

/// Where a recording was stopped. Its position is -1 if it is active.
fn stop_point(recording: &Descriptor) -> StreamPoint
    ensures { result ≡ stop_point recording.now }
{
    StreamPoint {
        publication: Publication {
            session_id: recording.session_id,
            stream_id: recording.stream_id,
        },
        geometry: Geometry {
            initial_term_id: recording.initial_term_id,
            term_length: recording.term_length,
            mtu: recording.mtu,
        },
        position: recording.stop_position,
    }
}

/// What is found for an image that waits to be recorded.
#[derive(Clone, Copy, Debug, PartialEq, Eq)]
pub(crate) enum Finding {
    /// A recording was stopped where it joined, and goes on.
    Extends(i64),
    /// The last recording of its publication stands before its setup frame, within reach.
    StandsBefore(Stand),
    /// A recording begins where it joined.
    Begins,
}

/// What is found for an image that joined at a point, among recordings by rising id. Costs a step for each recording. Does not
/// allocate.
pub(crate) fn finding_for(
    recordings: &[Descriptor],
    point: &StreamPoint,
    resumes: Resumes,
) -> Finding
    ensures { result ≡ finding_for resumes point.now recordings.now }
{
    if let Some(recording) = last_continued(recordings, point) {
        return Finding::Extends(recording);
    }
    if !resumes.may_resume() {
        return Finding::Begins;
    }
    match last_resumable(recordings, point) {
        Some(stand) => Finding::StandsBefore(stand),
        None => Finding::Begins,
    }
}

/// Where the last recording of a publication stands, of recordings by rising id, if the publication may go on there which joined
/// at a point.
pub(crate) fn last_resumable(recordings: &[Descriptor], point: &StreamPoint) -> Option<Stand>
    ensures { result ≡ last_resumable point.now recordings.now }
{
    match last_stand(recordings, point) {
        Some(stand) if is_within_reach(point, stand.position) => Some(stand),
        _ => None,
    }
}

/// Where the last recording of a publication stands, of recordings by rising id, if it was stopped.
pub(crate) fn stand_before(recordings: &[Descriptor], point: &StreamPoint) -> Option<Stand>
    ensures { result ≡ stand_before point.now recordings.now }
{
    match last_stand(recordings, point) {
        Some(stand) if 0 <= stand.position => Some(stand),
        _ => None,
    }
}

/// Where the last recording stands that has a publication's stream, session id, terms and MTU. One is passed over if nothing was
/// recorded by it, and the publication can't go on there.
#[tactic(auto, using(crate::proofs::StandLemmas::stand_more, crate::proofs::StandLemmas::stand_first))]
fn last_stand(recordings: &[Descriptor], point: &StreamPoint) -> Option<Stand>
    ensures { result ≡ last_stand point.now recordings.now }
{
    let mut last = None;
    for (index, recording) in recordings.iter().enumerate() {
        let _ = index;
        last = stand_or_else(told_stand(recording, point), last);
    }
    last
}

/// Where a recording stands, if it says where a publication stands.
fn told_stand(recording: &Descriptor, point: &StreamPoint) -> Option<Stand>
    ensures { result ≡ told_stand point.now recording.now }
{
    if tells_stand(recording, point) {
        Some(Stand {
            recording: recording.recording,
            position: recording.stop_position,
        })
    } else {
        None
    }
}

fn tells_stand(recording: &Descriptor, point: &StreamPoint) -> bool
    ensures { result ≡ tells_stand point.now recording.now }
{
    is_one_stream(point, &stop_point(recording)) && !is_passed_over(recording, point)
}

/// Whether nothing was recorded, and a publication can't go on there.
fn is_passed_over(recording: &Descriptor, point: &StreamPoint) -> bool
    ensures { result ≡ is_passed_over point.now recording.now }
{
    recording.start_position == recording.stop_position
        && !is_within_reach(point, recording.stop_position)
}

fn stand_or_else(stand: Option<Stand>, other: Option<Stand>) -> Option<Stand>
    ensures { result ≡ stand_or_else stand other }
{
    match stand {
        Some(stand) => Some(stand),
        None => other,
    }
}

/// How a recording goes on at a point.
pub(crate) fn extend_fields(recording: i64, point: &StreamPoint) -> ExtendFields
    ensures { result ≡ extend_fields recording point.now }
{
    ExtendFields {
        recording,
        stream_id: point.publication.stream_id,
        session_id: point.publication.session_id,
        initial_term_id: point.geometry.initial_term_id,
        term_length: point.geometry.term_length,
        mtu: point.geometry.mtu,
        join_position: point.position,
    }
}

/// How a recording begins at a point. Its segments have so many bytes, or those of a term if that is longer.
pub(crate) fn start_fields(
    point: &StreamPoint,
    segment_length: i32,
    timestamp: i64,
    channel: Channel,
    source_identity: SourceIdentity,
) -> StartFields
    ensures { result ≡ start_fields point.now segment_length timestamp channel source_identity }
{
    StartFields {
        stream_id: point.publication.stream_id,
        session_id: point.publication.session_id,
        initial_term_id: point.geometry.initial_term_id,
        term_length: point.geometry.term_length,
        mtu: point.geometry.mtu,
        segment_length: segment_of(segment_length, point.geometry.term_length),
        start_position: point.position,
        timestamp,
        channel,
        source_identity,
    }
}

/// Bytes of a segment: so many, or those of a term if that is longer.
fn segment_of(length: i32, term_length: i32) -> i32
    ensures { result ≡ segment_of length term_length }
{
    length.max(term_length)
}
