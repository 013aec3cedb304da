//! Copies of a desk, of a request and of a reply, so that a history of calls can keep them.

ghost use Rattle.std.specs.Prelude.{◌≡◌, IfErr, IfOk, OnErr};
ghost use Rattle.frame_core.specs.declared.refusal.Refusal.TheVariants.{NoMemory};
ghost use Rattle.control_core.specs.Copies.{IsLong};

use crate::desk::Desk;
use crate::request::{FindFields, Request};
use archive_model::{Descriptor, PolledFrame, Reply};
use frame_core::{Items, Refusal};
use std::alloc::{AllocError, Global};

impl Desk {
    /// A copy. Costs each recording with its channel and source, each session and each replay. `NoMemory`.
    pub fn copy(&self, alloc: Global) -> Result<Desk, Refusal>
        ensures same { IfOk result (λ copy. copy.state ≡ self.now.state) }
        ensures memory { IfErr result (λ refusal. refusal ≡ NoMemory) }
    {
        Ok(Desk {
            register: self.register.copy(alloc)?,
            sessions: self.sessions.copy(alloc)?,
            replays: self.replays.copy(alloc)?,
            counted: self.counted,
            limit: self.limit,
            version: self.version,
            is_broken: self.is_broken,
        })
    }
}

impl FindFields {
    /// A copy. Costs the fragment's length.
    pub fn copy(&self, alloc: Global) -> Result<FindFields, AllocError>
        ensures { IfOk result (λ copy. copy ≡ self.now) }
    {
        Ok(FindFields {
            least: self.least,
            stream_id: self.stream_id,
            session_id: self.session_id,
            fragment: self.fragment.copy(alloc)?,
        })
    }
}

impl Request {
    /// A copy. Costs the texts of a start's channel and source, and of a search's fragment.
    pub fn copy(&self, alloc: Global) -> Result<Request, AllocError>
        ensures { IfOk result (λ copy. copy ≡ self.now) }
    {
        Ok(match self {
            Request::Start(fields) => Request::Start(fields.copy(alloc)?),
            Request::Extend(fields) => Request::Extend(*fields),
            Request::Find(fields) => Request::Find(fields.copy(alloc)?),
            Request::Stop {
                recording,
                timestamp,
            } => Request::Stop {
                recording: *recording,
                timestamp: *timestamp,
            },
            Request::Truncate {
                recording,
                position,
            } => Request::Truncate {
                recording: *recording,
                position: *position,
            },
            Request::PurgeSegments {
                recording,
                position,
            } => Request::PurgeSegments {
                recording: *recording,
                position: *position,
            },
            Request::PurgeRecording { recording } => Request::PurgeRecording {
                recording: *recording,
            },
            Request::List { from, count } => Request::List {
                from: *from,
                count: *count,
            },
            Request::Positions { recording } => Request::Positions {
                recording: *recording,
            },
            Request::Source { recording } => Request::Source {
                recording: *recording,
            },
        })
    }
}

/// A copy of a reply. It takes memory, for texts, frames and positions of several recordings, only where the reply holds
/// some.
pub fn copy_reply(alloc: Global, reply: &Reply) -> Result<Reply, Refusal>
    ensures same { IfOk result (λ copy. copy ≡ reply.now) }
    ensures long { OnErr result (IsLong reply.now) }
    ensures memory { IfErr result (λ refusal. refusal ≡ NoMemory) }
{
    match reply {
        Reply::Recordings(descriptors) => {
            let copies = copy_descriptors(alloc, descriptors.as_slice())?;
            Ok(Reply::Recordings(copies))
        }
        Reply::Polled { frames, next } => {
            let frames = copy_frames(alloc, frames.as_slice())?;
            let next = *next;
            Ok(Reply::Polled { frames, next })
        }
        Reply::Taken(taken) => Ok(Reply::Taken(copy_taken(alloc, taken)?)),
        Reply::Source(text) => Ok(Reply::Source(text.copy(alloc)?)),
        Reply::SettledAll { positions } => {
            let positions = copy_positions(alloc, positions.as_slice())?;
            Ok(Reply::SettledAll { positions })
        }
        _ => Ok(copy_short(reply)),
    }
}

fn copy_positions(
    alloc: Global,
    positions: &[Option<i64>],
) -> Result<Items<Option<i64>>, AllocError>
    ensures { IfOk result (λ copies. copies ≡ positions.now) }
{
    Ok(Items::from_vec(positions.to_vec(alloc)?))
}

fn copy_descriptors(
    alloc: Global,
    descriptors: &[Descriptor],
) -> Result<Items<Descriptor>, AllocError>
    ensures { IfOk result (λ copies. copies ≡ descriptors.now) }
{
    let mut copies = Items::new(alloc);
    for descriptor in descriptors {
        copies.push(descriptor.copy(alloc)?)?;
    }
    Ok(copies)
}

fn copy_frames(alloc: Global, frames: &[PolledFrame]) -> Result<Items<PolledFrame>, Refusal>
    ensures same { IfOk result (λ copies. copies ≡ frames.now) }
    ensures memory { IfErr result (λ refusal. refusal ≡ NoMemory) }
{
    let mut copies = Items::new(alloc);
    for frame in frames {
        copies.push(copy_frame(alloc, frame)?)?;
    }
    Ok(copies)
}

fn copy_taken(alloc: Global, taken: &Option<PolledFrame>) -> Result<Option<PolledFrame>, Refusal>
    ensures same { IfOk result (λ copy. copy ≡ taken.now) }
    ensures memory { IfErr result (λ refusal. refusal ≡ NoMemory) }
{
    match taken {
        Some(frame) => Ok(Some(copy_frame(alloc, frame)?)),
        None => Ok(None),
    }
}

fn copy_frame(alloc: Global, polled: &PolledFrame) -> Result<PolledFrame, Refusal>
    ensures same { IfOk result (λ copy. copy ≡ polled.now) }
    ensures memory { IfErr result (λ refusal. refusal ≡ NoMemory) }
{
    Ok(PolledFrame {
        position: polled.position,
        frame: polled.frame.as_ref().to_frame(alloc)?,
    })
}

/// A copy of a reply without texts, frames and positions of several recordings.
fn copy_short(reply: &Reply) -> Reply
    requires { IsLong reply.now → ⊥ }
    ensures { result ≡ reply.now }
{
    match reply {
        Reply::Recordings(_)
        | Reply::Polled { .. }
        | Reply::Taken(_)
        | Reply::Source(_)
        | Reply::SettledAll { .. } => unreachable!(),
        Reply::Started { recording, session } => Reply::Started {
            recording: *recording,
            session: *session,
        },
        Reply::Extended { session } => Reply::Extended { session: *session },
        Reply::Written { position } => Reply::Written {
            position: *position,
        },
        Reply::Settled { position } => Reply::Settled {
            position: *position,
        },
        Reply::Stopped { position } => Reply::Stopped {
            position: *position,
        },
        Reply::Truncated { position } => Reply::Truncated {
            position: *position,
        },
        Reply::Purged { segments } => Reply::Purged {
            segments: *segments,
        },
        Reply::PurgedRecording => Reply::PurgedRecording,
        Reply::Found { recording } => Reply::Found {
            recording: *recording,
        },
        Reply::Positions {
            start,
            recorded,
            stop,
        } => Reply::Positions {
            start: *start,
            recorded: *recorded,
            stop: *stop,
        },
        Reply::ReplayOpened { replay } => Reply::ReplayOpened { replay: *replay },
        Reply::Closed => Reply::Closed,
        Reply::Swept { removed } => Reply::Swept { removed: *removed },
        Reply::Verified { frames } => Reply::Verified { frames: *frames },
        Reply::Reopened { recordings } => Reply::Reopened {
            recordings: *recordings,
        },
        Reply::Compacted => Reply::Compacted,
        Reply::Checkpointed => Reply::Checkpointed,
        Reply::MergeOpened { position } => Reply::MergeOpened {
            position: *position,
        },
        Reply::Held => Reply::Held,
        Reply::Ignored => Reply::Ignored,
        Reply::Full => Reply::Full,
        Reply::MergeState { is_merged, cursor } => Reply::MergeState {
            is_merged: *is_merged,
            cursor: *cursor,
        },
        Reply::Bye => Reply::Bye,
    }
}
