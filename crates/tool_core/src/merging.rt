//! Lines to the merge of a replay and the live stream: docs/CONTROL.md, "Merging".

ghost use Rattle.std.specs.Prelude.{◌≡◌, pos};
ghost use Rattle.tool_core.specs.Merging.{MergeEnds, OpenEnds, IsOfferOrMemory, offer_reply, frame_at};
ghost use Rattle.merge_core.specs.Merge.{next_frame, after_take};

use archive_model::{PolledFrame, Reply, may_begin_at};
use control_lines::MergeLine;
use frame_core::limits::MAX_MTU;
use frame_core::{Frame, Geometry, Refusal, frames_of_datagram};
use merge_core::{Merge, Offered};
use std::alloc::Global;

/// Answers a line to a merge, if one was begun.
pub fn answer_merge(
    alloc: Global,
    merge: &mut Option<Merge>,
    line: &MergeLine,
) -> Result<Reply, Refusal>
    ensures { MergeEnds merge.old line.now result merge.new }
{
    if let MergeLine::Open {
        initial_term_id,
        term_length,
        position,
    } = line
    {
        return open(alloc, merge, initial_term_id, term_length, position);
    }
    let Some(merge) = merge else {
        return Err(Refusal::UnknownReplay);
    };
    match line {
        MergeLine::Replay(bytes) => {
            let frame = offer_of(alloc, bytes.as_slice())?;
            Ok(reply_of(merge.replay_frame(frame)?))
        }
        MergeLine::Live(bytes) => {
            let frame = offer_of(alloc, bytes.as_slice())?;
            Ok(reply_of(merge.live_frame(frame)?))
        }
        MergeLine::Take => Ok(Reply::Taken(take(merge))),
        MergeLine::State => Ok(state(merge)),
        MergeLine::Open { .. } => unreachable!("a merge is opened above"),
    }
}

/// Begins a merge anew.
fn open(
    alloc: Global,
    merge: &mut Option<Merge>,
    initial_term_id: &i32,
    term_length: &i32,
    position: &i64,
) -> Result<Reply, Refusal>
    ensures { OpenEnds merge.old initial_term_id.now term_length.now position.now result merge.new }
{
    if !may_begin_at(term_length, position) {
        return Err(Refusal::BadParameter);
    }
    let geometry = Geometry {
        initial_term_id: *initial_term_id,
        term_length: *term_length,
        mtu: MAX_MTU,
    };
    *merge = Some(Merge::new(alloc, geometry, *position));
    Ok(Reply::MergeOpened {
        position: *position,
    })
}

/// The frame whose datagram bytes are: `BadFrame` where they are no datagram, `BadBlock` where they are one of more
/// frames.
fn offer_of(alloc: Global, bytes: &[u8]) -> Result<Frame, Refusal>
    ensures { IsOfferOrMemory bytes.now result }
{
    let frames = frames_of_datagram(alloc, bytes)?;
    match frames.as_slice() {
        [frame] => frame.to_frame(alloc),
        _ => Err(Refusal::BadBlock),
    }
}

fn reply_of(offered: Offered) -> Reply
    ensures { offer_reply (Ok offered) ≡ Ok result }
{
    match offered {
        Offered::Held => Reply::Held,
        Offered::Ignored => Reply::Ignored,
        Offered::Full => Reply::Full,
    }
}

/// The next frame of the output, and where it begins.
fn take(merge: &mut Merge) -> Option<PolledFrame>
    ensures frame { result ≡ frame_at merge.old.cursor (next_frame merge.old) }
    ensures after { merge.new ≡ after_take merge.old }
{
    let position = merge.cursor();
    merge.take().map(|frame| PolledFrame { position, frame })
}

fn state(merge: &Merge) -> Reply
    ensures { result ≡ Reply.MergeState merge.now.is_merged (pos merge.now.cursor) }
{
    Reply::MergeState {
        is_merged: merge.is_merged(),
        cursor: merge.cursor(),
    }
}
