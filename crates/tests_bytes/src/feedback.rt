//! Lines about what a receiver sends, and when: docs/PROTOCOL.md, "Status messages and NAKs of a receiver". README.md, "A receiver".

use crate::words::{int, natural, numbers, put_bytes, put_request, put_status};
use flow_control::{Feedback, SetupRequests, settled_bound, setup_request, window_of};
use frame_core::{Geometry, Publication, Refusal};
use image_core::BoundedImage;
use std::alloc::Global;

// The receiver's id in status messages.
const RECEIVER: i64 = 9;

/// What the sender of an image was sent, and the publications that were asked for a setup frame.
#[derive(Drop)]
pub(crate) struct Receiver {
    feedback: Feedback,
    requests: Option<SetupRequests>,
}

impl Receiver {
    /// The setup frame of the image came at 0, and nothing was sent.
    pub fn new() -> Receiver {
        Receiver {
            feedback: Feedback::new(0),
            requests: None,
        }
    }

    /// Adds what a line is answered, and returns whether its word is one of these.
    pub fn reply(
        &mut self,
        alloc: Global,
        out: &mut String,
        word: &str,
        rest: &str,
        image: Option<&BoundedImage>,
    ) -> Result<bool, Refusal> {
        match word {
            "window" => put_window(out, rest)?,
            "bound" => put_bound(out, rest)?,
            "setup-request" => put_setup_request(alloc, out, rest)?,
            "ask-setups" => self.put_asked(alloc, out, rest)?,
            "feedback" => {
                let (now, _, _, _) = numbers(rest)?;
                self.feedback = Feedback::new(natural(now)?);
            }
            "heard" => {
                let (now, _, _, _) = numbers(rest)?;
                self.feedback.hear(natural(now)?);
            }
            "live" => {
                let (now, _, _, _) = numbers(rest)?;
                let is_live = self.feedback.is_live(natural(now)?);
                out.push_str(if is_live { "live\n" } else { "silent\n" })?;
            }
            _ => return self.reply_of_image(alloc, out, word, rest, image),
        }
        Ok(true)
    }

    /// The same of a line about an image, which has to be there.
    fn reply_of_image(
        &mut self,
        alloc: Global,
        out: &mut String,
        word: &str,
        rest: &str,
        image: Option<&BoundedImage>,
    ) -> Result<bool, Refusal> {
        let Some(image) = image else {
            return Ok(false);
        };
        match word {
            "naks" => self.put_naks(alloc, out, rest, image)?,
            "status" => self.put_due(out, rest, image)?,
            _ => return Ok(false),
        }
        Ok(true)
    }

    /// Adds each NAK that is due from a time to another one, with its time.
    fn put_naks(
        &mut self,
        alloc: Global,
        out: &mut String,
        rest: &str,
        image: &BoundedImage,
    ) -> Result<(), Refusal> {
        let (first, last, _, _) = numbers(rest)?;
        for now in natural(first)?..=natural(last)? {
            if let Some(nak) = self.feedback.request(now, image) {
                write!(out, "at {now} ")?;
                put_request(alloc, out, Some(nak))?;
            }
        }
        Ok(())
    }

    /// Adds the status message that is due: the time, the bound of its window, and that of its position, if it is from 0 on.
    fn put_due(
        &mut self,
        out: &mut String,
        rest: &str,
        image: &BoundedImage,
    ) -> Result<(), Refusal> {
        let (now, most, bound, _) = numbers(rest)?;
        let bound = u64::try_from(bound).ok();
        match self
            .feedback
            .status(natural(now)?, image, int(most)?, bound, RECEIVER)
        {
            Some(status) => put_status(out, &status),
            None => Ok(out.push_str("status none\n")?),
        }
    }

    /// Adds how many publications of these session ids are asked for a setup frame: the first, the last, and the time.
    fn put_asked(&mut self, alloc: Global, out: &mut String, rest: &str) -> Result<(), Refusal> {
        if self.requests.is_none() {
            self.requests = Some(SetupRequests::new(alloc)?);
        }
        match &mut self.requests {
            Some(requests) => put_asked_of(out, requests, rest),
            None => Ok(()),
        }
    }
}

/// Adds how many publications are asked for a setup frame, and how many wait.
fn put_asked_of(out: &mut String, requests: &mut SetupRequests, rest: &str) -> Result<(), Refusal> {
    let (first, last, now, _) = numbers(rest)?;
    let now = natural(now)?;
    let (mut asked, mut waiting) = (0u64, 0u64);
    for session in int(first)?..=int(last)? {
        if requests.asks(&publication(session), now) {
            asked = asked.wrapping_add(1);
        } else {
            waiting = waiting.wrapping_add(1);
        }
    }
    writeln!(out, "asked {asked} waiting {waiting}")?;
    Ok(())
}

/// A publication of a session id.
fn publication(session_id: i32) -> Publication {
    Publication {
        session_id,
        stream_id: 1_001,
    }
}

/// Terms of so many bytes, and an MTU.
fn terms(term_length: i64, mtu: i64) -> Result<Geometry, Refusal> {
    Ok(Geometry {
        initial_term_id: 0,
        term_length: int(term_length)?,
        mtu: int(mtu)?,
    })
}

/// Adds the window of a publication: the bound, the term length and the MTU.
fn put_window(out: &mut String, rest: &str) -> Result<(), Refusal> {
    let (most, term_length, mtu, _) = numbers(rest)?;
    match window_of(&terms(term_length, mtu)?, int(most)?) {
        Some(window) => writeln!(out, "window {window}")?,
        None => writeln!(out, "no window")?,
    }
    Ok(())
}

/// Adds the bound by which nothing is admitted more than five sixteenths of a term past what is settled: the term length, the bound of
/// the window, and the settled position.
fn put_bound(out: &mut String, rest: &str) -> Result<(), Refusal> {
    let (term_length, most, settled, _) = numbers(rest)?;
    let settled = natural(settled)?.min(1 << 62);
    let bound = settled_bound(&terms(term_length, 1_408)?, int(most)?, settled);
    writeln!(out, "bound {bound}")?;
    Ok(())
}

/// Adds the request for a setup frame: the session id, and the receiver's id.
fn put_setup_request(alloc: Global, out: &mut String, rest: &str) -> Result<(), Refusal> {
    let (session, receiver, _, _) = numbers(rest)?;
    let request = setup_request(&publication(int(session)?), receiver);
    put_bytes(alloc, out, "bytes", &request.encode())
}
