//! What a line of a reply is, by its beginning.

ghost use Rattle.std.specs.Prelude.{◌≡◌};
ghost use Rattle.control_client.specs.Replies.{ends_reply, goes_on, is_refusal};

/// Whether further lines of the same reply follow: the line of a recording, an image, a frame, an open replay or a sending.
fn goes_on(line: &[u8]) -> bool
    ensures { result ≡ goes_on line.now }
{
    line.starts_with(b"recording ")
        || line.starts_with(b"image ")
        || line.starts_with(b"frame ")
        || line.starts_with(b"open ")
        || line.starts_with(b"send ")
}

/// Whether the line is the last one of a reply to the line that was asked.
pub(crate) fn ends_reply(asked: &str, line: &[u8]) -> bool
    ensures { result ≡ ends_reply asked.now line.now }
{
    asked == "merge-take" || !goes_on(line)
}

/// Whether the line is a refusal.
pub(crate) fn is_refusal(line: &[u8]) -> bool
    ensures { result ≡ is_refusal line.now }
{
    line.starts_with(b"error ")
}
