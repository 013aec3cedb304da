//! What is wrong with words of `serve`, `ask` and `when` that the command line itself allows. docs/CONTROL.md, "Standard error".

use std::fmt;

/// What is wrong with the words of `serve`, of `ask` or of `when`.
#[derive(Clone, Copy, Debug, PartialEq, Eq)]
pub enum UsageError {
    /// The word of `--receive-on` is no address.
    Address,
    /// The word of `--receive-on` is a multicast address.
    Multicast,
    /// The word of `--window` is not a multiple of 32 in its range.
    Window,
    /// `--window` comes without `--aeron`.
    NeedsAeron,
    /// `--record` comes without `--aeron`.
    RecordNeedsAeron,
    /// `--no-checkpoints` comes without `--aeron`.
    NoCheckpointsNeedsAeron,
    /// `--checkpoints` comes with `--no-checkpoints`.
    Checkpoints,
    /// `--record` comes too often.
    Streams,
    /// `--segment-length` comes without `--record`.
    NeedsRecord,
    /// The word of `--segment-length` is not a power of two in its range.
    SegmentLength,
    /// The word of `--name` is no name.
    Name,
    /// The word of `--consumers-on` is no address.
    ConsumersAddress,
    /// The word of `--consumers-on` is a multicast address.
    ConsumersMulticast,
    /// `--consumers-on` comes without `--consumers`.
    NeedsConsumers,
    /// `--from` comes without `--aeron`.
    FromNeedsAeron,
    /// `--from` comes too often.
    Networks,
    /// A word of `--from` is no network.
    Network,
    /// `--send-to` comes without `--aeron`.
    SendToNeedsAeron,
    /// `--send-to` comes too often.
    SendNetworks,
    /// A word of `--send-to` is no network.
    SendNetwork,
    /// The word of `--send-on` is no address.
    SendAddress,
    /// The word of `--send-on` is a multicast address.
    SendMulticast,
    /// `--send-on` comes without `--send-to`.
    NeedsSendTo,
    /// Lines may not be sent at once.
    Lines,
    /// A line is `follow`, whose answer is bytes.
    Follow,
    /// The word of `--until` is more than one line.
    Until,
    /// The word of a time names none.
    Time,
}

impl fmt::Display for UsageError {
    fn fmt<W: fmt::Write>(&self, f: &mut fmt::Formatter<W>) -> fmt::Result {
        f.write_str(match self {
            UsageError::Address => "--receive-on wants an IPv4 address",
            UsageError::Multicast => {
                "--receive-on wants an address of this machine, not a multicast address"
            }
            UsageError::Window => "--window wants a multiple of 32",
            UsageError::NeedsAeron => "--window needs --aeron",
            UsageError::RecordNeedsAeron => "--record needs --aeron",
            UsageError::NoCheckpointsNeedsAeron => "--no-checkpoints needs --aeron",
            UsageError::Checkpoints => "--checkpoints and --no-checkpoints contradict each other",
            UsageError::Streams => "--record may be given at most 64 times",
            UsageError::NeedsRecord => "--segment-length needs --record",
            UsageError::SegmentLength => "--segment-length wants a power of two",
            UsageError::Name => {
                "--name wants 1 to 64 of the characters A-Z, a-z, 0-9, _, . and -"
            }
            UsageError::ConsumersAddress => "--consumers-on wants an IPv4 address",
            UsageError::ConsumersMulticast => {
                "--consumers-on wants an address of this machine, not a multicast address"
            }
            UsageError::NeedsConsumers => "--consumers-on needs --consumers",
            UsageError::FromNeedsAeron => "--from needs --aeron",
            UsageError::Networks => "--from may be given at most 16 times",
            UsageError::Network => {
                "--from wants an IPv4 address, or one and a number of bits, as 10.1.0.0/16"
            }
            UsageError::SendToNeedsAeron => "--send-to needs --aeron",
            UsageError::SendNetworks => "--send-to may be given at most 16 times",
            UsageError::SendNetwork => {
                "--send-to wants an IPv4 address, or one and a number of bits, as 10.1.0.0/16"
            }
            UsageError::SendAddress => {
                "--send-on wants an IPv4 address, or one and a port, as 10.0.0.1:40200"
            }
            UsageError::SendMulticast => {
                "--send-on wants an address of this machine, not a multicast address"
            }
            UsageError::NeedsSendTo => "--send-on needs --send-to",
            UsageError::Lines => "lines have no line feed, and with their ends at most 65536 bytes",
            UsageError::Follow => "follow is answered by bytes, and not by lines alone",
            UsageError::Until => "--until wants a line without a line feed",
            UsageError::Time => {
                "a time is a date with its offset, as 2026-11-29T08:41:36.123Z, or milliseconds since 1970"
            }
        })
    }
}
