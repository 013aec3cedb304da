//! The words of `serve`: docs/SERVING.md, "How to run it".

ghost use Rattle.std.specs.Prelude.{◌≡◌, ℤ, IfOk, List, MatchOption, codes, false, map};
ghost use Rattle.clap.specs.Words.{found_of, rows_of, rule_of};
ghost use Rattle.command_line.specs.declared.serving.ServeWords.{ServeWords};
ghost use Rattle.command_line.specs.CommandLine.{AreNetworkTexts, AreNumbers, AreSendTexts, AreStreams, IsCommand, IsServing, address_option, clients_option, consumers_address_option, consumers_app, consumers_option, from_option, idle_option, metrics_option, name_option, port_option, segment_option, send_on_option, send_to_option, sends_app, serve_app, settle_option, stream_option, times_app, times_every_option, times_option, window_option, word_app};

use crate::command::{CHECKPOINTS_HELP, FOLDER_HELP, flag, required, waiting};
use clap::builder::ValueParser;
use clap::{Arg, ArgAction, ArgMatches, Command, value_parser};
use std::alloc::{AllocError, Global};

/// What `serve` is asked for. The folder and the address are words of the command line, as they were given.
#[derive(Debug, PartialEq, Eq, Drop)]
pub struct ServeWords<'a> {
    pub folder: &'a str,
    /// The TCP port of 127.0.0.1 that control lines come to.
    pub control: u32,
    /// The UDP port that datagrams come to.
    pub receive: u32,
    /// The address that datagrams come to.
    pub receive_on: &'a str,
    /// Seconds for which a client may be idle while another waits.
    pub idle: u32,
    /// Milliseconds for which a frame may wait to be settled with others.
    pub settle_every: u32,
    /// Whether the server sends status messages.
    pub is_aeron: bool,
    /// The greatest receiver window, in bytes. None: no word names it.
    pub window: Option<u32>,
    /// How many clients are served at a time. None: no word names it.
    pub clients: Option<u32>,
    /// The TCP port that lines of clients that only read come to. None: no word names it.
    pub consumers: Option<u32>,
    /// The address of that port. None: no word names it.
    pub consumers_on: Option<&'a str>,
    /// The ids of the streams that the server records by itself, in the order of the words.
    pub streams: Vec<i32>,
    /// The networks that datagrams are taken from, in the order of the words, as they were given.
    pub from: Vec<&'a str>,
    /// The networks that recordings may be sent to, in the order of the words, as they were given.
    pub send_to: Vec<&'a str>,
    /// The address that recordings are sent from, and perhaps a port, as it was given. None: no word names it.
    pub send_on: Option<&'a str>,
    /// Bytes of a segment file of these recordings. None: no word names it.
    pub segment_length: Option<u32>,
    /// Whether standard error reports faults alone.
    pub is_quiet: bool,
    /// Whether the server ends once it can record nothing.
    pub is_strict: bool,
    /// The file that the metrics are written to each second, as it was given. None: there is no such file.
    pub metrics: Option<&'a str>,
    /// The folder that times are written to, as it was given. None: there is no such folder.
    pub times: Option<&'a str>,
    /// Milliseconds between two lines of one recording's times at least.
    pub times_every: u32,
    /// Whether checkpoints are asked for.
    pub checkpoints: bool,
    /// Whether a word asks for none.
    pub no_checkpoints: bool,
    /// The name of this recorder, which its lines on standard error begin with, as it was given. None: they have none.
    pub name: Option<&'a str>,
    /// Whether each line on standard error begins with its time and a level.
    pub logs_times: bool,
    /// Whether a folder without an archive is refused.
    pub no_create: bool,
    /// Seconds for which the folder is waited for while it is in use. None: it is not waited for.
    pub wait: Option<u32>,
}

const SERVE_HELP: &str =
    "Records the datagrams of Aeron publications that come by UDP into the archive of a folder. It sends NAK frames for what is \
missing. With `--aeron` it also sends status messages, which Aeron's media drivers wait for. Control lines come by TCP, one \
connection after another or as many at a time as `--clients` says, and are answered as those of `run`. With `--aeron` or several clients \
`follow` and `replays` are answered too: `replays` says which replays are open, and whose. With `--aeron` and `--send-to` the line `send` sends a recording as a publication, to a subscriber or to another server. The line `quit` ends the server. Clients \
that only read may come to `--consumers`, also from other hosts. Standard error reports what happens. Control lines have no \
authentication, so they come to 127.0.0.1 alone. The folder has to be on a local file system, and one process may have it open at a time.";

const SERVE_EXAMPLE: &str =
    "Example: archive_tool serve /var/lib/recorder --control 8010 --receive 40123 --aeron

Statuses: 0 done, refused lines too, 1 refused, 2 a wrong command line, 3 a device fault or damage, or a port failed; with \
--strict also a server that can record nothing.";

const CONTROL_HELP: &str = "The TCP port of 127.0.0.1 that control lines come to";

const RECEIVE_HELP: &str = "The UDP port that datagrams come to";

const SETTLE_HELP: &str =
    "For how many milliseconds a frame may wait to be settled with others, from 0 to 1000";

const AERON_HELP: &str =
    "Sends status messages, as a receiver of the Aeron Transport Protocol Specification";

const WINDOW_HELP: &str =
    "The greatest receiver window, a multiple of 32 from 4096 to 1048576; without it 131072. It needs \
--aeron";

const CLIENTS_HELP: &str =
    "How many clients are served at a time, from 1 to 64; their replays are closed when they leave. \
Without it one, whose replays stay open: a client that polls without a pause then keeps all others out";

const CONSUMERS_HELP: &str =
    "A TCP port for clients that only read, 64 at a time: it answers list, find, positions, source, images, follow and quit";

const CONSUMERS_ON_HELP: &str =
    "The IPv4 address of that port, for clients on other hosts; without it 127.0.0.1. It needs --consumers";

const STREAM_HELP: &str =
    "A stream that the server records by itself, without a control line; for several streams give it several \
times, at most 64. It needs --aeron";

const FROM_HELP: &str =
    "An IPv4 address, or a network such as 10.1.0.0/16, that datagrams are taken from; for several give it several times, at most \
16. Without it they are taken from everywhere. It needs --aeron";

const SEND_TO_HELP: &str =
    "An IPv4 address, or a network such as 10.1.0.0/16, that the line `send` may send recordings to; for several give it several times, \
at most 16. Without it none is sent. It needs --aeron";

const SEND_ON_HELP: &str =
    "The IPv4 address that recordings are sent from, and a port, as 10.0.0.1:40200; without it that of --receive-on, and any port. \
It needs --send-to";

const SEGMENT_HELP: &str =
    "The length of the segment files of these recordings, a power of two from 65536 to 1073741824; without it \
134217728. It needs --record";

const QUIET_HELP: &str = "Prints faults alone on standard error";

const STRICT_HELP: &str =
    "Ends with status 3 once the archive can record nothing: it cannot be opened, a device fault broke it, or its history is \
full. Without it the server stays up, and answers lines";

const METRICS_HELP: &str =
    "A file that metrics are written to each second, in the text format of Prometheus, as a textfile collector reads it. It \
is written beside its place as <file>.part, and then renamed";

const TIMES_FOLDER_HELP: &str =
    "A folder in which it is noted when each recording stood where, a line for each that moved, as `when` reads it; it is no \
part of the archive";

const TIMES_EVERY_HELP: &str =
    "How many milliseconds are between two lines of one recording at least, from 10 to 60000";

const NO_CHECKPOINTS_HELP: &str =
    "Makes no checkpoints, which --aeron makes without being asked. It needs --aeron";

const NAME_HELP: &str =
    "The name of this recorder, 1 to 64 of the characters A-Z, a-z, 0-9, _, . and -: lines on standard error begin with it";

const TIMES_HELP: &str =
    "Begins each line on standard error with its time in UTC, and `error` or `info`";

const NO_CREATE_HELP: &str =
    "Refuses a folder without an archive, and makes nothing in it. Without it an empty folder gets a new archive";

/// A port of `serve`, which has to be given.
fn port<'a>(alloc: Global, name: &'a str, help: &'a str) -> Arg<'a>
    ensures rule { rule_of result ≡ port_option name.entry.now }
    ensures local { result.global ≡ false }
{
    Arg::new(alloc, name)
        .long(name)
        .value_name("port")
        .value_parser(ValueParser::signed(1, 65_535))
        .required(true)
        .help(help)
}

/// The option `--receive-on`, an address.
fn receive_on<'a>(alloc: Global) -> Arg<'a>
    ensures rule { rule_of result ≡ address_option }
    ensures local { result.global ≡ false }
{
    Arg::new(alloc, "receive-on")
        .long("receive-on")
        .value_name("address")
        .default_value("127.0.0.1")
        .help("The IPv4 address that datagrams come to, for senders on other hosts")
}

/// The option `--idle`, in seconds.
fn idle<'a>(alloc: Global) -> Arg<'a>
    ensures rule { rule_of result ≡ idle_option }
    ensures local { result.global ≡ false }
{
    Arg::new(alloc, "idle")
        .long("idle")
        .value_name("seconds")
        .value_parser(value_parser!(u32))
        .default_value("60")
        .help("For how long a client may be idle while another one waits")
}

/// The option `--settle-every`, in milliseconds.
fn settle_every<'a>(alloc: Global) -> Arg<'a>
    ensures rule { rule_of result ≡ settle_option }
    ensures local { result.global ≡ false }
{
    Arg::new(alloc, "settle-every")
        .long("settle-every")
        .value_name("milliseconds")
        .value_parser(ValueParser::signed(0, 1_000))
        .default_value("5")
        .help(SETTLE_HELP)
}

/// The option `--window`, in bytes.
fn window<'a>(alloc: Global) -> Arg<'a>
    ensures rule { rule_of result ≡ window_option }
    ensures local { result.global ≡ false }
{
    Arg::new(alloc, "window")
        .long("window")
        .value_name("bytes")
        .value_parser(ValueParser::signed(4_096, 1_048_576))
        .help(WINDOW_HELP)
}

/// The option `--clients`.
fn clients<'a>(alloc: Global) -> Arg<'a>
    ensures rule { rule_of result ≡ clients_option }
    ensures local { result.global ≡ false }
{
    Arg::new(alloc, "clients")
        .long("clients")
        .value_name("count")
        .value_parser(ValueParser::signed(1, 64))
        .help(CLIENTS_HELP)
}

/// The option `--consumers`, a port.
fn consumers<'a>(alloc: Global) -> Arg<'a>
    ensures rule { rule_of result ≡ consumers_option }
    ensures local { result.global ≡ false }
{
    Arg::new(alloc, "consumers")
        .long("consumers")
        .value_name("port")
        .value_parser(ValueParser::signed(1, 65_535))
        .help(CONSUMERS_HELP)
}

/// The option `--consumers-on`, an address.
fn consumers_on<'a>(alloc: Global) -> Arg<'a>
    ensures rule { rule_of result ≡ consumers_address_option }
    ensures local { result.global ≡ false }
{
    Arg::new(alloc, "consumers-on")
        .long("consumers-on")
        .value_name("address")
        .help(CONSUMERS_ON_HELP)
}

/// The option `--record`, a stream id, which may come several times.
fn stream<'a>(alloc: Global) -> Arg<'a>
    ensures rule { rule_of result ≡ stream_option }
    ensures local { result.global ≡ false }
{
    Arg::new(alloc, "record")
        .long("record")
        .value_name("stream id")
        .action(ArgAction::Append)
        .value_parser(value_parser!(i32))
        .help(STREAM_HELP)
}

/// The option `--from`, a network, which may come several times.
fn from<'a>(alloc: Global) -> Arg<'a>
    ensures rule { rule_of result ≡ from_option }
    ensures local { result.global ≡ false }
{
    Arg::new(alloc, "from")
        .long("from")
        .value_name("network")
        .action(ArgAction::Append)
        .help(FROM_HELP)
}

/// The option `--send-to`, a network, which may come several times.
fn send_to<'a>(alloc: Global) -> Arg<'a>
    ensures rule { rule_of result ≡ send_to_option }
    ensures local { result.global ≡ false }
{
    Arg::new(alloc, "send-to")
        .long("send-to")
        .value_name("network")
        .action(ArgAction::Append)
        .help(SEND_TO_HELP)
}

/// The option `--send-on`, an address and perhaps a port.
fn send_on<'a>(alloc: Global) -> Arg<'a>
    ensures rule { rule_of result ≡ send_on_option }
    ensures local { result.global ≡ false }
{
    Arg::new(alloc, "send-on")
        .long("send-on")
        .value_name("address")
        .help(SEND_ON_HELP)
}

/// The option `--segment-length`, in bytes.
fn segment_length<'a>(alloc: Global) -> Arg<'a>
    ensures rule { rule_of result ≡ segment_option }
    ensures local { result.global ≡ false }
{
    Arg::new(alloc, "segment-length")
        .long("segment-length")
        .value_name("bytes")
        .value_parser(ValueParser::signed(65_536, 1_073_741_824))
        .help(SEGMENT_HELP)
}

/// The option `--metrics`, a file.
fn metrics<'a>(alloc: Global) -> Arg<'a>
    ensures rule { rule_of result ≡ metrics_option }
    ensures local { result.global ≡ false }
{
    Arg::new(alloc, "metrics")
        .long("metrics")
        .value_name("file")
        .help(METRICS_HELP)
}

/// The option `--times`, a folder.
fn times<'a>(alloc: Global) -> Arg<'a>
    ensures rule { rule_of result ≡ times_option }
    ensures local { result.global ≡ false }
{
    Arg::new(alloc, "times")
        .long("times")
        .value_name("folder")
        .help(TIMES_FOLDER_HELP)
}

/// The option `--times-every`, in milliseconds.
fn times_every<'a>(alloc: Global) -> Arg<'a>
    ensures rule { rule_of result ≡ times_every_option }
    ensures local { result.global ≡ false }
{
    Arg::new(alloc, "times-every")
        .long("times-every")
        .value_name("milliseconds")
        .value_parser(ValueParser::signed(10, 60_000))
        .default_value("1000")
        .help(TIMES_EVERY_HELP)
}

/// The option `--name`, a text.
fn name<'a>(alloc: Global) -> Arg<'a>
    ensures rule { rule_of result ≡ name_option }
    ensures local { result.global ≡ false }
{
    Arg::new(alloc, "name")
        .long("name")
        .value_name("text")
        .help(NAME_HELP)
}

/// The command `serve` with its folder.
fn serve_folder<'a>(alloc: Global) -> Result<Command<'a>, AllocError>
    ensures { IfOk result (IsCommand (word_app (codes "serve") (codes "folder"))) }
{
    Command::new(alloc, "serve")
        .about("Records datagrams and answers control lines, until a line quits")
        .long_about(SERVE_HELP)
        .after_help(SERVE_EXAMPLE)
        .arg(required(alloc, "folder", FOLDER_HELP))
}

/// The command `serve` without the options of consumers, networks, sendings and times.
fn serve<'a>(alloc: Global) -> Result<Command<'a>, AllocError>
    ensures { IfOk result (IsCommand serve_app) }
{
    let command = serve_folder(alloc)?;
    command
        .arg(port(alloc, "control", CONTROL_HELP))?
        .arg(port(alloc, "receive", RECEIVE_HELP))?
        .arg(receive_on(alloc))?
        .arg(idle(alloc))?
        .arg(settle_every(alloc))?
        .arg(flag(alloc, "aeron", AERON_HELP))?
        .arg(window(alloc))?
        .arg(clients(alloc))?
        .arg(stream(alloc))?
        .arg(segment_length(alloc))?
        .arg(flag(alloc, "quiet", QUIET_HELP))?
        .arg(flag(alloc, "strict", STRICT_HELP))?
        .arg(metrics(alloc))?
        .arg(flag(alloc, "checkpoints", CHECKPOINTS_HELP))?
        .arg(flag(alloc, "no-checkpoints", NO_CHECKPOINTS_HELP))?
        .arg(name(alloc))?
        .arg(flag(alloc, "log-times", TIMES_HELP))?
        .arg(flag(alloc, "no-create", NO_CREATE_HELP))?
        .arg(waiting(alloc))
}

/// The command `serve` without the options of times and of sendings.
fn serve_consumers<'a>(alloc: Global) -> Result<Command<'a>, AllocError>
    ensures { IfOk result (IsCommand consumers_app) }
{
    let command = serve(alloc)?;
    command
        .arg(consumers(alloc))?
        .arg(consumers_on(alloc))?
        .arg(from(alloc))
}

/// The command `serve` without the options of times, with those of sendings.
fn serve_sends<'a>(alloc: Global) -> Result<Command<'a>, AllocError>
    ensures { IfOk result (IsCommand sends_app) }
{
    let command = serve_consumers(alloc)?;
    command.arg(send_to(alloc))?.arg(send_on(alloc))
}

/// The command `serve`.
pub(crate) fn serve_times<'a>(alloc: Global) -> Result<Command<'a>, AllocError>
    ensures { IfOk result (IsCommand times_app) }
{
    let command = serve_sends(alloc)?;
    command.arg(times(alloc))?.arg(times_every(alloc))
}

/// The words of `serve` that its matches hold. An error: there is no memory for the streams or the networks.
pub(crate) fn served<'a>(
    alloc: Global,
    own: &ArgMatches<'a>,
) -> Result<Option<ServeWords<'a>>, AllocError>
    ensures { IfOk result (λ served. MatchOption served
        ((words : ServeWords) → IsServing (rows_of (found_of own.now)) words → ⊥)
        (IsServing (rows_of (found_of own.now)))) }
{
    match streams_of(alloc, own)? {
        Some(streams) => Ok(words_of(
            own,
            streams,
            networks_of(alloc, own)?,
            send_networks_of(alloc, own)?,
        )),
        None => Ok(None),
    }
}

/// The texts of `--from` that matches hold, in their order.
fn networks_of<'a>(alloc: Global, own: &ArgMatches<'a>) -> Result<Vec<&'a str>, AllocError>
    ensures { IfOk result (λ texts. AreNetworkTexts (rows_of (found_of own.now)) (map (λ text. text.now) texts.items)) }
{
    match own.get_strs("from") {
        Some(texts) => Vec::from_slice(alloc, texts),
        None => Ok(Vec::new(alloc)),
    }
}

/// The texts of `--send-to` that matches hold, in their order.
fn send_networks_of<'a>(alloc: Global, own: &ArgMatches<'a>) -> Result<Vec<&'a str>, AllocError>
    ensures { IfOk result (λ texts. AreSendTexts (rows_of (found_of own.now)) (map (λ text. text.now) texts.items)) }
{
    match own.get_strs("send-to") {
        Some(texts) => Vec::from_slice(alloc, texts),
        None => Ok(Vec::new(alloc)),
    }
}

/// The streams of `--record` that matches hold, in their order. None if a text is not a stream id.
fn streams_of(alloc: Global, own: &ArgMatches<'_>) -> Result<Option<Vec<i32>>, AllocError>
    ensures { IfOk result (λ streams. MatchOption streams
        ((ids : List ℤ) → AreStreams (rows_of (found_of own.now)) ids → ⊥)
        (λ ids. AreStreams (rows_of (found_of own.now)) ids.items)) }
{
    match own.get_strs("record") {
        Some(texts) => numbers_of(alloc, texts),
        None => Ok(Some(Vec::new(alloc))),
    }
}

/// The numbers of texts, in their order. None if a text is not an i32.
fn numbers_of(alloc: Global, texts: &[&str]) -> Result<Option<Vec<i32>>, AllocError>
    ensures { IfOk result (λ numbers. MatchOption numbers
        ((given : List ℤ) → AreNumbers (map (λ text. text.now) texts.now) given → ⊥)
        (λ given. AreNumbers (map (λ text. text.now) texts.now) given.items)) }
{
    let mut numbers = Vec::new(alloc);
    for (index, text) in texts.iter().enumerate() {
        match text.parse::<i32>() {
            Ok(number) => numbers.push(number)?,
            Err(_) => return Ok(None),
        }
    }
    Ok(Some(numbers))
}

/// The words of `serve` that its matches hold, with these streams and networks.
fn words_of<'a>(
    own: &ArgMatches<'a>,
    streams: Vec<i32>,
    from: Vec<&'a str>,
    send_to: Vec<&'a str>,
) -> Option<ServeWords<'a>>
    requires streams { AreStreams (rows_of (found_of own.now)) streams.items }
    requires networks { AreNetworkTexts (rows_of (found_of own.now)) (map (λ text. text.now) from.items) }
    requires sends { AreSendTexts (rows_of (found_of own.now)) (map (λ text. text.now) send_to.items) }
    ensures { MatchOption result
        ((words : ServeWords) → IsServing (rows_of (found_of own.now)) words → ⊥)
        (IsServing (rows_of (found_of own.now))) }
{
    let folder = own.get_str("folder")?;
    let control = own.get_one::<u32>("control")?;
    let receive = own.get_one::<u32>("receive")?;
    let receive_on = own.get_str("receive-on")?;
    let idle = own.get_one::<u32>("idle")?;
    let settle_every = own.get_one::<u32>("settle-every")?;
    let times_every = own.get_one::<u32>("times-every")?;
    let is_aeron = own.get_flag("aeron");
    let window = own.get_one::<u32>("window");
    let clients = own.get_one::<u32>("clients");
    let consumers = own.get_one::<u32>("consumers");
    let consumers_on = own.get_str("consumers-on");
    let send_on = own.get_str("send-on");
    let segment_length = own.get_one::<u32>("segment-length");
    let is_quiet = own.get_flag("quiet");
    let is_strict = own.get_flag("strict");
    let metrics = own.get_str("metrics");
    let times = own.get_str("times");
    let checkpoints = own.get_flag("checkpoints");
    let no_checkpoints = own.get_flag("no-checkpoints");
    let name = own.get_str("name");
    let logs_times = own.get_flag("log-times");
    let no_create = own.get_flag("no-create");
    let wait = own.get_one::<u32>("wait");
    Some(ServeWords {
        folder,
        control,
        receive,
        receive_on,
        idle,
        settle_every,
        is_aeron,
        window,
        clients,
        consumers,
        consumers_on,
        streams,
        from,
        send_to,
        send_on,
        segment_length,
        is_quiet,
        is_strict,
        metrics,
        times,
        times_every,
        checkpoints,
        no_checkpoints,
        name,
        logs_times,
        no_create,
        wait,
    })
}
