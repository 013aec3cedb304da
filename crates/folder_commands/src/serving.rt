//! The command `serve`: its words, its ports, and the archive of its folder. docs/SERVING.md, "How to run it".

ghost use Rattle.std.specs.List.{list_all};
ghost use Rattle.std.specs.Prelude.{◌≡◌, ◌&&◌, ◌≤◌, ◌<◌, ◌↔◌, None, Some, IfErr, IfOk, IfSome, IsSomeAnd, IsTrue, MatchResult, option_map};
ghost use Rattle.disk_core.specs.DiskImage.{reads};
ghost use Rattle.disk_core.specs.Life.{IsQuiet};
ghost use Rattle.std.specs.IoError.{error_kind};
ghost use Rattle.std.specs.Thread.{IsSend, IsSync};
ghost use Rattle.clap.specs.declared.error.ErrorKind.TheVariants.{ValueValidation};
ghost use Rattle.host_disk.specs.Events.{Given};
ghost use Rattle.host_disk.specs.HostDisk.{host_life};
ghost use Rattle.folder_commands.specs.declared.status.Ending.TheVariants.{NoCommand, Failed};
ghost use Rattle.folder_commands.specs.declared.why.Why.TheVariants.{Usage};
ghost use Rattle.command_line.specs.declared.usage.UsageError.TheVariants.{Name};
ghost use Rattle.folder_commands.specs.Folders.{ending_in};
ghost use Rattle.folder_commands.specs.Left.{ends_with, leaves, left_life, sees};
ghost use Rattle.folder_commands.specs.Serving.{AreOptions, AsksForCheckpoints, HasBadCheckpoints, HasBadName, HasBadOptions, HasBadSegments, HasBadStreams, HasBadWindow, HasNoConsumersEnd, HasNoEnds, HasNoSendEnd, HasSegments, HasWindow, IsAddressReason, HasCatalogue, HasName, IsNoAddress, IsNoSendAddress, IsReceiverWindow, IsSegmentLength, IsUnbound, LacksCatalogue, LeavesUncatalogued, RecordsStreams, ServesFolder, ServesOver, checkpoints_reason, has_bytes, has_catalogue, is_name_byte, is_recorder_name, segment_reason, streams_reason, window_reason};

use crate::exit::Exit;
use crate::flushing::FolderFlusher;
use crate::hidden::warns_of_hidden_by;
use crate::log::{Log, now};
use crate::networks::{networks_of, send_networks_of};
use crate::open_folder::closed;
use crate::outcome::{Left, Outcome};
use crate::reporting::{Measured, MetricsFile, ServeFaults, ServeReporter};
use crate::status::Ending;
use crate::times_writer::TimesWriter;
use crate::waiting::disk_within;
use crate::why::Why;
use crate::writing::{Handing, Writing};
use archive_commands::{Stop, Watched};
use clap::error::ErrorKind;
use command_line::{CATALOGUE_VERSION, PROGRAM_VERSION, ServeWords, UsageError};
use disk_core::{Disk, Fault, FileId};
use flow_control::{INITIAL_WINDOW, LONGEST_WINDOW, SHORTEST_WINDOW};
use frame_core::Refusal;
use frame_core::limits::{FRAME_ALIGNMENT, MAX_TERM_LENGTH, MIN_TERM_LENGTH};
use host_disk::{HostDisk, ReadFolder};
use metrics_text::RecorderAbout;
use server::{
    Ends, Flusher, Openings, Reporter, SEGMENT_LENGTH, ServeOptions, Served, serve_flushing,
};
use std::alloc::Global;
use std::io::{self, Eprint};
use std::marker::Brand;
use std::net::{Ipv4Addr, Net, SocketAddrV4, TcpListener, TcpStream, UdpSocket};
use std::path::Path;
use std::random::RandomSource;
use std::rt::Clock;
use std::sync::Wait;
use std::thread::{self, Threads};

/// Bytes of a recorder's name at most.
const LONGEST_NAME: usize = 64;
/// Streams that `--record` may name at most.
const MOST_STREAMS: usize = 64;

/// Where control lines, datagrams and lines of consumers come to, and where recordings are sent from.
#[derive(Clone, Copy, Drop)]
struct Addresses {
    address: Ipv4Addr,
    control: u16,
    receive: u16,
    /// None: no consumers are served.
    consumers: Option<ConsumersEnd>,
    /// None: no recording is sent.
    sending: Option<(Ipv4Addr, u16)>,
}

/// Where lines of consumers come to.
#[derive(Clone, Copy, Drop)]
struct ConsumersEnd {
    address: Ipv4Addr,
    port: u16,
}

/// Serves the archive of a folder as the words ask for, until a line quits, and reports on standard error what happens. If the
/// words are wrong, no port is bound and the folder is not opened. The folder is opened before the ports are bound, so that a server
/// which waits for the one before it finds its ports free. It is reported if the archive's catalogue may hide entries; a strict
/// server does not open it then, and another one makes no checkpoint before its first line. With `--no-create` a folder without a
/// catalogue is refused.
pub(crate) fn serve<
    'a,
    R: Threads + Wait + Clock + Eprint + Net<Listener = TcpListener, Stream = TcpStream> + Sync,
>(net: &'a R, rt: HostRuntime, words: &ServeWords<'a>) -> Result<Left, Outcome>
    ghost given: { Given }
    ensures { ServesFolder given words.now (sees result) (leaves result) (ends_with result) }
{
    let options = options_of(words, receiver_id(&rt))?;
    let addresses = addresses_of(words)?;
    let folder = Path::new(words.folder);
    let disk = disk_within(rt, folder, words.wait)?;
    let ends = match bound(net, &addresses) {
        Ok(ends) => ends,
        Err(exit) => return Err(unserved(exit, disk)),
    };
    let looked = warns_of_hidden_by(rt, folder, &log_of(net, words));
    let begun = begun_with(options, looked.is_none());
    if let Some(looked) = looked {
        if words.is_strict {
            return Err(Outcome {
                exit: Exit::reported(Ending::Hidden),
                left: Some(disk.close()),
                looked: Some(looked),
            });
        }
    }
    let ready = with_catalogue(disk, words.no_create)?;
    let disk = Watched::new(ready, ServeFaults::new(rt.alloc(), log_of(net, words)));
    let (disk, done) = serve_reporting(net, rt, words, ends, disk, &begun);
    Outcome::leaving(done, closed(disk))
}

/// Serves the archive of a disk, that of the words' folder, with these options. What happens is reported, and what is measured
/// written, as the words ask for.
fn serve_reporting<'a, R: Threads + Wait + Clock + Eprint + Sync, D: Disk + Drop + Send>(
    net: &'a R,
    rt: HostRuntime,
    words: &ServeWords<'a>,
    ends: Ends,
    disk: D,
    options: &ServeOptions<'_>,
) -> (D, Result<(), Exit>)
    ensures { ServesOver options.now.is_strict (D.life disk) (D.life result.0) (ending_in result.1) }
{
    let mut digits = itoa::Buffer::new();
    let label = words.name.unwrap_or(digits.format(words.receive));
    let measured = measured_by(rt, words, label);
    let handing = Handing::new();
    let log = log_of(net, words);
    let reporter = ServeReporter::new(log, rt, words.is_quiet, measured, &handing);
    let folder = Path::new(words.folder);
    let flusher = FolderFlusher::<R, Brand>::new(log_of(net, words), rt, folder);
    let writing = writing_of(net, rt, words);
    serve_writing(
        net,
        rt.alloc(),
        ends,
        disk,
        options,
        reporter,
        &flusher,
        &handing,
        writing,
    )
}

/// The options of a server that makes no checkpoint before its first line if its catalogue may hide entries.
fn begun_with<'a>(options: ServeOptions<'a>, is_plain: bool) -> ServeOptions<'a>
    ensures { result ≡ record options.entry { begins_short = options.entry.begins_short && is_plain } }
{
    ServeOptions {
        begins_short: options.begins_short && is_plain,
        ..options
    }
}

/// A server ended so before it served the archive of a disk, which is closed.
fn unserved(exit: Exit, disk: HostDisk) -> Outcome
    ensures ending { result.exit.ending ≡ exit.ending }
    ensures left { left_life result.left ≡ Some (host_life disk) }
    ensures looked { result.looked ≡ None }
{
    Outcome {
        exit,
        left: Some(disk.close()),
        looked: None,
    }
}

/// The disk, if no catalogue is asked for, or there is one; else how a server ends that wants one. The disk is closed then.
fn with_catalogue(disk: HostDisk, must_exist: bool) -> Result<HostDisk, Outcome>
    ensures quiet { IfOk result (λ back. IsQuiet (host_life disk) (host_life back)) }
    ensures there { IfOk result (λ back.
        IsTrue must_exist → HasCatalogue (host_life disk) (host_life back)) }
    ensures lacks { IfErr result (λ outcome. LeavesUncatalogued must_exist (host_life disk)
        (left_life outcome.left) outcome.exit.ending) }
{
    if !must_exist {
        return Ok(disk);
    }
    let mut disk = disk;
    match has_catalogue(&mut disk) {
        Ok(true) => Ok(disk),
        Ok(false) => Err(unserved(
            Exit {
                ending: Ending::Refused(Refusal::NotCatalogue),
                why: Why::NoArchive,
            },
            disk,
        )),
        Err(_) => {
            let exit = Exit::stopped(Stop::Refused(Refusal::DeviceFault), disk.last_fault());
            Err(unserved(exit, disk))
        }
    }
}

/// Whether a disk has a catalogue: a bank with bytes.
fn has_catalogue<D: Disk>(disk: &mut D) -> Result<bool, Fault>
    ensures quiet { IsQuiet (D.life disk.old) (D.life disk.new) }
    ensures found { IfOk result (λ has. IsTrue (D.life disk.new).obeys → has ≡ has_catalogue (reads (D.life disk.old).now)) }
{
    let first = has_bytes(disk, FileId::BankA)?;
    let second = has_bytes(disk, FileId::BankB)?;
    Ok(first || second)
}

/// Whether a file of a disk has bytes.
fn has_bytes<D: Disk>(disk: &mut D, file: FileId) -> Result<bool, Fault>
    ensures quiet { IsQuiet (D.life disk.old) (D.life disk.new) }
    ensures found { IfOk result (λ has. IsTrue (D.life disk.new).obeys → has ≡ has_bytes file (reads (D.life disk.old).now)) }
{
    let bytes = disk.len(file)?;
    Ok(bytes > 0)
}

/// A random number for a receiver, so that no other one is likely to have it. 0 if the system gives none.
fn receiver_id(source: &impl RandomSource) -> i64 {
    let mut bytes = [0; 8];
    match source.fill_bytes(&mut bytes) {
        Ok(()) => i64::from_le_bytes(bytes),
        Err(_) => 0,
    }
}

/// The options of a server with this receiver's number that the words ask for. Refused if they name a bad receiver window, bad
/// streams or segments, or no name of a recorder.
fn options_of<'a>(words: &'a ServeWords<'_>, receiver_id: i64) -> Result<ServeOptions<'a>, Exit>
    ensures { MatchResult result
        (AreOptions words.now receiver_id)
        (λ exit. HasBadOptions words.now × (exit.ending ≡ NoCommand ValueValidation)) }
{
    let makes_checkpoints = makes_checkpoints(words)?;
    check_name(words)?;
    Ok(ServeOptions {
        idle_seconds: u64::from(words.idle),
        settle_every: u64::from(words.settle_every),
        window: window_of(words)?,
        receiver_id,
        clients: words.clients,
        streams: streams_of(words)?,
        networks: networks_of(words)?,
        send_to: send_networks_of(words)?,
        segment_length: segment_length_of(words)?,
        is_strict: words.is_strict,
        is_measured: words.metrics.is_some() || words.times.is_some(),
        makes_checkpoints,
        begins_short: makes_checkpoints,
    })
}

/// Refused if the name that the words give is no name of a recorder.
fn check_name(words: &ServeWords<'_>) -> Result<(), Exit>
    ensures named { MatchResult result (λ _. HasName words.now) (λ exit.
        HasBadName words.now × (exit.ending ≡ NoCommand ValueValidation)) }
    ensures why { IfErr result (λ exit. exit.why ≡ Usage Name) }
{
    match words.name {
        Some(name) if !is_recorder_name(name) => Err(misworded(UsageError::Name)),
        _ => Ok(()),
    }
}

/// Whether a text may be the name of a recorder.
fn is_recorder_name(text: &str) -> bool
    ensures { result ≡ is_recorder_name text.now }
{
    let bytes = text.as_bytes();
    1 <= bytes.len() && bytes.len() <= LONGEST_NAME && are_name_bytes(bytes)
}

/// Whether each of these bytes may stand in the name of a recorder.
fn are_name_bytes(bytes: &[u8]) -> bool
    ensures { result ≡ list_all is_name_byte bytes.now }
{
    bytes.iter().all(|byte| is_name_byte(*byte))
}

/// Whether a byte may stand in the name of a recorder: a letter or a digit of ASCII, `_`, `.` or `-`.
fn is_name_byte(byte: u8) -> bool
    ensures { result ≡ is_name_byte byte }
{
    (b'0' <= byte && byte <= b'9')
        || (b'A' <= byte && byte <= b'Z')
        || (b'a' <= byte && byte <= b'z')
        || byte == b'_'
        || byte == b'.'
        || byte == b'-'
}

/// The greatest receiver window that the words ask for, in bytes; None without `--aeron`. Refused if `--window` comes without
/// `--aeron`, or is not a multiple of 32 in its range.
fn window_of(words: &ServeWords<'_>) -> Result<Option<i32>, Exit>
    ensures window { MatchResult result (HasWindow words.now) (λ exit.
        HasBadWindow words.now × (exit.ending ≡ NoCommand ValueValidation)) }
    ensures why { IfErr result (λ exit. exit.why ≡ Usage (window_reason words.now.is_aeron)) }
{
    match words.window {
        None if words.is_aeron => Ok(Some(INITIAL_WINDOW)),
        None => Ok(None),
        Some(_) if !words.is_aeron => Err(misworded(UsageError::NeedsAeron)),
        Some(bytes) if is_receiver_window(bytes) => Ok(Some(bytes as i32)),
        Some(_) => Err(misworded(UsageError::Window)),
    }
}

/// Whether a server can have this receiver window, in bytes.
fn is_receiver_window(bytes: u32) -> bool
    ensures { IsTrue result ↔ IsReceiverWindow bytes }
{
    SHORTEST_WINDOW as u32 <= bytes
        && bytes <= LONGEST_WINDOW as u32
        && bytes % FRAME_ALIGNMENT as u32 == 0
}

/// The streams that the words name, in their order. Refused without `--aeron`, and if there are more than 64.
fn streams_of<'a>(words: &'a ServeWords<'_>) -> Result<&'a [i32], Exit>
    ensures streams { MatchResult result
        (λ streams. RecordsStreams words.now × (streams.now ≡ words.now.streams.items))
        (λ exit. HasBadStreams words.now × (exit.ending ≡ NoCommand ValueValidation)) }
    ensures why { IfErr result (λ exit. exit.why ≡ Usage (streams_reason words.now.is_aeron)) }
{
    let streams = words.streams.as_slice();
    if !words.is_aeron && !streams.is_empty() {
        return Err(misworded(UsageError::RecordNeedsAeron));
    }
    if streams.len() > MOST_STREAMS {
        return Err(misworded(UsageError::Streams));
    }
    Ok(streams)
}

/// The length of a segment file that the words ask for, in bytes. Refused if `--segment-length` comes without `--record`, or is
/// not a power of two in its range.
fn segment_length_of(words: &ServeWords<'_>) -> Result<i32, Exit>
    ensures length { MatchResult result (HasSegments words.now) (λ exit.
        HasBadSegments words.now × (exit.ending ≡ NoCommand ValueValidation)) }
    ensures why { IfErr result (λ exit. exit.why ≡ Usage (segment_reason words.now.streams.items)) }
{
    match words.segment_length {
        None => Ok(SEGMENT_LENGTH),
        Some(_) if words.streams.is_empty() => Err(misworded(UsageError::NeedsRecord)),
        Some(bytes) if is_segment_length(bytes) => Ok(bytes as i32),
        Some(_) => Err(misworded(UsageError::SegmentLength)),
    }
}

/// Whether a segment file can have so many bytes.
fn is_segment_length(bytes: u32) -> bool
    ensures { IsTrue result ↔ IsSegmentLength bytes }
{
    MIN_TERM_LENGTH as u32 <= bytes && bytes <= MAX_TERM_LENGTH as u32 && bytes.is_power_of_two()
}

/// Whether the words ask for checkpoints: with `--aeron` unless `--no-checkpoints` comes with it, without it by `--checkpoints`.
/// Refused if both words come, and if `--no-checkpoints` comes without `--aeron`.
fn makes_checkpoints(words: &ServeWords<'_>) -> Result<bool, Exit>
    ensures makes { MatchResult result
        (AsksForCheckpoints words.now.is_aeron words.now.checkpoints words.now.no_checkpoints)
        (λ exit. HasBadCheckpoints words.now × (exit.ending ≡ NoCommand ValueValidation)) }
    ensures why { IfErr result (λ exit. exit.why ≡ Usage (checkpoints_reason words.now.checkpoints)) }
{
    if words.checkpoints && words.no_checkpoints {
        return Err(misworded(UsageError::Checkpoints));
    }
    if words.no_checkpoints && !words.is_aeron {
        return Err(misworded(UsageError::NoCheckpointsNeedsAeron));
    }
    Ok(words.checkpoints || words.is_aeron && !words.no_checkpoints)
}

/// The words are wrong, for this reason.
pub(crate) fn misworded(error: UsageError) -> Exit
    ensures ending { result.ending ≡ NoCommand ValueValidation }
    ensures why { result.why ≡ Usage error }
{
    Exit {
        ending: Ending::NoCommand(ErrorKind::ValueValidation),
        why: Why::Usage(error),
    }
}

/// The address that a word names. Refused if it names none, or a multicast address, which no one machine has: for these reasons.
fn address_of(word: &str, none: UsageError, multicast: UsageError) -> Result<Ipv4Addr, Exit>
    ensures address { MatchResult result
        (λ _. IsNoAddress word.now → ⊥)
        (λ exit. IsNoAddress word.now × (exit.ending ≡ NoCommand ValueValidation)) }
    ensures why { IfErr result (λ exit. IsAddressReason none multicast word.now exit.why) }
{
    let Ok(address) = word.parse::<Ipv4Addr>() else {
        return Err(misworded(none));
    };
    if address.is_multicast() {
        return Err(misworded(multicast));
    }
    Ok(address)
}

/// Where lines of consumers come to: the port of `--consumers`, at the address of `--consumers-on`, or at 127.0.0.1. None without
/// a port. Refused if there is an address and no port, and if the words name no address or no port.
fn consumers_end(words: &ServeWords<'_>) -> Result<Option<ConsumersEnd>, Exit>
    ensures end { MatchResult result
        (λ _. HasNoConsumersEnd words.now → ⊥)
        (λ exit. HasNoConsumersEnd words.now × (exit.ending ≡ NoCommand ValueValidation)) }
    ensures port { IfOk result (λ end. option_map (λ e. e.port) end ≡ words.now.consumers) }
{
    let Some(port) = words.consumers else {
        if words.consumers_on.is_some() {
            return Err(misworded(UsageError::NeedsConsumers));
        }
        return Ok(None);
    };
    Ok(Some(ConsumersEnd {
        address: consumers_address(words)?,
        port: port_of(port)?,
    }))
}

/// The address that lines of consumers come to.
fn consumers_address(words: &ServeWords<'_>) -> Result<Ipv4Addr, Exit>
    ensures { MatchResult result
        (λ _. IfSome words.now.consumers_on (λ word. IsNoAddress word.now → ⊥))
        (λ exit. IsSomeAnd words.now.consumers_on (λ word. IsNoAddress word.now)
        × (exit.ending ≡ NoCommand ValueValidation)) }
{
    match words.consumers_on {
        None => Ok(Ipv4Addr::LOCALHOST),
        Some(word) => address_of(
            word,
            UsageError::ConsumersAddress,
            UsageError::ConsumersMulticast,
        ),
    }
}

/// The addresses and the ports that the words name. Refused if they name none.
fn addresses_of(words: &ServeWords<'_>) -> Result<Addresses, Exit>
    ensures { MatchResult result
        (λ _. HasNoEnds words.now → ⊥)
        (λ exit. HasNoEnds words.now × (exit.ending ≡ NoCommand ValueValidation)) }
{
    let address = address_of(words.receive_on, UsageError::Address, UsageError::Multicast)?;
    Ok(Addresses {
        address,
        control: port_of(words.control)?,
        receive: port_of(words.receive)?,
        consumers: consumers_end(words)?,
        sending: send_end(words, address)?,
    })
}

/// The address and the port that recordings are sent from: those of `--send-on`, or this address and any port. None without
/// `--send-to`. Refused if `--send-on` comes without it, or names no address.
fn send_end(words: &ServeWords<'_>, address: Ipv4Addr) -> Result<Option<(Ipv4Addr, u16)>, Exit>
    ensures { MatchResult result
        (λ _. HasNoSendEnd words.now → ⊥)
        (λ exit. HasNoSendEnd words.now × (exit.ending ≡ NoCommand ValueValidation)) }
{
    let is_any = !words.send_to.is_empty();
    match words.send_on {
        Some(_) if !is_any => Err(misworded(UsageError::NeedsSendTo)),
        Some(word) => Ok(Some(send_address(word)?)),
        None if is_any => Ok(Some((address, 0))),
        _ => Ok(None),
    }
}

/// The address that a word names, and its port, or 0.
fn send_address(word: &str) -> Result<(Ipv4Addr, u16), Exit>
    ensures { MatchResult result
        (λ _. IsNoSendAddress word.now → ⊥)
        (λ exit. IsNoSendAddress word.now × (exit.ending ≡ NoCommand ValueValidation)) }
{
    if let Ok(address) = word.parse::<SocketAddrV4>() {
        if address.ip().is_multicast() {
            return Err(misworded(UsageError::SendMulticast));
        }
        return Ok((*address.ip(), address.port()));
    }
    let address = address_of(word, UsageError::SendAddress, UsageError::SendMulticast)?;
    Ok((address, 0))
}

/// Binds the ports: control lines to 127.0.0.1 alone, datagrams, lines of consumers and sendings each to an address. Refused if the system
/// refuses one.
fn bound<R: Net<Listener = TcpListener, Stream = TcpStream>>(
    net: &R,
    addresses: &Addresses,
) -> Result<Ends, Exit>
    ensures { IfErr result (λ exit. IsUnbound exit.ending) }
{
    let control = listener_at(net, Ipv4Addr::LOCALHOST, addresses.control)?;
    let consumers = match addresses.consumers {
        Some(end) => Some(listener_at(net, end.address, end.port)?),
        None => None,
    };
    let sending = match addresses.sending {
        Some((address, port)) => Some(socket_at(net, address, port)?),
        None => None,
    };
    Ok(Ends {
        control,
        consumers,
        datagrams: socket_at(net, addresses.address, addresses.receive)?,
        sending,
    })
}

/// Binds a port for datagrams to an address. Refused if the system refuses it.
fn socket_at<R: Net<Listener = TcpListener, Stream = TcpStream>>(
    net: &R,
    address: Ipv4Addr,
    port: u16,
) -> Result<UdpSocket, Exit>
    ensures { IfErr result (λ exit. IsUnbound exit.ending) }
{
    match UdpSocket::bind(net, (address, port)) {
        Ok(socket) => Ok(socket),
        Err(error) => Err(unbound(port, error)),
    }
}

/// Binds a port for connections to an address. Refused if the system refuses it.
fn listener_at<R: Net<Listener = TcpListener, Stream = TcpStream>>(
    net: &R,
    address: Ipv4Addr,
    port: u16,
) -> Result<TcpListener, Exit>
    ensures { IfErr result (λ exit. IsUnbound exit.ending) }
{
    match TcpListener::bind(net, (address, port)) {
        Ok(listener) => Ok(listener),
        Err(error) => Err(unbound(port, error)),
    }
}

/// A port's number.
pub(crate) fn port_of(port: u32) -> Result<u16, Exit>
    ensures number { IfOk result (λ number. number ≡ port) }
    ensures wide { IfErr result (λ exit. (65535 < port) × (exit.ending ≡ NoCommand ValueValidation)) }
{
    match u16::try_from(port) {
        Ok(port) => Ok(port),
        Err(_) => Err(Exit::reported(Ending::NoCommand(ErrorKind::ValueValidation))),
    }
}

/// The system refuses a port.
fn unbound(port: u16, error: io::Error) -> Exit
    ensures { result.ending ≡ Failed (error_kind error) }
{
    Exit {
        ending: Ending::Failed(error.kind()),
        why: Why::Port(port, error),
    }
}

/// Where the lines of a server go whose words these are.
fn log_of<'a, R: Eprint + Clock>(net: &'a R, words: &ServeWords<'a>) -> Log<'a, R> {
    Log::new(net, words.name, words.logs_times)
}

/// What is measured for the files of the words, of a recorder with this label that begins now.
fn measured_by<'a>(rt: HostRuntime, words: &ServeWords<'_>, label: &'a str) -> Measured<'a> {
    let about = match words.metrics {
        Some(_) => Some(RecorderAbout {
            name: label,
            version: PROGRAM_VERSION,
            catalogue: CATALOGUE_VERSION,
            started_micros: now(&rt).unsigned_abs().saturating_mul(1_000),
        }),
        None => None,
    };
    let times_every = match words.times {
        Some(_) => Some(u64::from(words.times_every)),
        None => None,
    };
    Measured { about, times_every }
}

/// What writes the files of the words. None if they name none.
fn writing_of<'a, R: Eprint + Clock>(
    net: &'a R,
    rt: HostRuntime,
    words: &ServeWords<'a>,
) -> Option<Writing<'a, R>> {
    if words.metrics.is_none() && words.times.is_none() {
        return None;
    }
    let metrics = match words.metrics {
        Some(name) => Some(MetricsFile::new(rt, name)),
        None => None,
    };
    let times = match words.times {
        Some(folder) => {
            let every = u64::from(words.times_every);
            Some(TimesWriter::new(log_of(net, words), rt, folder, every))
        }
        None => None,
    };
    Some(Writing {
        log: log_of(net, words),
        metrics,
        times,
    })
}

/// Serves the archive of a disk as `serve_disk`, next to a thread that writes what is handed on, if there is any. Without memory for
/// a thread nothing is written.
fn serve_writing<
    R: Threads + Wait + Clock + Eprint + Sync,
    D: Disk + Drop + Send,
    T: Reporter + Drop + Send + Sync,
    F: Flusher + Openings<ReadFolder> + Send + Sync,
>(
    net: &R,
    alloc: Global,
    ends: Ends,
    disk: D,
    options: &ServeOptions<'_>,
    reporter: T,
    flusher: &F,
    handing: &Handing,
    writing: Option<Writing<'_, R>>,
) -> (D, Result<(), Exit>)
    ensures { ServesOver options.now.is_strict (D.life disk) (D.life result.0) (ending_in result.1) }
{
    let Some(mut writing) = writing else {
        return serve_disk(net, alloc, ends, disk, options, reporter, flusher);
    };
    thread::scope(
        thread::scope_env(),
        net,
        |scope| -> (D, Result<(), Exit>)
            requires shared { IsSend D.row × IsSend T.row × IsSend F.row × IsSync F.row × IsSync R.row × IsSync T.row }
            ensures { ServesOver options.entry.now.is_strict (D.life disk) (D.life result.0) (ending_in result.1) }
        {
            let writer = scope.spawn(move || writing.write_all(net, handing, flusher));
            let served = serve_disk(net, alloc, ends, disk, options, reporter, flusher);
            handing.end(net);
            if let Ok(writer) = writer {
                writer.join(net);
            }
            served
        },
    )
}

/// Serves the archive of a disk with these options until a line quits, or a strict server can record nothing. The disk comes
/// back.
fn serve_disk<
    R: Threads + Wait + Clock + Sync,
    D: Disk + Drop + Send,
    T: Reporter + Drop + Send + Sync,
    F: Flusher + Openings<ReadFolder> + Send + Sync,
>(
    net: &R,
    alloc: Global,
    ends: Ends,
    disk: D,
    options: &ServeOptions<'_>,
    reporter: T,
    flusher: &F,
) -> (D, Result<(), Exit>)
    ensures { ServesOver options.now.is_strict (D.life disk) (D.life result.0) (ending_in result.1) }
{
    let served = serve_flushing::<R, D, T, ReadFolder, F>(
        net, alloc, ends, disk, options, reporter, flusher,
    );
    match served {
        Ok(Served { disk, stop }) => match stop {
            None => (disk, Ok(())),
            Some(stop) => (disk, Err(Exit::reported(Ending::Stuck(stop)))),
        },
        Err(fault) => {
            let (disk, exit) = Exit::cut_off(fault, Why::Ends);
            (disk, Err(exit))
        }
    }
}
