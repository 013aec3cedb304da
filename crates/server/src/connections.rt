//! Connections, one after another, and their lines. docs/SERVING.md, "Control lines".

ghost use Rattle.std.specs.Prelude.{◌≡◌, ◌<◌, ◌↔◌, ◌⊎◌, Err, IfErr, IsFalse, IsSome, IsTrue, OnOk, false, true};
ghost use Rattle.std.specs.Io.KnownBytes.{Appends};
ghost use Rattle.frame_core.specs.declared.refusal.Refusal.TheVariants.{BadLine};
ghost use Rattle.tool_core.specs.Answering.{AnswersFirstLines, AnswersLines, EndsEarly, outcome_text};
ghost use Rattle.tool_core.specs.Transcript.{WritesText};

use crate::client::{Client, ClientReader, ClientWriter, is_timed};
use crate::consumer_reader::ConsumerReader;
use crate::first_bytes::FirstBytes;
use crate::followers::{Asked, Claim, Followers};
use crate::line_reader::LineReader;
use crate::listener::{Ending, SharedListener};
use crate::options::ServeOptions;
use crate::place::Places;
use crate::script_reader::{LONGEST_LINE, OwnLines, ScriptReader, WordedLine};
use crate::send_lines::answer_sending;
use crate::sendings::Sendings;
use archive_model::Reply;
use control_lines::{FollowFields, Line, parse_line, print_following, print_refusal};
use frame_core::Refusal;
use server_state::{ClientPlaces, Reporter, Shared};
use std::alloc::{AllocError, Global};
use std::io::{BufWriter, Read, Write};
use std::net::{SocketAddr, TcpStream, UdpSocket};
use std::rt::Clock;
use std::sync::Wait;
use std::time::Duration;
use tool_core::{Answerer, EarlyEnd, Observer, ScriptState, answer_lines, write_outcome};

/// Bytes of replies that are written at once at most, but for longer texts.
const WRITTEN_AT_ONCE: usize = 65_536;

/// Who answers the lines of connections.
pub(crate) trait Server: Answerer {
    ghost use Rattle.std.specs.Prelude.{◌≡◌, Bool};

    /// What the end of a connection makes of it, if the connection's replays are closed and if they are not.
    ghost ended: { Bool → Self → Self → Type 0 };

    /// A connection from this address begins, if that is known.
    fn begin_connection(&mut self, address: Option<SocketAddr>)
        ensures { self.new ≡ self.old };

    /// A connection has ended. Its replays are closed if `closes_replays`.
    fn end_connection(&mut self, alloc: Global, closes_replays: bool)
        ensures { ended closes_replays self.old self.new };
}

/// How clients are served.
#[derive(Clone, Copy)]
pub(crate) struct ClientOptions {
    /// For how long a client may be idle while another waits.
    pub idle: Duration,
    /// Whether the line `images` is answered.
    pub lists_images: bool,
    /// Whether the line `replays` is answered.
    pub lists_replays: bool,
    /// Whether the line `follow` is answered.
    pub follows: bool,
    /// Whether the lines `send`, `sends` and `stop-sending` are answered.
    pub sends: bool,
    /// Whether the replays that a connection leaves open are closed.
    pub closes_replays: bool,
    /// Whether one client is served at a time. Its merge goes on in the next connection.
    pub is_single: bool,
    /// Whether the line `checkpoint` is answered.
    pub offers_checkpoints: bool,
    /// Whether clients only read: no other line is answered, and `quit` ends their own connection alone.
    pub only_reads: bool,
}

impl ClientOptions {
    /// Those of the control port by these options, for so many clients and followers.
    pub fn of(options: &ServeOptions<'_>, places: &Places) -> ClientOptions
        ensures closes { IsTrue result.closes_replays ↔ IsSome options.now.clients }
        ensures single { IsTrue result.is_single ↔ (places.now.clients ≡ 1) }
        ensures images { IsTrue result.lists_images ↔ IsSome options.now.window }
        ensures replays { IsTrue result.lists_replays ↔ (IsTrue result.lists_images ⊎ IsFalse result.is_single) }
        ensures follows { IsTrue result.follows ↔ ((0 < places.now.followers)
            × (IsTrue result.lists_images ⊎ IsFalse result.is_single)) }
        ensures sends { result.sends ≡ result.lists_images }
        ensures checkpoints { result.offers_checkpoints ≡ options.now.makes_checkpoints }
        ensures reads { result.only_reads ≡ false }
    {
        let lists_images = options.window.is_some();
        let is_single = places.clients == 1;
        ClientOptions {
            idle: Duration::from_secs(options.idle_seconds),
            lists_images,
            lists_replays: lists_images || !is_single,
            follows: places.followers > 0 && (lists_images || !is_single),
            sends: lists_images,
            closes_replays: options.clients.is_some(),
            is_single,
            offers_checkpoints: options.makes_checkpoints,
            only_reads: false,
        }
    }

    /// Those of the port of consumers by these options, for so many followers.
    pub fn of_consumers(options: &ServeOptions<'_>, places: &Places) -> ClientOptions
        ensures closes { result.closes_replays ≡ true }
        ensures single { result.is_single ≡ false }
        ensures images { IsTrue result.lists_images ↔ IsSome options.now.window }
        ensures replays { result.lists_replays ≡ false }
        ensures follows { IsTrue result.follows ↔ (0 < places.now.followers) }
        ensures sends { result.sends ≡ false }
        ensures checkpoints { result.offers_checkpoints ≡ false }
        ensures reads { result.only_reads ≡ true }
    {
        ClientOptions {
            idle: Duration::from_secs(options.idle_seconds),
            lists_images: options.window.is_some(),
            lists_replays: false,
            follows: places.followers > 0,
            sends: false,
            closes_replays: true,
            is_single: false,
            offers_checkpoints: false,
            only_reads: true,
        }
    }
}

/// A port that lines come to, and how its clients are served.
#[derive(Drop)]
pub(crate) struct Port {
    pub listener: SharedListener,
    pub options: ClientOptions,
}

/// What the threads that serve connections share.
#[derive(Drop)]
pub(crate) struct Connections<T> {
    pub alloc: Global,
    pub shared: Shared<T>,
    /// Where datagrams come to.
    pub socket: UdpSocket,
    pub ending: Ending,
    /// Where control lines come to.
    pub control: Port,
    /// Where lines of clients come to that only read, if such clients are served.
    pub consumers: Option<Port>,
    /// How many clients are served at a time, and how many followers.
    pub places: Places,
    /// Connections that are sent frames, and recordings that are sent.
    pub followers: Followers,
    /// The places of recordings that are sent.
    pub sendings: Sendings,
}

impl<T: Reporter> Connections<T> {
    /// Whether serving has ended.
    pub fn has_ended(&self) -> bool {
        self.ending.has_ended(&self.shared)
    }

    /// How many clients of a port are served, where that is measured: at the control port.
    fn served_at(&self, port: &Port) -> Option<&ClientPlaces> {
        if port.options.only_reads {
            None
        } else {
            Some(&self.shared.meter.clients)
        }
    }

    /// The port whose connections a client's thread of this index serves: those of the first ones serve the control port's.
    pub fn port_of(&self, index: usize) -> &Port {
        match &self.consumers {
            Some(port) if index >= self.places.clients => port,
            _ => &self.control,
        }
    }
}

/// How the lines of a connection ended.
#[derive(Clone, Copy)]
enum ConnectionEnd {
    /// One quit.
    Quits,
    /// The client ended or failed, or is served no further.
    Ended,
    /// The client is sent frames from now on.
    Follows(Claim),
}

impl ConnectionEnd {
    /// That of lines of which one quit, or none.
    fn of(has_quit: bool) -> ConnectionEnd {
        if has_quit {
            ConnectionEnd::Quits
        } else {
            ConnectionEnd::Ended
        }
    }
}

/// Sees whether a line quits.
#[derive(Clone, Copy, Drop)]
struct QuitObserver {
    has_quit: bool,
}

impl Observer for QuitObserver {
    fn answered(&mut self, _line: Option<&[u8]>, outcome: &Result<Reply, Refusal>) {
        if let Ok(Reply::Bye) = outcome {
            self.has_quit = true;
        }
    }
}

/// Serves connections of a port, one after another, until the server ends. It ends if a line at the control port quits. If one
/// client is served at a time, the lines of each go on from the merge that those before it left.
pub(crate) fn serve_connections<R: Wait + Clock, T: Reporter, S: Server + Drop>(
    rt: &R,
    with: &Connections<T>,
    port: &Port,
    server: S,
) -> S {
    let mut state = ScriptState::new(server);
    let mut waiting = None;
    for _ in rt.forever() {
        let taken = port.listener.next(rt, &with.shared, &with.ending, waiting);
        let Some(stream) = taken else {
            return state.into_archive();
        };
        let served = with.served_at(port);
        if let Some(clients) = served {
            clients.begin();
        }
        let (after, next) = serve_stream(rt, with, port, stream, state);
        if let Some(clients) = served {
            clients.end();
        }
        state = after;
        waiting = next;
        if waiting.is_none() {
            port.listener.leave();
        }
    }
    unreachable!()
}

/// Serves a connection that was taken, and ends serving if a line quits, but for one of a client that only reads. The connection
/// that its place goes to, if it was idle for too long and that one waits.
fn serve_stream<'x, R: Wait + Clock, T: Reporter, S: Server + Drop>(
    rt: &'x R,
    with: &'x Connections<T>,
    port: &'x Port,
    stream: TcpStream,
    state: ScriptState<S>,
) -> (ScriptState<S>, Option<TcpStream>) {
    with.shared.counts.connections.add(1);
    if !is_timed(&stream) {
        return (state, None);
    }
    let client = Client::new(rt, with, port, stream);
    let mut state = state;
    state.archive.begin_connection(client.address());
    let (mut state, end) = serve_client(rt, with, port, &client, state);
    if matches!(end, ConnectionEnd::Quits) && !port.options.only_reads {
        with.ending.close(rt, Ok(()));
    }
    state
        .archive
        .end_connection(with.alloc, port.options.closes_replays);
    if !port.options.is_single {
        state.merge = None;
    }
    let next = client.take_next();
    if let ConnectionEnd::Follows(claim) = end {
        with.followers.hand(rt, &claim, client.into_stream());
    }
    (state, next)
}

/// Answers the lines of a client until one quits or follows, the client ends or fails, or is served no further. How they ended.
/// If its first bytes are another protocol's, that is answered, and nothing more of it is read.
fn serve_client<R: Wait + Clock, T: Reporter, S: Answerer>(
    rt: &R,
    with: &Connections<T>,
    port: &Port,
    client: &Client<'_, R, T>,
    state: ScriptState<S>,
) -> (ScriptState<S>, ConnectionEnd) {
    let writer = ClientWriter(client);
    let Ok(mut writer) = BufWriter::with_capacity(with.alloc, WRITTEN_AT_ONCE, writer) else {
        return (state, ConnectionEnd::Ended);
    };
    let mut reader = FirstBytes::new(ClientReader(client));
    match reader.are_foreign() {
        Ok(false) => {}
        Ok(true) => {
            let _ = refuse(with.alloc, &mut writer).is_ok() && writer.flush().is_ok();
            return (state, ConnectionEnd::Ended);
        }
        Err(_) => return (state, ConnectionEnd::Ended),
    }
    if !port.options.only_reads {
        return serve_reader(rt, with, &port.options, client, reader, &mut writer, state);
    }
    match ConsumerReader::new(with.alloc, reader) {
        Ok(reader) => serve_reader(rt, with, &port.options, client, reader, &mut writer, state),
        Err(_) => (state, ConnectionEnd::Ended),
    }
}

/// Answers the lines that a reader gives of a client, as `serve_client`.
fn serve_reader<R: Wait + Clock, T: Reporter, I: Read + Drop, W: Write, S: Answerer>(
    rt: &R,
    with: &Connections<T>,
    options: &ClientOptions,
    client: &Client<'_, R, T>,
    reader: I,
    writer: &mut W,
    state: ScriptState<S>,
) -> (ScriptState<S>, ConnectionEnd) {
    if options.lists_images || options.lists_replays || options.follows {
        return serve_scripts(rt, with, options, client, reader, writer, state);
    }
    let (state, _, has_quit) = answer_script(with.alloc, client, options, reader, writer, state);
    (state, ConnectionEnd::of(has_quit))
}

/// Answers the lines of a client as `serve_reader`, and between them those that the server answers by itself: `images`, `replays`
/// and `sends` by what there is, `follow` by a replay whose frames the client is sent, `send` and `stop-sending`.
fn serve_scripts<R: Wait + Clock, T: Reporter, I: Read + Drop, W: Write, S: Answerer>(
    rt: &R,
    with: &Connections<T>,
    options: &ClientOptions,
    client: &Client<'_, R, T>,
    reader: I,
    writer: &mut W,
    state: ScriptState<S>,
) -> (ScriptState<S>, ConnectionEnd) {
    let alloc = with.alloc;
    let taken = OwnLines {
        images: options.lists_images,
        replays: options.lists_replays,
        follow: options.follows,
        sends: options.sends,
    };
    let Ok(mut reader) = ScriptReader::new(alloc, reader, taken) else {
        return (state, ConnectionEnd::Ended);
    };
    let mut state = state;
    for _ in 0..u64::MAX {
        let (next, goes_on, has_quit) = answer_script(
            alloc,
            client,
            options,
            &mut reader,
            writer,
            state,
        );
        state = next;
        if has_quit || !goes_on || !client.reads_on() {
            return (state, ConnectionEnd::of(has_quit));
        }
        if let Some(end) = answer_own(rt, with, client, &mut reader, writer) {
            return (state, end);
        }
    }
    (state, ConnectionEnd::Ended)
}

/// Answers the line that comes next, if the server answers it by itself. How the lines end, if they do.
fn answer_own<R: Wait + Clock, T: Reporter, I: Read, W: Write>(
    rt: &R,
    with: &Connections<T>,
    client: &Client<'_, R, T>,
    reader: &mut ScriptReader<I>,
    writer: &mut W,
) -> Option<ConnectionEnd> {
    if reader.takes_images() {
        return put_text(client.images_text(with.alloc), writer);
    }
    if reader.takes_replays() {
        return put_text(client.replays_text(with.alloc), writer);
    }
    if reader.takes_sends() {
        return put_text(client.sends_text(with.alloc), writer);
    }
    let mut line = [0; LONGEST_LINE];
    let Some((worded, count)) = reader.take_worded(&mut line) else {
        return Some(ConnectionEnd::Ended);
    };
    answer_worded(rt, with, client, worded, &line[..count], writer)
}

/// Answers a line of several words. How the lines end, if they do.
fn answer_worded<R: Wait + Clock, T: Reporter, W: Write>(
    rt: &R,
    with: &Connections<T>,
    client: &Client<'_, R, T>,
    worded: WordedLine,
    line: &[u8],
    writer: &mut W,
) -> Option<ConnectionEnd> {
    match worded {
        WordedLine::Sending => match answer_sending(rt, with, line) {
            Ok(text) => put_text(Ok(text), writer),
            Err(refusal) => put_refusal(&refusal, writer),
        },
        WordedLine::Follow => match asked_by(with.alloc, line) {
            Ok(fields) => {
                let asked = Asked {
                    fields,
                    address: client.address(),
                    to: None,
                };
                answer_follow(rt, with, &asked, writer)
            }
            Err(refusal) => put_refusal(&refusal, writer),
        },
    }
}

/// What a line asks for that begins with `follow`.
fn asked_by(alloc: Global, line: &[u8]) -> Result<FollowFields, Refusal> {
    let line = line.strip_suffix(b"\n").unwrap_or(line);
    match parse_line(alloc, line)? {
        Line::Follow(fields) => Ok(fields),
        _ => Err(Refusal::BadLine),
    }
}

/// Answers the line `follow`. How the lines end, if they do: the client is sent frames from then on, or the answer did not go
/// out.
fn answer_follow<R: Wait + Clock, T: Reporter, W: Write>(
    rt: &R,
    with: &Connections<T>,
    asked: &Asked,
    writer: &mut W,
) -> Option<ConnectionEnd> {
    let (claim, position) = match with.followers.ask(rt, asked) {
        Ok(asked) => asked,
        Err(refusal) => return put_refusal(&refusal, writer),
    };
    if put_following(with.alloc, position, writer) {
        return Some(ConnectionEnd::Follows(claim));
    }
    with.followers.give_up(rt, &claim);
    Some(ConnectionEnd::Ended)
}

/// Writes the line behind which frames come. Whether it went out.
fn put_following<W: Write>(alloc: Global, position: i64, writer: &mut W) -> bool {
    match print_following(alloc, position) {
        Ok(text) => writer.write_all(text.as_slice()).is_ok() && writer.flush().is_ok(),
        Err(_) => false,
    }
}

/// Writes a refusal's line. How the lines end, if it did not go out.
fn put_refusal<W: Write>(refusal: &Refusal, writer: &mut W) -> Option<ConnectionEnd> {
    let line = print_refusal(refusal);
    if writer.write_all(line.as_bytes()).is_ok() && writer.flush().is_ok() {
        None
    } else {
        Some(ConnectionEnd::Ended)
    }
}

/// Answers the lines that a reader gives of a client, a line at a time if others are served meanwhile. Whether all were
/// answered, and whether one quit.
fn answer_script<R: Wait + Clock, T: Reporter, I: Read + Drop, W: Write, S: Answerer>(
    alloc: Global,
    client: &Client<'_, R, T>,
    options: &ClientOptions,
    reader: I,
    writer: &mut W,
    state: ScriptState<S>,
) -> (ScriptState<S>, bool, bool) {
    if options.is_single {
        let (state, outcome, has_quit) = answer_client(alloc, reader, writer, state);
        return (state, outcome.is_ok(), has_quit);
    }
    let Ok(reader) = LineReader::new(alloc, client, reader) else {
        return (state, false, false);
    };
    let (state, outcome, has_quit) = answer_client(alloc, reader, writer, state);
    (state, outcome.is_ok(), has_quit)
}

/// Writes the answer to a connection of another protocol.
fn refuse<W: Write>(alloc: Global, writer: &mut W) -> Result<(), EarlyEnd>
    ensures { OnOk result (Appends (W.contents writer.old) (W.contents writer.new) (outcome_text (Err BadLine))) }
{
    write_outcome(alloc, &Err(Refusal::BadLine), writer)
}

/// Writes an answer that the server gives by itself. How the lines end, if it did not go out.
fn put_text<W: Write>(text: Result<String, AllocError>, writer: &mut W) -> Option<ConnectionEnd> {
    let is_out = match text {
        Ok(text) => writer.write_all(text.as_bytes()).is_ok() && writer.flush().is_ok(),
        Err(_) => false,
    };
    if is_out {
        None
    } else {
        Some(ConnectionEnd::Ended)
    }
}

/// Answers the lines of a reader on a writer, as `answer_lines`, and whether one quit.
fn answer_client<R: Read + Drop, W: Write, S: Answerer>(
    alloc: Global,
    reader: R,
    writer: &mut W,
    state: ScriptState<S>,
) -> (ScriptState<S>, Result<(), EarlyEnd>, bool)
    ensures whole { OnOk result.1 (WritesText (R.remaining reader) (W.contents writer.old) (W.contents writer.new)
        (AnswersLines S.ways S.checkpoints state result.0)) }
    ensures early { IfErr result.1 (λ end. EndsEarly end (AnswersFirstLines S.ways S.checkpoints state result.0)
        (R.remaining reader) (W.contents writer.old) (W.contents writer.new)) }
{
    let mut observer = QuitObserver { has_quit: false };
    let (state, outcome) = answer_lines(alloc, reader, writer, state, &mut observer);
    (state, outcome, observer.has_quit)
}
