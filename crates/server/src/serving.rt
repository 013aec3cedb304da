//! The archive of a disk behind a control listener and a socket of datagrams. docs/SERVING.md.

ghost use Rattle.std.specs.Prelude.{◌≡◌, ◌+◌, ◌≤◌, [], Err, if◌then◌else◌, IfErr, IfOk, IsOk, MatchResult, vec_capacity, vec_len};
ghost use Rattle.archive_lock.specs.Held.{engine_seen, view_of};
ghost use Rattle.engine_core.specs.Seen.{seen};
ghost use Rattle.tool_core.specs.Archives.{archive_seen, disk_of, early_end_of};
ghost use Rattle.tool_core.specs.declared.fault.EarlyEnd.TheVariants.{Memory, Read};
ghost use Rattle.server_recorder.specs.Seats.{AreAllPasses, AreClientPasses};
ghost use Rattle.std.specs.Thread.{IsSend, IsSync};
ghost use Rattle.server.specs.Serving.{EndsHistory, EndsOrLacks, EndsUpTo, IsServed, IsServedAs, IsServedUpTo};

use crate::clients::{serve_clients, serve_unopened};
use crate::connections::{ClientOptions, Connections, Port};
use crate::ends::Ends;
use crate::followers::Followers;
use crate::following::{FrameSender, ReadSender};
use crate::listener::{Ending, SharedListener};
use crate::openings::Openings;
use crate::options::ServeOptions;
use crate::place::{CONSUMERS, Places};
use crate::sender_thread::send_all;
use crate::sendings::Sendings;
use crate::served::{Served, stuck_by, unopened_stop};
use archive_lock::{Closed, Made, Naming, SharedArchive};
use call_history::{Opened, Pass};
use disk_core::{Disk, MemoryDisk};
use engine_core::Engine;
use frame_core::limits::LONGEST_DATAGRAM;
use server_receiver::{Images, Networks, Receiver, Reception, Senders, TENDING};
use server_recorder::{
    Flusher, OwnRecordings, Recording, SeatRoom, Seats, Unflushed, begin_short, parted, record_all,
};
use server_state::{
    ArchiveNews, FedBlock, Happening, MAX_QUEUED, Reporter, Shared, SharedOptions, Unreported,
};
use std::alloc::{AllocError, Global};
use std::collections::VecDeque;
use std::marker::Brand;
use std::net::{TcpListener, UdpSocket};
use std::rt::Clock;
use std::sync::Wait;
use std::thread::{self, Threads};
use std::time::Duration;
use tool_core::{Beginning, EarlyEnd, ScriptArchive, ScriptFault};

/// Milliseconds after which a read of the socket ends, if the server is no receiver of the public standard.
const READ_TIMEOUT: u64 = 100;

/// What all of a server works with: where datagrams come to, and what its threads share.
#[derive(Drop)]
struct Serving<'a, R, T, F> {
    rt: &'a R,
    alloc: Global,
    socket: &'a UdpSocket,
    /// How many clients are served at a time.
    places: Places,
    /// Milliseconds for which a block waits for its settling at most.
    settle_every: u64,
    /// Streams whose publications are recorded without being asked, and how.
    streams: &'a [i32],
    segment_length: i32,
    /// The networks that datagrams are taken from.
    networks: Networks,
    /// Whether the server ends once it can record nothing.
    is_strict: bool,
    /// Whether a checkpoint is made before the first line.
    begins_short: bool,
    shared: &'a Shared<T>,
    /// What the threads that serve clients share.
    lines: &'a Connections<T>,
    /// What flushes segment files beside the archive.
    flusher: &'a F,
}

/// What threads work with, beside what they share.
#[derive(Drop)]
struct Tools {
    images: Images,
    senders: Option<Senders>,
    buffer: Vec<u8>,
    batch: VecDeque<FedBlock>,
}

impl Tools {
    fn new(alloc: Global, options: &ServeOptions<'_>) -> Result<Tools, AllocError> {
        Ok(Tools {
            images: Images::new(alloc),
            senders: senders_for(alloc, options)?,
            buffer: vec![in alloc; 0; LONGEST_DATAGRAM]?,
            batch: VecDeque::with_capacity(alloc, MAX_QUEUED)?,
        })
    }
}

/// What senders are sent, if the server is a receiver of the public standard.
fn senders_for(alloc: Global, options: &ServeOptions<'_>) -> Result<Option<Senders>, AllocError> {
    let Some(window) = options.window else {
        return Ok(None);
    };
    let receiver = Receiver {
        window,
        id: options.receiver_id,
    };
    Ok(Some(Senders::new(alloc, receiver)?))
}

/// Serves the archive of a disk as `serve_with`: a client may be idle for 60 seconds while another waits, and nothing is
/// reported.
pub fn serve_on<R: Threads + Wait + Clock + Sync, D: Disk + Drop + Send>(
    rt: &R,
    alloc: Global,
    listener: TcpListener,
    socket: UdpSocket,
    disk: D,
) -> Result<D, ScriptFault<D>>
    ensures served { IfOk result (λ back. IsServed (D.life disk) (D.life back)) }
    ensures early { IfErr result (λ fault.
        IsServedUpTo (D.life disk) (D.life (disk_of fault)) (early_end_of fault)) }
{
    let options = ServeOptions::new();
    let ends = Ends {
        control: listener,
        consumers: None,
        datagrams: socket,
        sending: None,
    };
    match serve_with(rt, alloc, ends, disk, &options, Unreported) {
        Ok(served) => Ok(served.disk),
        Err(fault) => Err(fault),
    }
}

/// Serves the archive of a disk until a line quits. If there is no file it is made, with a history of 1,048,576 entries;
/// else it is opened, and if that is refused every line is `Broken` but those that need no archive. The disk comes back, as
/// the last of the calls left it, which are one legal history of the passes of the thread that records and of the clients that
/// are served at a time.
///
/// Three threads, one for each further client, and 64 for clients that only read, if there is a listener for them: the caller's
/// answers the lines of connections, one after another, and so does each of those; one receives datagrams, and sends a NAK frame
/// after each that its image doesn't refuse while something is missing; one writes and settles blocks of images that recorder
/// sessions have. docs/SERVING.md.
///
/// A strict server ends by itself once its archive can record nothing: it can't be opened, a write has failed, or its history is
/// full. What comes back says which, whatever ended the server.
///
/// A server that makes checkpoints makes its history short while recordings go on: docs/SERVING.md, "How long a history lasts".
///
/// `Memory` if the opening finds none, or a thread can't be made; `Read` if the listener or the socket fails. A reply that
/// finds no memory ends its connection. Costs memory for 64 images, each of which holds 1,048,576 bytes of its stream at
/// most, for 128 blocks, and for 131,072 bytes of each client's lines and replies.
pub fn serve_with<
    R: Threads + Wait + Clock + Sync,
    D: Disk + Drop + Send,
    T: Reporter + Drop + Send + Sync,
>(
    rt: &R,
    alloc: Global,
    ends: Ends,
    disk: D,
    options: &ServeOptions<'_>,
    reporter: T,
) -> Result<Served<D>, ScriptFault<D>>
    ensures served { IfOk result (λ back. IsServed (D.life disk) (D.life back.disk)) }
    ensures stop { IfOk result (λ back.
        IsServedAs options.now.is_strict (D.life disk) (D.life back.disk) back.stop) }
    ensures early { IfErr result (λ fault.
        IsServedUpTo (D.life disk) (D.life (disk_of fault)) (early_end_of fault)) }
{
    serve_flushing::<R, D, T, MemoryDisk, Unflushed>(
        rt, alloc, ends, disk, options, reporter, &Unflushed,
    )
}

/// Serves the archive of a disk as `serve_with`. Where several sessions are to settle and syncs are slow, their segment files are
/// flushed first, beside the archive: by as many further threads as the flusher wants, 8 at most. It is to flush files of that
/// disk. docs/SERVING.md, "When a frame is durable".
///
/// Connections may follow a recording, if the disk can be opened again and more than one client is served or images are listed, and
/// those of clients that only read, if it can: 60
/// at a time at most, each by a thread of its own, which reads by an opening of its own. docs/SERVING.md, "Consumers". Costs a
/// megabyte more for each.
pub fn serve_flushing<
    R: Threads + Wait + Clock + Sync,
    D: Disk + Drop + Send,
    T: Reporter + Drop + Send + Sync,
    E: Disk + Drop + Send,
    F: Flusher + Openings<E> + Send + Sync,
>(
    rt: &R,
    alloc: Global,
    ends: Ends,
    disk: D,
    options: &ServeOptions<'_>,
    reporter: T,
    flusher: &F,
) -> Result<Served<D>, ScriptFault<D>>
    ensures served { IfOk result (λ back. IsServed (D.life disk) (D.life back.disk)) }
    ensures stop { IfOk result (λ back.
        IsServedAs options.now.is_strict (D.life disk) (D.life back.disk) back.stop) }
    ensures early { IfErr result (λ fault.
        IsServedUpTo (D.life disk) (D.life (disk_of fault)) (early_end_of fault)) }
{
    let Ok(shared) = Shared::new(alloc, shared_by(options), reporter) else {
        return Err(ScriptFault::Memory(disk));
    };
    let (Ok(tools), Ok(seat_room)) = (Tools::new(alloc, options), SeatRoom::new(alloc)) else {
        return Err(ScriptFault::Memory(disk));
    };
    let places = places_for::<E, F>(options, ends.consumers.is_some(), flusher);
    let Ok(followers) = Followers::new(alloc, places.followers) else {
        return Err(ScriptFault::Memory(disk));
    };
    let mut ends = ends;
    let Ok(sendings) = sendings_of(rt, alloc, &mut ends, options, places) else {
        return Err(ScriptFault::Memory(disk));
    };
    let (archive, beginning) = match ScriptArchive::of_disk(alloc, disk) {
        Ok(found) => found,
        Err(disk) => return Err(ScriptFault::Memory(disk)),
    };
    let lines = connections_of(
        rt, alloc, shared, ends, options, places, followers, sendings,
    );
    let sender = ReadSender::<E, F>::new(flusher);
    let serving = Serving {
        rt,
        alloc,
        socket: &lines.socket,
        places,
        settle_every: options.settle_every,
        streams: options.streams,
        segment_length: options.segment_length,
        networks: options.networks,
        is_strict: options.is_strict,
        begins_short: options.begins_short,
        shared: &lines.shared,
        lines: &lines,
        flusher,
    };
    begin(&serving, beginning);
    let (served, end) = serve_archive(&serving, &sender, tools, seat_room, archive, beginning);
    lines.shared.report_end();
    handed_back(served, end)
}

/// How many clients and followers there are. Connections may follow if the disk can be opened again, and more than one client is
/// served, images are listed, or clients are served that only read.
fn places_for<E, O: Openings<E>>(
    options: &ServeOptions<'_>,
    has_consumers: bool,
    openings: &O,
) -> Places {
    let serves_several = options.clients.unwrap_or(1) > 1 || options.window.is_some();
    let follows = (serves_several || has_consumers) && openings.can_open();
    Places::of(options.clients, has_consumers, follows)
}

/// The places of recordings that are sent, and the socket that they are sent by, of these ends.
fn sendings_of<R: Wait + Clock>(
    rt: &R,
    alloc: Global,
    ends: &mut Ends,
    options: &ServeOptions<'_>,
    places: Places,
) -> Result<Sendings, AllocError> {
    let receive = ends.datagrams.local_addr().ok();
    let socket = ends.sending.take();
    Sendings::new(
        rt,
        alloc,
        socket,
        options.send_to,
        receive,
        places.followers,
    )
}

/// What the threads that serve connections share, for so many clients at these ends.
fn connections_of<R: Wait, T: Reporter>(
    rt: &R,
    alloc: Global,
    shared: Shared<T>,
    ends: Ends,
    options: &ServeOptions<'_>,
    places: Places,
    followers: Followers,
    sendings: Sendings,
) -> Connections<T>
    ensures { result.places ≡ places }
{
    shared.meter.clients.set(places.clients);
    let ending = Ending::new();
    let control = Port {
        listener: SharedListener::new(rt, ends.control, places.clients, &ending),
        options: ClientOptions::of(options, &places),
    };
    let consumers = match ends.consumers {
        Some(listener) => Some(Port {
            listener: SharedListener::new(rt, listener, CONSUMERS, &ending),
            options: ClientOptions::of_consumers(options, &places),
        }),
        None => None,
    };
    Connections {
        alloc,
        shared,
        socket: ends.datagrams,
        ending,
        control,
        consumers,
        places,
        followers,
        sendings,
    }
}

/// What the threads of a server know of its options.
fn shared_by(options: &ServeOptions<'_>) -> SharedOptions {
    SharedOptions {
        gives_back: options.window.is_some(),
        is_strict: options.is_strict,
        is_measured: options.is_measured,
        makes_checkpoints: options.makes_checkpoints,
    }
}

/// Serves an archive, or where none is open: what comes back, and how that ended. A strict server does not serve without one.
fn serve_archive<
    R: Threads + Wait + Clock + Sync,
    D: Disk + Drop + Send,
    T: Reporter + Drop + Send + Sync,
    F: Flusher + Send + Sync,
    S: FrameSender + Send + Sync,
>(
    with: &Serving<'_, R, T, F>,
    sender: &S,
    tools: Tools,
    seat_room: SeatRoom,
    archive: ScriptArchive<D>,
    beginning: Beginning,
) -> (Served<D>, Result<(), EarlyEnd>)
    ensures { EndsUpTo with.now.is_strict beginning (archive_seen D.life archive) (D.life result.0.disk) result.0.stop result.1 }
{
    match archive {
        ScriptArchive::Open(engine) => serve_open(with, sender, tools, seat_room, engine),
        ScriptArchive::Closed(disk) => {
            let end = if with.is_strict {
                Ok(())
            } else {
                serve_closed(with, tools)
            };
            let stop = unopened_stop(with.is_strict, &beginning);
            (Served { disk, stop }, end)
        }
    }
}

/// What a server gives back that ended so.
fn handed_back<D>(served: Served<D>, end: Result<(), EarlyEnd>) -> Result<Served<D>, ScriptFault<D>>
    ensures { MatchResult result
        (λ back. (back ≡ served) × IsOk end)
        (λ fault. (disk_of fault ≡ served.disk) × (end ≡ Err (early_end_of fault))) }
{
    match end {
        Ok(()) => Ok(served),
        Err(end) => Err(ScriptFault::new(end, served.disk)),
    }
}

/// Reports where the server is, and how its archive began.
fn begin<R, T: Reporter, F>(with: &Serving<'_, R, T, F>, beginning: Beginning) {
    let ends = (
        with.lines.control.listener.address(),
        with.socket.local_addr(),
    );
    if let (Ok(control), Ok(receive)) = ends {
        with.shared.report(&Happening::Bound { control, receive });
    }
    if let Some(port) = &with.lines.consumers {
        if let Ok(consumers) = port.listener.address() {
            with.shared.report(&Happening::BoundConsumers { consumers });
        }
    }
    if let Some(socket) = with.lines.sendings.socket() {
        if let Ok(send) = socket.local_addr() {
            with.shared.report(&Happening::BoundSending { send });
        }
    }
    with.shared
        .report(&Happening::Archive(ArchiveNews::Began(beginning)));
}

/// Serves an archive that is open: what comes back, and how that ended.
fn serve_open<
    R: Threads + Wait + Clock + Sync,
    D: Disk + Drop + Send,
    T: Reporter + Drop + Send + Sync,
    F: Flusher + Send + Sync,
    S: FrameSender + Send + Sync,
>(
    with: &Serving<'_, R, T, F>,
    sender: &S,
    tools: Tools,
    seat_room: SeatRoom,
    engine: Engine<D>,
) -> (Served<D>, Result<(), EarlyEnd>)
    ensures { EndsOrLacks (D.life engine.archive.storage.disk) (seen D.life engine) with.now.is_strict
        (D.life result.0.disk) result.0.stop result.1 }
{
    let Ok(opened) = Opened::new(with.alloc, false) else {
        return lacking(engine);
    };
    serve_named::<D, Brand, R, T, F, S>(with, sender, tools, seat_room, opened, engine)
}

/// Serves an archive that has a pass for the thread that records and one for each client and follower.
fn serve_named<
    D: Disk + Drop + Send,
    A: Naming + Send + Sync,
    R: Threads + Wait + Clock + Sync,
    T: Reporter + Drop + Send + Sync,
    F: Flusher + Send + Sync,
    S: FrameSender + Send + Sync,
>(
    with: &Serving<'_, R, T, F>,
    sender: &S,
    tools: Tools,
    seat_room: SeatRoom,
    opened: Opened<Made>,
    engine: Engine<D>,
) -> (Served<D>, Result<(), EarlyEnd>)
    requires named { opened.table ≡ A.table }
    requires counts { A.passes ≡ 1 + with.now.places.count + with.now.places.followers }
    requires stores { opened.keeps ≡ A.keeps }
    requires opens { engine_seen D.life (view_of engine []) ≡ A.opening }
    ensures { EndsOrLacks (D.life engine.archive.storage.disk) A.opening with.now.is_strict
        (D.life result.0.disk) result.0.stop result.1 }
{
    let places = with.places;
    let count = 1 + places.count + places.followers;
    let Ok(room) = Vec::with_capacity(with.alloc, count) else {
        return lacking(engine);
    };
    let made = SharedArchive::<D, A>::new(with.alloc, opened, engine, count as u64);
    let (archive, passes) = match made {
        Ok(made) => made,
        Err(refused) => return lacking(refused.engine),
    };
    let (pass, clients) = parted::<A>(passes, room);
    let mut seats = seat_room.seated::<A>(pass);
    begin_history(with, &archive, &mut seats);
    with.shared.meter.set_open();
    let (passes, end) = serve_shared(with, sender, tools, &archive, clients, seats);
    (closed(archive, passes, with.is_strict), end)
}

/// What comes back of an archive for whose serving there was no memory.
fn lacking<D: Disk + Drop>(engine: Engine<D>) -> (Served<D>, Result<(), EarlyEnd>)
    ensures { (result.1 ≡ Err Memory) × (D.life result.0.disk ≡ D.life engine.archive.storage.disk) }
{
    let served = Served {
        disk: engine.into_disk(),
        stop: None,
    };
    (served, Err(EarlyEnd::Memory))
}

/// Serves an archive by a thread that receives, one that records, one that sends, and one for each client: all its passes, and how
/// that ended.
fn serve_shared<
    D: Disk + Drop + Send,
    A: Naming + Send + Sync,
    R: Threads + Wait + Clock + Sync,
    T: Reporter + Drop + Send + Sync,
    F: Flusher + Send + Sync,
    S: FrameSender + Send + Sync,
>(
    with: &Serving<'_, R, T, F>,
    sender: &S,
    tools: Tools,
    archive: &SharedArchive<D, A>,
    clients: Vec<Pass<Made>>,
    seats: Seats<A>,
) -> (Vec<Pass<Made>>, Result<(), EarlyEnd>)
    requires clients { AreClientPasses A.table A.passes clients.items }
    requires room { 1 + vec_len clients ≤ vec_capacity clients }
    ensures { AreAllPasses A.table A.passes result.0.items }
{
    let Tools {
        images,
        senders,
        buffer,
        batch,
    } = tools;
    let Serving {
        rt,
        socket,
        shared,
        lines,
        ..
    } = with;
    thread::scope(
        thread::scope_env(),
        *rt,
        |scope| -> (Vec<Pass<Made>>, Result<(), EarlyEnd>)
            requires shared { IsSend D.row × IsSend A.row × IsSend T.row × IsSend F.row × IsSync A.row × IsSync R.row × IsSync T.row × IsSync F.row }
            requires clients { AreClientPasses A.table A.passes clients.items }
            requires room { 1 + vec_len clients ≤ vec_capacity clients }
            ensures { AreAllPasses A.table A.passes result.0.items }
        {
            let recorder = match scope.spawn(move || record(with, archive, seats, batch)) {
                Ok(recorder) => recorder,
                Err(refused) => {
                    // It has nothing to record, and gives back the seats.
                    shared.queue.end(*rt);
                    let seats = (refused.value)();
                    return (seats.into_passes(clients), Err(EarlyEnd::Memory));
                }
            };
            let receiver = scope.spawn(move || receive(with, images, senders, buffer));
            let Ok(receiver) = receiver else {
                shared.queue.end(*rt);
                return (
                    recorder.join(*rt).into_passes(clients),
                    Err(EarlyEnd::Memory),
                );
            };
            let sending = scope.spawn(move || send_all(*rt, *lines));
            let Ok(sending) = sending else {
                shared.end(socket);
                let _ = receiver.join(*rt);
                return (
                    recorder.join(*rt).into_passes(clients),
                    Err(EarlyEnd::Memory),
                );
            };
            let clients = serve_clients(*rt, lines, sender, archive, clients);
            shared.end(socket);
            sending.join(*rt);
            let is_whole = receiver.join(*rt);
            (
                recorder.join(*rt).into_passes(clients),
                ended_by(lines.ending.end(*rt, shared), is_whole),
            )
        },
    )
}

/// Serves lines alone, and receives datagrams that no session has.
fn serve_closed<
    R: Threads + Wait + Clock + Sync,
    T: Reporter + Drop + Send + Sync,
    F: Flusher + Send + Sync,
>(with: &Serving<'_, R, T, F>, tools: Tools) -> Result<(), EarlyEnd> {
    let Tools {
        images,
        senders,
        buffer,
        batch: _,
    } = tools;
    // No thread records, and none sends frames: nobody waits for one.
    with.shared.queue.leave(with.rt);
    with.lines.followers.end(with.rt);
    thread::scope(thread::scope_env(), with.rt, |scope| {
        let receiver = scope.spawn(move || receive(with, images, senders, buffer));
        let Ok(receiver) = receiver else {
            return Err(EarlyEnd::Memory);
        };
        serve_unopened(with.rt, with.lines, &with.places);
        with.shared.end(with.socket);
        ended_by(
            with.lines.ending.end(with.rt, with.shared),
            receiver.join(with.rt),
        )
    })
}

/// Notes where an archive stands that was just opened, and makes its history short if that is asked for.
fn begin_history<D: Disk, A: Naming, R: Wait, T: Reporter, F>(
    with: &Serving<'_, R, T, F>,
    archive: &SharedArchive<D, A>,
    seats: &mut Seats<A>,
) {
    begin_short(&recording_of(with, archive), seats, with.begins_short);
}

/// Records until no more blocks come. The seats.
fn record<D: Disk, A: Naming, R: Threads + Wait + Clock + Sync, T: Reporter, F: Flusher + Sync>(
    with: &Serving<'_, R, T, F>,
    archive: &SharedArchive<D, A>,
    mut seats: Seats<A>,
    mut batch: VecDeque<FedBlock>,
) -> Seats<A> {
    let recording = recording_of(with, archive);
    let own = OwnRecordings::new(with.segment_length);
    record_all(
        &recording,
        &mut seats,
        own,
        with.settle_every,
        &mut batch,
        with.flusher,
    );
    seats
}

/// What the thread that records works with.
fn recording_of<'x, D: Disk, A: Naming, R, T, F>(
    with: &Serving<'x, R, T, F>,
    archive: &'x SharedArchive<D, A>,
) -> Recording<'x, D, A, R, T> {
    Recording {
        rt: with.rt,
        alloc: with.alloc,
        archive,
        shared: with.shared,
        socket: with.socket,
    }
}

/// Receives until the server ends, and ends it if no more can be received. Whether more could be.
fn receive<R: Wait + Clock, T: Reporter, F>(
    with: &Serving<'_, R, T, F>,
    images: Images,
    senders: Option<Senders>,
    mut buffer: Vec<u8>,
) -> bool {
    let Serving {
        rt,
        socket,
        shared,
        ..
    } = with;
    let timeout = if senders.is_some() {
        TENDING
    } else {
        READ_TIMEOUT
    };
    let is_timed = socket
        .set_read_timeout(Some(Duration::from_millis(timeout)))
        .is_ok();
    let mut reception = Reception::new(
        *rt,
        with.alloc,
        shared,
        socket,
        images,
        senders,
        with.streams,
        with.networks,
    );
    let is_whole = is_timed && reception.receive_all(buffer.as_mut_slice());
    if !is_whole {
        shared.end(socket);
    }
    shared.queue.end(*rt);
    is_whole
}

/// How a server ended whose serving of lines ended so, if no more could be received and if more could be.
fn ended_by(served: Result<(), EarlyEnd>, is_whole: bool) -> Result<(), EarlyEnd>
    ensures { result ≡ (if is_whole then served else Err Read) }
{
    if is_whole {
        served
    } else {
        Err(EarlyEnd::Read)
    }
}

/// What comes back of an archive that is closed with all its passes.
#[tactic(auto, using(crate::proofs::ServingLemmas::ends_history))]
fn closed<D: Disk + Drop, A: Naming>(
    archive: SharedArchive<D, A>,
    passes: Vec<Pass<Made>>,
    is_strict: bool,
) -> Served<D>
    requires { AreAllPasses A.table A.passes passes.items }
    ensures { EndsHistory A.opening is_strict (D.life result.disk) result.stop }
{
    match archive.close(passes) {
        Ok(Closed { engine, .. }) => {
            let stop = stuck_by(is_strict, engine.desk());
            Served {
                disk: engine.into_disk(),
                stop,
            }
        }
        Err(_) => unreachable!(),
    }
}
