//! Threads that serve clients, one client at a time each. docs/ARCHITECTURE.md, "Serving".

ghost use Rattle.std.specs.Prelude.{◌≡◌, ◌++◌, ◌∷◌, [], ◌<◌, vec_capacity, vec_len};
ghost use Rattle.std.specs.Thread.{IsSync};
ghost use Rattle.call_history.specs.Passes.{AllOfTable};
ghost use Rattle.server.specs.Clients.{AreBack, IsBack};

use crate::answering::{Controller, NotedArchive};
use crate::connections::{Connections, Port, serve_connections};
use crate::consumer::Consumer;
use crate::following::{Following, FrameSender};
use crate::place::{Place, Places};
use crate::unopened::Unopened;
use archive_lock::{Made, Naming, SharedArchive};
use call_history::Pass;
use disk_core::Disk;
use server_state::Reporter;
use std::marker::Brand;
use std::rt::Clock;
use std::snapshot::Snapshot;
use std::sync::Wait;
use std::thread::{self, Promise, Threads};
use tool_core::EarlyEnd;

/// What a thread that serves clients keeps.
#[derive(Drop)]
struct GivesBack {
    pass: Snapshot<Pass<Made>>,
}

impl Promise<Pass<Made>> for GivesBack {
    ghost use Rattle.server.specs.Clients.{IsBack};

    ghost kept_by = { λ p r. IsBack p.pass.value r };
}

/// Serves clients and followers by these passes until the server ends, by a thread for each of them, the caller's among these: the
/// passes. The server ends by `Memory` if a client's thread can't be made.
#[cycle(clients)]
pub(crate) fn serve_clients<
    D: Disk + Drop + Send,
    A: Naming + Send + Sync,
    R: Threads + Wait + Clock + Sync,
    T: Reporter + Drop + Send + Sync,
    F: FrameSender + Send + Sync,
>(
    rt: &R,
    with: &Connections<T>,
    sender: &F,
    archive: &SharedArchive<D, A>,
    mut passes: Vec<Pass<Made>>,
) -> Vec<Pass<Made>>
    requires { AllOfTable A.table passes.items }
    ensures back { AreBack passes.items result.items }
    ensures room { vec_capacity result ≡ vec_capacity passes }
{
    let Some(pass) = passes.pop() else {
        return passes;
    };
    if passes.is_empty() {
        passes.push_reserved(serve_by(rt, with, &with.control, archive, pass));
        return passes;
    }
    serve_beside(rt, with, sender, archive, passes, pass)
}

/// Serves clients by a pass in a thread of its own, and by the others beside it.
#[cycle(clients)]
fn serve_beside<
    D: Disk + Drop + Send,
    A: Naming + Send + Sync,
    R: Threads + Wait + Clock + Sync,
    T: Reporter + Drop + Send + Sync,
    F: FrameSender + Send + Sync,
>(
    rt: &R,
    with: &Connections<T>,
    sender: &F,
    archive: &SharedArchive<D, A>,
    rest: Vec<Pass<Made>>,
    pass: Pass<Made>,
) -> Vec<Pass<Made>>
    requires rest { AllOfTable A.table rest.items }
    requires pass { pass.table ≡ A.table }
    requires room { vec_len rest < vec_capacity rest }
    ensures back { AreBack (rest.items ++ pass ∷ []) result.items }
    ensures room { vec_capacity result ≡ vec_capacity rest }
{
    thread::scope(
        thread::scope_env(),
        rt,
        |scope| -> Vec<Pass<Made>>
            requires shared { IsSync R.row }
            requires rest { AllOfTable A.table rest.items }
            requires pass { pass.table ≡ A.table }
            requires room { vec_len rest < vec_capacity rest }
            ensures back { AreBack (rest.items ++ pass ∷ []) result.items }
            ensures room { vec_capacity result ≡ vec_capacity rest }
        {
            let index = rest.len();
            let promise = GivesBack {
                pass: Snapshot::of(&pass),
            };
            let serving = scope.spawn_with(
                promise,
                move || -> Pass<Made>
                    requires { pass.table ≡ A.table }
                    ensures { IsBack pass result }
                { serve_place(rt, with, sender, archive, index, pass) },
            );
            if serving.is_err() {
                lose(rt, with, index);
            }
            let mut passes = serve_clients(rt, with, sender, archive, rest);
            with.followers.end(rt);
            let pass = match serving {
                Ok(thread) => thread.join(rt),
                Err(refused) => (refused.value)(),
            };
            passes.push_reserved(pass);
            passes
        },
    )
}

/// Serves clients or followers by the pass of an index, those of clients first, until the server ends: the pass.
fn serve_place<'x, D: Disk + Drop, A: Naming, R: Wait + Clock, T: Reporter, F: FrameSender>(
    rt: &'x R,
    with: &'x Connections<T>,
    sender: &F,
    archive: &'x SharedArchive<D, A>,
    index: usize,
    pass: Pass<Made>,
) -> Pass<Made>
    requires { pass.table ≡ A.table }
    ensures { IsBack pass result }
{
    match index.checked_sub(with.places.count) {
        None => serve_by(rt, with, with.port_of(index), archive, pass),
        Some(place) => {
            let following = Following {
                rt,
                alloc: with.alloc,
                archive,
                with,
                place,
            };
            sender.send_frames(&following, pass)
        }
    }
}

/// The thread of an index could not be made: the server ends by `Memory` if it is a client's; a follower's place is lost.
fn lose<R: Wait, T: Reporter>(rt: &R, with: &Connections<T>, index: usize) {
    match index.checked_sub(with.places.count) {
        None => with.ending.close(rt, Err(EarlyEnd::Memory)),
        Some(place) => with.followers.lose(rt, place),
    }
}

/// Serves clients of a port by a pass until the server ends: the pass.
fn serve_by<D: Disk + Drop, A: Naming, R: Wait + Clock, T: Reporter>(
    rt: &R,
    with: &Connections<T>,
    port: &Port,
    archive: &SharedArchive<D, A>,
    pass: Pass<Made>,
) -> Pass<Made>
    requires { pass.table ≡ A.table }
    ensures { IsBack pass result }
{
    serve_at::<D, A, Brand, R, T>(rt, with, port, archive, pass)
}

/// Serves clients of a port by the pass of a place.
fn serve_at<'x, D: Disk + Drop, A: Naming, P: Place, R: Wait + Clock, T: Reporter>(
    rt: &'x R,
    with: &'x Connections<T>,
    port: &'x Port,
    archive: &'x SharedArchive<D, A>,
    pass: Pass<Made>,
) -> Pass<Made>
    requires table { pass.table ≡ A.table }
    requires number { pass.number ≡ P.number }
    ensures table { result.table ≡ A.table }
    ensures number { result.number ≡ P.number }
{
    let options = &port.options;
    let noted = NotedArchive {
        rt,
        archive,
        with,
        address: None,
        settles: !options.only_reads,
    };
    let controller = Controller::<D, A, P, R, T>::new(
        with.alloc,
        noted,
        pass,
        options.offers_checkpoints,
    );
    if options.only_reads {
        let consumer = serve_connections(rt, with, port, Consumer::new(controller));
        consumer.into_server().into_pass()
    } else {
        serve_connections(rt, with, port, controller).into_pass()
    }
}

/// Serves so many clients at a time until the server ends, without an archive. The server ends by `Memory` if a thread can't
/// be made.
pub(crate) fn serve_unopened<R: Threads + Wait + Clock + Sync, T: Reporter + Drop + Send + Sync>(
    rt: &R,
    with: &Connections<T>,
    places: &Places,
) {
    let unopened = Unopened {
        offers_checkpoints: with.control.options.offers_checkpoints,
    };
    thread::scope(thread::scope_env(), rt, |scope| {
        for index in 1..places.count {
            let port = with.port_of(index);
            let serving = scope.spawn(move || serve_connections(rt, with, port, unopened));
            if serving.is_err() {
                with.ending.close(rt, Err(EarlyEnd::Memory));
            }
        }
        let _ = serve_connections(rt, with, &with.control, unopened);
    });
}
