//! A whole run: stores and mailboxes, a thread that feeds each node, workers beside them, and the text.

ghost use Rattle.std.specs.Prelude.{◌≡◌, ◌≤◌, [], All, IfOk, None, length, map, string_bytes};
ghost use Rattle.std.specs.Arc.{arc_value};
ghost use Rattle.model_live.specs.Lived.{lesser, IsLived};
ghost use Rattle.model_live.specs.Together.{too_large};
ghost use Rattle.model_live.specs.Words.{AreLive};
ghost use Rattle.model_readings.specs.Lawful.{FitsAll};
ghost use Rattle.lasp_drive.specs.Run.{IsRunnable};
ghost use Rattle.lasp_graph.specs.Library.{library_of};
ghost use Rattle.lasp_live_run.specs.Posts.{AreFreshEnds};
ghost use Rattle.lasp_live_run.specs.Run.{AreSeated, AreUnfed, HaveLived, HaveServed, IsBack, failed_of};
ghost use Rattle.lasp_store.specs.Turn.{graph_seen};
ghost use Rattle.lasp_threads.specs.Spots.{AreAt, AreFeeds, AreKept, HaveMade, HaveOut, all_spots, spots_of};

use crate::feeder::{ByLibrary, Settles, StoreFeeder};
use crate::posts::{Posts, close_posts, fresh_posts};
use crate::seat::{Office, Seat};
use crate::serve::serve_beside;
use lasp_core::Core;
use lasp_fns::Library;
use lasp_graph::Graph;
use lasp_live::{Diary, Mail, Signal, live_text};
use lasp_mail::{Inlet, Mailbox, Outlet};
use lasp_script::Script;
use lasp_store::{Feed, Store};
use lasp_threads::{Worker, Works, close_stores, fresh_stores, rejoin_all, seat_all};
use lasp_workers::Gate;
use std::alloc::{AllocError, AllocGlobal, Global};
use std::random::RandomSource;
use std::sync::{Arc, Wait};
use std::thread::Threads;

/// What a run came to: its text, and the least command at which a node failed, if one did.
#[derive(Drop)]
pub struct Lived {
    pub text: String,
    pub failed: Option<u32>,
}

/// The nodes at their desks, in order.
fn seats_of<'a, R, T, S: Settles<T>>(
    rt: &'a R,
    alloc: Global,
    stores: &'a [Store],
    lib: &'a T,
    by: &'a S,
    feeds: &mut Vec<Feed>,
    outs: Vec<Vec<Outlet<Mail>>>,
    ins: Vec<Vec<Inlet<Mail>>>,
) -> Result<Vec<Seat<StoreFeeder<'a, R, T, S>>>, AllocError>
    requires few { length stores.now ≤ 8 }
    requires feeds { AreFeeds stores.now feeds.old.items }
    requires fits { All (λ f. FitsAll (S.library lib.now) (graph_seen f)) feeds.old.items }
    requires ends { (length outs.items ≡ length stores.now) × (length ins.items ≡ length stores.now) }
    ensures { IfOk result (λ seats. AreSeated feeds.old.items outs.items ins.items seats.items) }
{
    let mut seats = Vec::new(alloc);
    let mut outs_left = outs.into_iter();
    let mut ins_left = ins.into_iter();
    for p in 0..stores.len() {
        let Some(outs) = outs_left.next() else {
            unreachable!()
        };
        let Some(ins) = ins_left.next() else {
            unreachable!()
        };
        let feed = feeds.remove(0);
        seats.push(Seat {
            me: p as u8,
            feeder: StoreFeeder::new(rt, alloc, &stores[p], feed, lib, by),
            outs,
            ins,
            diary: None,
        })?;
    }
    Ok(seats)
}

/// What nodes that were fed give back: their feeds, the ends of their mailboxes, and their diaries. It is refused where one of them met want of memory.
#[derive(Drop)]
struct Back {
    feeds: Vec<Feed>,
    outs: Vec<Vec<Outlet<Mail>>>,
    ins: Vec<Vec<Inlet<Mail>>>,
    diaries: Vec<Diary>,
}

fn back_of<R, T, S: Settles<T>>(
    alloc: Global,
    seats: Vec<Seat<StoreFeeder<'_, R, T, S>>>,
) -> Result<Back, AllocError>
    ensures { IfOk result (IsBack seats.entry.items) }
{
    let mut back = Back {
        feeds: Vec::new(alloc),
        outs: Vec::new(alloc),
        ins: Vec::new(alloc),
        diaries: Vec::new(alloc),
    };
    let mut left = seats.into_iter();
    while let Some(seat) = left.next() {
        let Seat {
            me: _,
            feeder,
            outs,
            ins,
            diary,
        } = seat;
        match diary {
            Some(diary) => back.diaries.push(diary)?,
            None => return Err(AllocError),
        }
        back.feeds.push(feeder.into_feed())?;
        back.outs.push(outs)?;
        back.ins.push(ins)?;
    }
    Ok(back)
}

/// Feeds the nodes of a script beside each other, each at its desk, while workers work beside all of them. The feeds that it takes are those of the nodes, which went through nothing.
fn serve_nodes<R: Threads + Wait + Sync, T: Sync, S: Settles<T> + Sync, W: Works<T> + Send>(
    rt: &R,
    alloc: Global,
    graph: &Arc<Graph>,
    script: &Arc<Script>,
    stores: &[Store],
    boxes: &[Mailbox<Mail>],
    lib: &T,
    by: &S,
    crew: Vec<W>,
    mut feeds: Vec<Feed>,
    outs: Vec<Vec<Outlet<Mail>>>,
    ins: Vec<Vec<Inlet<Mail>>>,
) -> Result<(Vec<W>, Back), AllocError>
    requires runnable { IsRunnable (S.library lib.now) (arc_value graph.now) (arc_value script.now) }
    requires live { AreLive (arc_value script.now).commands }
    requires small { too_large (arc_value graph.now) (arc_value script.now) ≡ None }
    requires feeds { AreFeeds stores.now feeds.items }
    requires unfed { AreUnfed (arc_value graph.now) (arc_value script.now) feeds.items }
    requires fits { All (λ f. FitsAll (S.library lib.now) (graph_seen f)) feeds.items }
    requires ends { AreFreshEnds (arc_value graph.now, arc_value script.now) (arc_value script.now).nodes boxes.now outs.items ins.items }
    ensures workers { IfOk result (λ given. map W.place given.0.items ≡ map W.place crew.items) }
    ensures served { IfOk result (λ given. HaveServed (arc_value graph.now) (arc_value script.now) boxes.now feeds.items outs.items ins.items given.1) }
{
    let seats = seats_of(rt, alloc, stores, lib, by, &mut feeds, outs, ins)?;
    let signal = Signal::new();
    let office = Office {
        rt,
        alloc,
        graph,
        script,
        boxes,
        signal: &signal,
    };
    let (crew, seats) = serve_beside(rt, crew, lib, alloc, graph, script.nodes(), seats, &office);
    Ok((crew, back_of(alloc, seats)?))
}

/// The workers, each with a hand at every store, as far as there is memory.
fn crew_of<'a, R, G>(
    rt: &'a R,
    alloc: Global,
    gate: &'a G,
    stores: &'a [Store],
    feeds: &mut Vec<Feed>,
    workers: u8,
) -> Vec<Worker<'a, R, G>>
    requires few { length stores.now ≤ 8 }
    requires feeds { AreFeeds stores.now feeds.old.items }
    requires made { HaveMade 1 feeds.old.items }
    requires out { HaveOut [] feeds.old.items }
    ensures kept { AreKept stores.now feeds.old.items feeds.new.items }
    ensures at { AreAt stores.now (all_spots (map (λ w. spots_of w.replicas) result.items)) }
    ensures out { HaveOut (all_spots (map (λ w. spots_of w.replicas) result.items)) feeds.new.items }
{
    seat_all(rt, alloc, gate, stores, feeds.as_mut_slice(), workers)
}

/// Takes their hands back.
fn take_back<R, G>(stores: &[Store], feeds: &mut Vec<Feed>, crew: Vec<Worker<'_, R, G>>)
    requires feeds { AreFeeds stores.now feeds.old.items }
    requires at { AreAt stores.now (all_spots (map (λ w. spots_of w.replicas) crew.items)) }
    ensures kept { AreKept stores.now feeds.old.items feeds.new.items }
    ensures out { HaveOut (all_spots (map (λ w. spots_of w.replicas) crew.entry.items)) feeds.old.items → HaveOut [] feeds.new.items }
{
    rejoin_all(stores, feeds.as_mut_slice(), crew);
}

/// Runs the nodes of a script beside each other with so many workers, and gives the cores of their stores and their diaries.
fn run_nodes<R: Threads + Wait + RandomSource + AllocGlobal + Sync, G: Gate + Sync>(
    rt: &R,
    alloc: Global,
    graph: &Arc<Graph>,
    script: &Arc<Script>,
    workers: u8,
    lib: &Library,
    gate: &G,
) -> Result<(Vec<Core>, Vec<Diary>), AllocError>
    requires runnable { IsRunnable (library_of lib.now) (arc_value graph.now) (arc_value script.now) }
    requires live { AreLive (arc_value script.now).commands }
    requires small { too_large (arc_value graph.now) (arc_value script.now) ≡ None }
    ensures { IfOk result (λ ran. HaveLived (arc_value graph.now) (arc_value script.now) ran.0.items ran.1.items) }
{
    let (stores, mut feeds) = fresh_stores(alloc, graph, script.nodes())?;
    let Posts { boxes, outs, ins } = fresh_posts(alloc, graph, script)?;
    let all = stores.as_slice();
    let crew = crew_of(rt, alloc, gate, all, &mut feeds, workers);
    let (crew, mut back) = serve_nodes(
        rt,
        alloc,
        graph,
        script,
        all,
        boxes.as_slice(),
        lib,
        &ByLibrary,
        crew,
        feeds,
        outs,
        ins,
    )?;
    take_back(all, &mut back.feeds, crew);
    close_posts(Posts {
        boxes,
        outs: back.outs,
        ins: back.ins,
    });
    Ok((close_stores(alloc, stores, back.feeds)?, back.diaries))
}

/// The lesser of two commands at which nodes failed.
fn lesser(first: Option<u32>, second: Option<u32>) -> Option<u32>
    ensures { result ≡ lesser first second }
{
    match (first, second) {
        (Some(c), Some(d)) => Some(if c <= d { c } else { d }),
        (Some(c), None) => Some(c),
        (None, other) => other,
    }
}

/// The least command at which a node failed, if one did.
fn first_failed(diaries: &[Diary]) -> Option<u32>
    ensures { result ≡ failed_of diaries.now }
{
    let mut failed = None;
    for k in 0..diaries.len() {
        let p = diaries.len() - 1 - k;
        failed = lesser(diaries[p].failed(), failed);
    }
    failed
}

/// Runs the nodes of a script beside each other, each fed on a thread of its own, with mailboxes between them, while so many workers evaluate what follows at all of them, and gives the text that tells it.
///
/// It may wait for ever: nodes that await each other's messages do. Where memory is wanting, a thread among it, all nodes stop.
pub fn live<R: Threads + Wait + RandomSource + AllocGlobal + Sync, G: Gate + Sync>(
    rt: &R,
    alloc: Global,
    graph: &Arc<Graph>,
    script: &Arc<Script>,
    workers: u8,
    lib: &Library,
    gate: &G,
) -> Result<Lived, AllocError>
    requires runnable { IsRunnable (library_of lib.now) (arc_value graph.now) (arc_value script.now) }
    requires live { AreLive (arc_value script.now).commands }
    requires small { too_large (arc_value graph.now) (arc_value script.now) ≡ None }
    // the text tells stories of all nodes that the script may come to, and the least command at which one failed is told
    ensures { IfOk result (λ lived. IsLived (arc_value graph.now) (arc_value script.now) lived.failed (string_bytes lived.text)) }
{
    let (cores, diaries) = run_nodes(rt, alloc, graph, script, workers, lib, gate)?;
    let text = live_text(alloc, graph, cores.as_slice(), diaries.as_slice())?;
    Ok(Lived {
        text,
        failed: first_failed(diaries.as_slice()),
    })
}
