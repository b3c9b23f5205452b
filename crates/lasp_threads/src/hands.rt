//! The hands of workers: how they are made and come back.

ghost use Rattle.std.specs.Prelude.{◌≡◌, ◌∷◌, [], ◌+◌, ◌<◌, ◌≤◌, ◌++◌, ℕ, List, length, map, slice_get, Some, vec_len};
ghost use Rattle.lasp_store.specs.Turn.{Knows, IsSeated};
ghost use Rattle.lasp_store_node.specs.View.{IsFeed};
ghost use Rattle.lasp_threads.specs.Spots.{Spot, spots_of, all_spots, AreAt, HaveOut, HaveMade, AreMaking, AreFeeds, IsKept, AreKept};

use crate::worker::Worker;
use lasp_store::{Feed, Hand, Seated, Store};
use lasp_workers::Replicas;
use std::alloc::Global;

/// A new hand of a store. It takes no memory.
fn split(store: &Store, feed: &mut Feed) -> Hand
    requires feed { IsFeed store.now feed.old }
    requires room { feed.old.made < 4294967295 }
    ensures hand { IsSeated store.now result }
    ensures number { result.number ≡ feed.old.made }
    ensures made { feed.new.made ≡ feed.old.made + 1 }
    ensures back { feed.new.back ≡ feed.old.back }
    ensures kept { IsKept store.now feed.old feed.new }
{
    match store.split_hand(feed) {
        Ok(hand) => hand,
        Err(_) => unreachable!(),
    }
}

/// Takes a hand back into the feed of its store.
fn rejoin(store: &Store, feed: &mut Feed, hand: Hand)
    requires feed { IsFeed store.now feed.old }
    requires hand { IsSeated store.now hand }
    ensures made { feed.new.made ≡ feed.old.made }
    ensures back { feed.new.back ≡ feed.old.back ++ hand.number ∷ [] }
    ensures kept { IsKept store.now feed.old feed.new }
{
    feed.known();
    store.rejoin(feed, hand);
    feed.known();
}

/// A new hand of the store of a node.
fn split_at(stores: &[Store], feeds: &mut [Feed], node: u8) -> Hand
    requires feeds { AreFeeds stores.now feeds.old }
    requires node { node < length stores.now }
    requires room { (f : Knows) → slice_get feeds.old node ≡ Some f → f.made < 4294967295 }
    ensures hand { IsSeated result.lock result }
    ensures at { slice_get stores.now node ≡ Some result.lock }
    ensures kept { AreKept stores.now feeds.old feeds.new }
    ensures out { (spots : List Spot) → HaveOut spots feeds.old → HaveOut (spots ++ (node, result.lock, result.number) ∷ []) feeds.new }
    ensures making { (most : ℕ) → AreMaking most node feeds.old → AreMaking most (node + 1) feeds.new }
{
    let p = usize::from(node);
    split(&stores[p], &mut feeds[p])
}

/// Takes a hand back into the feed of its node.
fn rejoin_at(stores: &[Store], feeds: &mut [Feed], node: u8, hand: Hand)
    requires feeds { AreFeeds stores.now feeds.old }
    requires hand { IsSeated hand.lock hand }
    requires at { slice_get stores.now node ≡ Some hand.lock }
    ensures kept { AreKept stores.now feeds.old feeds.new }
    ensures out { (spots : List Spot) → HaveOut (spots ++ (node, hand.lock, hand.number) ∷ []) feeds.old → HaveOut spots feeds.new }
    ensures made { (most : ℕ) → HaveMade most feeds.old → HaveMade most feeds.new }
{
    let p = usize::from(node);
    rejoin(&stores[p], &mut feeds[p], hand);
}

/// Takes all hands of a worker back into the feeds of their stores.
fn rejoin_one<R>(stores: &[Store], feeds: &mut [Feed], mut replicas: Replicas<Seated<'_, R>>)
    requires feeds { AreFeeds stores.now feeds.old }
    requires at { AreAt stores.now (spots_of replicas) }
    ensures kept { AreKept stores.now feeds.old feeds.new }
    ensures out { (spots : List Spot) → HaveOut (spots ++ spots_of replicas.entry) feeds.old → HaveOut spots feeds.new }
{
    while let Some((node, seated)) = replicas.pop() {
        rejoin_at(stores, feeds, node, seated.into_hand());
    }
}

/// Takes the hands of all workers back.
pub fn rejoin_all<R, G>(stores: &[Store], feeds: &mut [Feed], mut workers: Vec<Worker<'_, R, G>>)
    requires feeds { AreFeeds stores.now feeds.old }
    requires at { AreAt stores.now (all_spots (map (λ w. spots_of w.replicas) workers.items)) }
    ensures kept { AreKept stores.now feeds.old feeds.new }
    ensures out { HaveOut (all_spots (map (λ w. spots_of w.replicas) workers.entry.items)) feeds.old → HaveOut [] feeds.new }
{
    while let Some(worker) = workers.pop() {
        rejoin_one(stores, feeds, worker.replicas);
    }
}

/// A hand at every store, or at the first of them as far as there is memory.
fn seat<'a, R>(
    rt: &'a R,
    alloc: Global,
    stores: &'a [Store],
    feeds: &mut [Feed],
) -> Replicas<Seated<'a, R>>
    requires few { length stores.now ≤ 8 }
    requires feeds { AreFeeds stores.now feeds.old }
    requires room { HaveMade 4294967294 feeds.old }
    ensures kept { AreKept stores.now feeds.old feeds.new }
    ensures at { AreAt stores.now (spots_of result) }
    ensures out { (spots : List Spot) → HaveOut spots feeds.old → HaveOut (spots ++ spots_of result) feeds.new }
    ensures made { (most : ℕ) → HaveMade most feeds.old → HaveMade (most + 1) feeds.new }
{
    let mut replicas = Replicas::new(alloc);
    for node in 0..stores.len() as u8 {
        let hand = split_at(stores, feeds, node);
        match replicas.push(node, Seated::new(&stores[usize::from(node)], hand, rt)) {
            Ok(()) => {}
            Err((seated, _)) => {
                rejoin_at(stores, feeds, node, seated.into_hand());
                return replicas;
            }
        }
    }
    replicas
}

/// So many workers, each with a hand at every store; where memory is short, fewer, or with hands at the first stores alone.
pub fn seat_all<'a, R, G>(
    rt: &'a R,
    alloc: Global,
    gate: &'a G,
    stores: &'a [Store],
    feeds: &mut [Feed],
    many: u8,
) -> Vec<Worker<'a, R, G>>
    requires few { length stores.now ≤ 8 }
    requires feeds { AreFeeds stores.now feeds.old }
    requires made { HaveMade 1 feeds.old }
    requires out { HaveOut [] feeds.old }
    ensures many { vec_len result ≤ many }
    ensures kept { AreKept stores.now feeds.old feeds.new }
    ensures at { AreAt stores.now (all_spots (map (λ w. spots_of w.replicas) result.items)) }
    ensures out { HaveOut (all_spots (map (λ w. spots_of w.replicas) result.items)) feeds.new }
{
    let mut workers = Vec::new(alloc);
    match workers.reserve(usize::from(many)) {
        Ok(()) => {}
        Err(_) => return workers,
    }
    for i in 0..many {
        let replicas = seat(rt, alloc, stores, feeds);
        let worker = Worker {
            rt,
            alloc,
            gate,
            number: u32::from(i) + 1,
            replicas,
        };
        match workers.push(worker) {
            Ok(()) => {}
            Err(_) => unreachable!(),
        }
    }
    workers
}
