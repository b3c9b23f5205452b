//! The parked reads of a replica after an entry.

ghost use Rattle.std.specs.Prelude.{◌≡◌, ◌==◌, ◌+◌, ◌≤◌, ◌++◌, [], not, map, filter, length, take, vec_len, vec_capacity, IfSome, IsTrue};
ghost use Rattle.lasp_core.specs.Prelude.{AllByRecursion, is_met, read_of, frame_of, entries_of, IsReplica, IsWatched};
ghost use Rattle.lasp_core.specs.Lacking.{AreNews, IsWaiting, WasWaiting};

use crate::news::{Came, News};
use crate::read::ReadNo;
use lasp_replica::Replica;

/// Whether what a read was known to lack before entries from number n on is lacking still.
fn lacks_still(replica: &Replica, n: u64, news: &Option<News<'_>>, read: &ReadNo) -> bool
    requires replica { IsReplica replica.now }
    requires within { n ≤ length (entries_of replica.now) }
    requires news { IfSome news.now (AreNews replica.now n) }
    requires read { WasWaiting replica.now n read.now }
    ensures { IsTrue result → IsWaiting (frame_of replica.now) (entries_of replica.now) read.now }
{
    if let Some(news) = news {
        if news.spares(read) {
            return true;
        }
    }
    replica.histories[read.var as usize].is_still_since(n)
}

/// Looks in a read for a value that is lacking, where that isn't known of the one that it lacked before entries from number n on.
fn seek_in(replica: &Replica, n: u64, news: &Option<News<'_>>, read: &mut ReadNo)
    requires replica { IsReplica replica.now }
    requires within { n ≤ length (entries_of replica.now) }
    requires news { IfSome news.now (AreNews replica.now n) }
    requires read { WasWaiting replica.now n read.old }
    ensures same { read_of read.new ≡ read_of read.old }
    ensures waits { IsWaiting (frame_of replica.now) (entries_of replica.now) read.new }
{
    if !lacks_still(replica, n, news, read) {
        read.seek(replica.states.at(u64::from(read.var)));
    }
}

/// The same in all parked reads, so that one that lacks a value of which no row came costs a comparison, however many values it waits for.
fn seek_in_all(replica: &Replica, n: u64, parked: &mut Vec<ReadNo>)
    requires replica { IsReplica replica.now }
    requires within { n ≤ length (entries_of replica.now) }
    requires reads { AllByRecursion (WasWaiting replica.now n) parked.old.items }
    ensures same { map read_of parked.new.items ≡ map read_of parked.old.items }
    ensures many { vec_len parked.new ≡ vec_len parked.old }
    ensures waits { AllByRecursion (IsWaiting (frame_of replica.now) (entries_of replica.now)) parked.new.items }
{
    let came = Came::first(replica, n, parked.as_slice());
    let news = match &came {
        Some(came) => came.listed(),
        None => None,
    };
    for i in 0..parked.len() {
        seek_in(replica, n, &news, &mut parked[i]);
    }
}

/// Whether a read's variable grew at an entry from number n on and has come to the threshold.
fn is_met_since(replica: &Replica, n: u64, read: &ReadNo) -> bool
    requires replica { IsReplica replica.now }
    requires read { IsWatched replica.now n (read_of read.now) }
    requires waits { IsWaiting (frame_of replica.now) (entries_of replica.now) read.now }
    ensures { result ≡ is_met (frame_of replica.now) (entries_of replica.now) (read_of read.now) }
{
    if read.is_lacking {
        return false;
    }
    if replica.histories[read.var as usize].is_still_since(n) {
        return false;
    }
    let state = replica.states.at(u64::from(read.var));
    !read.threshold.lacks(state, read.place) && read.threshold.meets(state)
}

/// Moves the reads that came to be met at an entry from number n on, in their order. There is room for them.
pub(crate) fn split_met(
    replica: &Replica,
    n: u64,
    parked: &mut Vec<ReadNo>,
    released: &mut Vec<ReadNo>,
)
    requires replica { IsReplica replica.now }
    requires within { n ≤ length (entries_of replica.now) }
    requires reads { AllByRecursion (IsWatched replica.now n) (map read_of parked.old.items) }
    requires waits { AllByRecursion (WasWaiting replica.now n) parked.old.items }
    requires empty { released.old.items ≡ [] }
    requires room { vec_len released.old + vec_len parked.old ≤ vec_capacity released.old }
    ensures parked { map read_of parked.new.items ≡ filter (λ r. not (is_met (frame_of replica.now) (entries_of replica.now) r)) (map read_of parked.old.items) }
    ensures waits { AllByRecursion (IsWaiting (frame_of replica.now) (entries_of replica.now)) parked.new.items }
    ensures released { map read_of released.new.items ≡ filter (λ r. is_met (frame_of replica.now) (entries_of replica.now) r) (map read_of parked.old.items) }
{
    seek_in_all(replica, n, parked);
    let mut i = 0;
    while i < parked.len() {
        if is_met_since(replica, n, &parked[i]) {
            let read = parked.remove(i);
            let _ = released.push(read);
        } else {
            i += 1;
        }
    }
}

/// Removes the reads of a number. The others stay in their order.
pub(crate) fn remove_read(reads: &mut Vec<ReadNo>, number: u64)
    ensures reads { map read_of reads.new.items ≡ filter (λ r. not (r.number == number)) (map read_of reads.old.items) }
    ensures items { reads.new.items ≡ filter (λ r. not (r.number == number)) reads.old.items }
{
    let mut i = 0;
    while i < reads.len() {
        if reads[i].number == number {
            let _ = reads.remove(i);
        } else {
            i += 1;
        }
    }
}
