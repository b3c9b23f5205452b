//! The log itself: how it grows, is shared and is read.

ghost use Rattle.std.specs.Prelude.{◌≡◌, ◌<◌, ◌≤◌, ◌+◌, ◌^◌, ◌++◌, ◌∷◌, [], IfOk, OnOk, OnErr, IsOk, IsTrue, Some, length, drop, slice_get};
ghost use Rattle.lasp_log.specs.Log.{joined};

use super::chunk::Chunk;
use super::items::Items;
use super::share::Share;
use std::alloc::{AllocError, Global};
use std::marker::Model;
use std::mem;

/// The most items that a log holds.
const MOST_ITEMS: usize = 4_294_967_296;

/// How many items make a chunk that isn't made longer.
const FULL: usize = 512;

/// A list that only grows at its end, up to 2^32 items, seen as the list and the number of items that will be taken in any case.
#[derive(Drop)]
pub struct Log<T: Share> {
    /// What is written no more.
    sealed: Vec<Chunk<T>>,
    /// What came since.
    newest: Vec<T>,
    count: usize,
}

impl<T: Share> Model for Log<T> {
    ghost use Rattle.std.specs.Prelude.{◌≡◌, ◌≤◌, ◌^◌, ◌-◌, ◌++◌, length, min, vec_len, vec_capacity};
    ghost use Rattle.lasp_log.specs.Log.{Logged, logged, coded_logged, joined};

    ghost Value = { Logged T };

    ghost coded = { coded_logged T.code };

    ghost view = { λ a. logged (joined a.sealed.items ++ a.newest.items) (min (vec_capacity a.newest - vec_len a.newest) (2 ^ 32 - a.count)) };

    ghost invariant = { λ a. (a.count ≡ length (joined a.sealed.items ++ a.newest.items)) × (a.count ≤ 2 ^ 32) };
}

impl<T: Share> Log<T> {
    /// An empty log. It takes no memory yet.
    pub fn new(alloc: Global) -> Log<T>
        ensures { result.items ≡ [] }
    {
        Log {
            sealed: Vec::new(alloc),
            newest: Vec::new(alloc),
            count: 0,
        }
    }

    /// The log of these items, which aren't copied. It fails only where there are more than 2^32.
    pub fn of(items: Vec<T>) -> Result<Log<T>, AllocError>
        ensures { IfOk result (λ log. log.items ≡ items.items) }
    {
        if items.len() > MOST_ITEMS {
            return Err(AllocError);
        }
        let alloc = *items.allocator();
        let count = items.len();
        Ok(Log {
            sealed: Vec::new(alloc),
            newest: items,
            count,
        })
    }

    /// The number of items.
    pub fn len(&self) -> usize
        ensures exact { result ≡ length self.now.items }
        ensures small { result ≤ 2 ^ 32 }
    {
        self.count
    }

    /// The allocator that the log was made with.
    pub fn allocator(&self) -> Global {
        *self.newest.allocator()
    }

    /// Takes memory for so many items more.
    pub fn reserve(&mut self, additional: usize) -> Result<(), AllocError>
        ensures same { self.new.items ≡ self.old.items }
        ensures ok { OnOk result (additional ≤ self.new.room) }
    {
        if additional > MOST_ITEMS - self.count {
            return Err(AllocError);
        }
        self.newest.reserve(additional)
    }

    /// Appends an item. It succeeds where there is room.
    pub fn push(&mut self, item: T) -> Result<(), AllocError>
        ensures ok { OnOk result (self.new.items ≡ self.old.items ++ item ∷ []) }
        ensures err { OnErr result (self.new.items ≡ self.old.items) }
        ensures succeeds { 0 < self.old.room → IsOk result }
        ensures room { self.old.room ≤ self.new.room + 1 }
    {
        if self.count == MOST_ITEMS {
            return Err(AllocError);
        }
        self.newest.push(item)?;
        self.count += 1;
        Ok(())
    }

    /// Makes a chunk of what came since the last one, once it is long enough to be worth a share. No item is copied. Where memory is refused all stays as it is, and a later call seals more.
    pub fn seal(&mut self)
        ensures { self.new.items ≡ self.old.items }
    {
        self.seal_from(FULL)
    }

    /// Makes chunks of all that came, so that a share costs a count for each of a few chunks: a chunk that isn't twice as long as the one behind it becomes one with it, up to a length. So an item is copied at most once for each such length.
    /// Where memory is refused there are more chunks, or items that aren't sealed.
    pub fn close(&mut self)
        ensures { self.new.items ≡ self.old.items }
    {
        self.seal_from(1);
        join_short(&mut self.sealed)
    }

    /// Makes a chunk of what came since the last one, where that has so many items.
    fn seal_from(&mut self, least: usize)
        ensures { self.new.items ≡ self.old.items }
    {
        if self.newest.len() < least || self.sealed.reserve(1).is_err() {
            return;
        }
        let alloc = *self.newest.allocator();
        let items = mem::replace(&mut self.newest, Vec::new(alloc));
        match Chunk::of(alloc, items) {
            Ok(chunk) => self.sealed.push_reserved(chunk),
            Err(refused) => self.newest = refused.value,
        }
    }

    /// An equal log. It costs a share for each chunk and for each item that isn't sealed.
    pub fn share(&self) -> Result<Log<T>, AllocError>
        ensures { IfOk result (λ log. log.items ≡ self.now.items) }
    {
        let alloc = *self.newest.allocator();
        let mut sealed = Vec::with_capacity(alloc, self.sealed.len())?;
        for chunk in &self.sealed {
            sealed.push(chunk.share()?)?;
        }
        let mut newest = Vec::with_capacity(alloc, self.newest.len())?;
        for item in &self.newest {
            newest.push(item.share()?)?;
        }
        Ok(Log {
            sealed,
            newest,
            count: self.count,
        })
    }

    /// A pass over all items.
    pub fn iter(&self) -> Items<'_, T>
        ensures { result ≡ self.now.items }
    {
        Items::of(&[], self.sealed.as_slice(), self.newest.as_slice())
    }

    /// A pass over the items from a place on. It costs a step for each chunk behind the place.
    pub fn since(&self, place: usize) -> Items<'_, T>
        requires { place ≤ length self.now.items }
        ensures { result ≡ drop place self.now.items }
    {
        let mut items = self.newest.as_slice();
        let mut chunks: &[Chunk<T>] = &[];
        let mut newest: &[T] = &[];
        let mut begin = self.count - items.len();
        let mut before = self.sealed.len();
        while place < begin {
            chunks = &self.sealed[before..];
            newest = self.newest.as_slice();
            before -= 1;
            items = self.sealed[before].items();
            begin -= items.len();
        }
        Items::of(&items[place - begin..], chunks, newest)
    }

    /// The item at a place. It costs what the pass from there on does.
    pub fn at(&self, place: usize) -> &T
        requires { place < length self.now.items }
        ensures { slice_get self.now.items place ≡ Some result.now }
    {
        match self.since(place).next() {
            Some(item) => item,
            None => unreachable!(),
        }
    }
}

/// Makes one chunk of the last two, while these are short and of about one length.
fn join_short<T: Share>(chunks: &mut Vec<Chunk<T>>)
    ensures { joined chunks.new.items ≡ joined chunks.old.items }
{
    while is_to_join(chunks) {
        if join_last(chunks).is_err() {
            return;
        }
    }
}

/// Whether the last two chunks are short, and of about one length.
fn is_to_join<T: Share>(chunks: &[Chunk<T>]) -> bool
    ensures { IsTrue result → 2 ≤ length chunks.now }
{
    let count = chunks.len();
    if count < 2 {
        return false;
    }
    let before = chunks[count - 2].items().len();
    before < FULL && before / 2 < chunks[count - 1].items().len()
}

/// Makes one chunk of the last two.
fn join_last<T: Share>(chunks: &mut Vec<Chunk<T>>) -> Result<(), AllocError>
    requires { 2 ≤ length chunks.old.items }
    ensures joined { joined chunks.new.items ≡ joined chunks.old.items }
    ensures fewer { OnOk result (length chunks.new.items < length chunks.old.items) }
{
    let count = chunks.len();
    let whole = both(*chunks.allocator(), &chunks[count - 2], &chunks[count - 1])?;
    chunks.truncate(count - 2);
    chunks.push_reserved(whole);
    Ok(())
}

/// The items of two chunks as one.
fn both<T: Share>(
    alloc: Global,
    first: &Chunk<T>,
    second: &Chunk<T>,
) -> Result<Chunk<T>, AllocError>
    ensures { IfOk result (λ c. c ≡ first.now ++ second.now) }
{
    let mut items = Vec::new(alloc);
    share_into(&mut items, first.items())?;
    share_into(&mut items, second.items())?;
    match Chunk::of(alloc, items) {
        Ok(chunk) => Ok(chunk),
        Err(_) => Err(AllocError),
    }
}

/// Appends shares of some items.
fn share_into<T: Share>(items: &mut Vec<T>, more: &[T]) -> Result<(), AllocError>
    ensures { OnOk result (items.new.items ≡ items.old.items ++ more.now) }
{
    items.reserve(more.len())?;
    for item in more {
        items.push(item.share()?)?;
    }
    Ok(())
}
