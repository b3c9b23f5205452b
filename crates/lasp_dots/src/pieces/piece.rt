//! A run of items that several lists may share. It is copied before it changes, unless no other list has it.

ghost use Rattle.std.specs.Prelude.{◌≡◌, ◌<◌, ◌≤◌, ◌++◌, IfOk, OnOk, OnErr, length};
ghost use Rattle.std.specs.Arc.{arc_value};
ghost use Rattle.std.specs.List.{insert};

use lasp_log::Share;
use std::alloc::{AllocError, Global};
use std::marker::Model;
use std::sync::Arc;

/// The number of items from which on a piece is halved before one is put in.
pub(crate) const FULL: usize = 128;

/// For how many items more the memory of a piece grows. Doubling would leave a third of it unused.
const STEP: usize = 16;

#[derive(Drop)]
pub struct Piece<T: Share> {
    items: Arc<Vec<T>>,
}

impl<T: Share> Model for Piece<T> {
    ghost use Rattle.std.specs.Prelude.{List};
    ghost use Rattle.std.specs.Arc.{arc_value};
    ghost use Rattle.std.specs.Coded.{coded_list};

    ghost Value = { List T };

    ghost coded = { coded_list T.code };

    ghost view = { λ a. (arc_value a.items).items };
}

impl<T: Share> Piece<T> {
    /// A piece of these items.
    pub(crate) fn of(alloc: Global, items: Vec<T>) -> Result<Piece<T>, AllocError>
        ensures { IfOk result (λ c. c ≡ items.items) }
    {
        Ok(Piece {
            items: Arc::new(alloc, items)?,
        })
    }

    /// A share of the same items.
    pub(crate) fn share(&self) -> Result<Piece<T>, AllocError>
        ensures { IfOk result (λ c. c ≡ self.now) }
    {
        Ok(Piece {
            items: Arc::try_clone(&self.items)?,
        })
    }

    pub(crate) fn items(&self) -> &[T]
        ensures { result.now ≡ self.now }
    {
        self.items.as_slice()
    }

    /// Puts an item in at a place.
    pub(crate) fn insert(&mut self, alloc: Global, at: usize, item: T) -> Result<(), AllocError>
        requires { at ≤ length self.old }
        ensures ok { OnOk result (self.new ≡ insert self.old at item) }
        ensures err { OnErr result (self.new ≡ self.old) }
    {
        insert_shared(alloc, &mut self.items, at, item)
    }

    /// Copies of the first half of the items and of the second.
    pub(crate) fn halves(&self, alloc: Global) -> Result<(Piece<T>, Piece<T>), AllocError>
        requires { 1 < length self.now }
        ensures parts { IfOk result (λ p. p.0 ++ p.1 ≡ self.now) }
        ensures low { IfOk result (λ p. 0 < length p.0) }
        ensures high { IfOk result (λ p. 0 < length p.1) }
    {
        let items = self.items();
        let middle = items.len() / 2;
        let low = copied(alloc, &items[..middle])?;
        let high = copied(alloc, &items[middle..])?;
        Ok((Piece::of(alloc, low)?, Piece::of(alloc, high)?))
    }
}

/// Puts an item in among shared ones: in place where no one else has them, else in a copy.
fn insert_shared<T: Share>(
    alloc: Global,
    shared: &mut Arc<Vec<T>>,
    at: usize,
    item: T,
) -> Result<(), AllocError>
    requires { at ≤ length (arc_value shared.old).items }
    ensures ok { OnOk result ((arc_value shared.new).items ≡ insert (arc_value shared.old).items at item) }
    ensures err { OnErr result ((arc_value shared.new).items ≡ (arc_value shared.old).items) }
{
    if let Some(items) = Arc::get_mut(shared) {
        make_room(alloc, items)?;
        items.insert(at, item)?;
        return Ok(());
    }
    let mut copy = copied(alloc, shared.as_slice())?;
    copy.insert(at, item)?;
    *shared = Arc::new(alloc, copy)?;
    Ok(())
}

/// Makes room for an item where there is none.
fn make_room<T: Share>(alloc: Global, items: &mut Vec<T>) -> Result<(), AllocError>
    ensures { items.new.items ≡ items.old.items }
{
    if items.len() < items.capacity() {
        return Ok(());
    }
    let mut roomy = Vec::with_capacity(alloc, items.len().saturating_add(STEP))?;
    roomy.append(items)?;
    *items = roomy;
    Ok(())
}

/// The same items in a vector of their own, which has room for one more.
pub(crate) fn copied<T: Share>(alloc: Global, items: &[T]) -> Result<Vec<T>, AllocError>
    ensures { IfOk result (λ copy. copy.items ≡ items.now) }
{
    let mut copy = Vec::with_capacity(alloc, items.len().saturating_add(1))?;
    push_shares(&mut copy, items)?;
    Ok(copy)
}

/// Appends shares of items.
pub(crate) fn push_shares<T: Share>(copy: &mut Vec<T>, items: &[T]) -> Result<(), AllocError>
    ensures { OnOk result (copy.new.items ≡ copy.old.items ++ items.now) }
{
    for item in items {
        copy.push(item.share()?)?;
    }
    Ok(())
}
