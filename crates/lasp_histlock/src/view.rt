//! What a seat at the lock's table knows. No value of these types is made: they stand in proofs alone.

use std::collections::LinkedList;

/// The name of a table, as plain data that a view can hold.
pub struct TableName {
    pub words: u64,
    pub slots: u64,
    pub views_name: u64,
    pub atom: u64,
    pub block: u64,
    pub offset: u64,
    pub slot_names: LinkedList<u64>,
}

/// The view of a pass, or of the carrier that lies beside the value while the lock is free.
pub struct View<E, F> {
    /// It was joined into another view, and counts no longer.
    pub spent: bool,
    /// The first view, before the name of its table was written into it.
    pub fresh: bool,
    pub lock: TableName,
    /// The frame of the lock's value; a spent view has none.
    pub frame: Option<F>,
    /// It is a pass's view, and not a carrier's.
    pub pass: bool,
    pub number: u64,
    /// The numbers given out so far, at the first pass.
    pub made: u64,
    /// The numbers of the passes that came back to the first pass out of turn.
    pub back: LinkedList<u64>,
    pub turn: bool,
    /// The slot's content is out with this pass.
    pub out: bool,
    /// The slot itself is out with this pass.
    pub lifted: bool,
    /// It has the whole history.
    pub carries: bool,
    /// A beginning of the history.
    pub seen: LinkedList<E>,
    /// The entries of the history that name this pass's number.
    pub own: LinkedList<E>,
    pub misses: u64,
    pub looks: u64,
    pub told: u64,
    /// Another view was joined in, and the next step tells what the rule knows of both.
    pub noted: bool,
    /// What this view had seen before that joining.
    pub before: LinkedList<E>,
    /// What the other view had seen.
    pub beside: LinkedList<E>,
    /// The number that `theirs` are the entries of.
    pub whose: u64,
    pub theirs: LinkedList<E>,
    /// The frame of the other view.
    pub mark: Option<F>,
}
