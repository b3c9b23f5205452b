//! Derived variables that are brought up to their inputs in place, without a job.

ghost use Rattle.std.specs.Prelude.{◌≡◌, ◌+◌, ◌<◌, ◌≤◌, [], Err, IfOk, IfSome, OnOk, OnErr, IsTrue, IsFalse, length, map, drop, is_some};
ghost use Rattle.lasp_replica.specs.Prelude.{arc_value, changed, rows_with, AreGiven, IsUpToDate, of_rows, of_set, join, size_of, row_limit, is_set, kind_at, kind_of, has_two, rows_before, growths_at, log_at, equation, IsDerived, entry, contents_of, held_of, held_at, extended, number_by, content_of, news_of, AreInputsNow, IsUnread, AreNew, AreRowsOf, IsTakenOn, told, kept_at, IsReplica, Goes, Stays, frame_of, entries_of};
ghost use Rattle.lasp_state.specs.State.{shape_of};
ghost use Rattle.model_journal.specs.Entry as model;
ghost use Rattle.model_readings.specs.Lawful.{FitsAll};
ghost use Rattle.lasp_fns.specs.Steps as counted;
ghost use Rattle.lasp_graph.specs.Library.{library_of};

use super::finish::{past_inputs, rebase, rows_of, write_down};
use super::least::has_two;
use super::sizes::{is_set, new_rows, rows_fit};
use super::update::record_growth;
use super::{MOST_ROWS, Replica};
use crate::entry::{Act, Entry};
use crate::{History, Unread};
use lasp_fns::StepLib;
use lasp_graph::{EvalRefused, Inputs, Kind, RowsGained, node_rows_gained};
use lasp_logset::{Entry as Row, OrSet, RowList};
use lasp_state::State;
use std::alloc::AllocError;

/// The rows that the history of a variable tells where these, which are new in it, are joined in: all of them where it is a set, else none.
fn told_rows<'a>(state: &State, rows: &'a OrSet, none: &'a OrSet) -> &'a OrSet
    requires new { AreNew (held_of state.now) rows.now }
    requires none { none.now ≡ [] }
    ensures { result.now ≡ news_of (shape_of state.now) (content_of state.now) (of_set (join (content_of state.now).rows rows.now)) }
{
    if is_set(state) {
        return rows;
    }
    none
}

/// The growth that a variable has prepared is one by these rows, where the variable tells rows.
fn tell(histories: &mut Vec<History>, var: u8, is_told: bool, rows: RowList)
    requires within { var < length histories.old.items }
    requires later { 0 < length (kept_at histories.old.items var).history.growths }
    requires prepared { IsTrue (kept_at histories.old.items var).prepared }
    requires room { length rows ≤ (kept_at histories.old.items var).room }
    ensures told { map told histories.new.items ≡ map told histories.old.items }
    ensures prepared { IsTrue (kept_at histories.new.items var).prepared }
    ensures rows { IsTrue is_told → AreRowsOf rows (kept_at histories.new.items var).pending }
    ensures none { IsFalse is_told → (kept_at histories.new.items var).pending ≡ (kept_at histories.old.items var).pending }
{
    if is_told {
        histories[var as usize].put_in(rows);
    }
}

impl Replica {
    /// The rows that changed in the inputs of a derived variable since it last read them. Both are first made ready to be looked up in.
    pub fn unread(&mut self, var: u8) -> Result<Unread, AllocError>
        requires replica { IsReplica self.old }
        requires derived { IsDerived (arc_value self.old.graph) var }
        ensures ok { IfOk result (IsUnread (frame_of self.old) (entries_of self.old) var) }
        ensures same { self.new ≡ self.old }
    {
        self.ready_in_place(var);
        let unread = self.unread_ready(var)?;
        if self.keeps_inputs(var) {
            self.close_inputs(var, unread.rows());
        }
        Ok(unread)
    }

    /// The same, where the inputs are ready.
    fn unread_ready(&self, var: u8) -> Result<Unread, AllocError>
        requires replica { IsReplica self.now }
        requires derived { IsDerived (arc_value self.now.graph) var }
        ensures { IfOk result (IsUnread (frame_of self.now) (entries_of self.now) var) }
    {
        let kind = &self.graph.at(u64::from(var)).kind;
        let n = self.base_of(var);
        match kind.inputs() {
            None => unreachable!(),
            Some((x, y)) => {
                let first = self.changed_rows(x, n)?;
                let second = self.second_rows(kind, y, n)?;
                Ok(Unread { first, second })
            }
        }
    }

    /// The rows of the second input of a process of this kind that changed since the first n entries, where it has two.
    fn second_rows(&self, kind: &Kind, y: u8, n: u64) -> Result<Option<RowList>, AllocError>
        requires replica { IsReplica self.now }
        requires var { y < length (arc_value self.now.graph) }
        requires set { IsTrue (is_set (kind_at (arc_value self.now.graph) y)) }
        ensures two { IfOk result (λ second. is_some second ≡ has_two (kind_of kind.now)) }
        ensures rows { IfOk result (λ second. IfSome second (λ rows. rows ≡ of_rows (drop (rows_before (growths_at self.now y) n) (log_at self.now y)))) }
    {
        if has_two(kind) {
            return Ok(Some(self.changed_rows(y, n)?));
        }
        Ok(None)
    }

    /// Brings a derived variable up to its inputs, of which these rows changed: it is bound to them as they are. All memory is taken before anything changes.
    /// It costs the changed rows and the rows that they give, each of which goes into the variable's own table alone where the variable grew before, nobody shares its state and they surely aren't too many; and shares of the inputs' logs where the result of a job of the variable was taken in before. It calls a stored function at most once for each changed row of the first input.
    pub fn settle_var(
        &mut self,
        by: u64,
        var: u8,
        unread: &Unread,
        lib: &mut StepLib,
    ) -> Result<(), EvalRefused>
        requires replica { IsReplica self.old }
        requires derived { IsDerived (arc_value self.old.graph) var }
        requires unread { IsUnread (frame_of self.old) (entries_of self.old) var unread.now }
        requires fits { FitsAll (library_of (counted.library_of lib.old)) (arc_value self.old.graph) }
        ensures ok { OnOk result (Goes (entry by (model.Bind var (length (entries_of self.old)))) self.old self.new) }
        ensures err { OnErr result (Stays self.old self.new) }
        ensures large { result ≡ Err EvalRefused.TooManyRows → row_limit < size_of (equation (kind_at (arc_value self.old.graph) var) (contents_of self.old.states)) }
        ensures library { counted.library_of lib.new ≡ counted.library_of lib.old }
        ensures ticks { counted.ticks_of lib.new ≤ counted.ticks_of lib.old + length unread.now.first }
    {
        let given = self.rows_given(var, unread, lib)?;
        let base = self.inputs_to_keep(var)?;
        let grows = self.take_in(var, given)?;
        let n = self.journal.len() as u64;
        record_growth(&mut self.histories, var, grows, n);
        write_down(
            &mut self.journal,
            Entry {
                by,
                what: Act::Bind(var, n),
            },
        );
        rebase(&mut self.processes, var, n, base);
        Ok(())
    }

    /// The rows that these changes give to a derived variable, some of which it may have, and its number.
    fn rows_given(
        &self,
        var: u8,
        unread: &Unread,
        lib: &mut StepLib,
    ) -> Result<RowsGained, EvalRefused>
        requires replica { IsReplica self.now }
        requires derived { IsDerived (arc_value self.now.graph) var }
        requires unread { IsUnread (frame_of self.now) (entries_of self.now) var unread.now }
        requires fits { FitsAll (library_of (counted.library_of lib.old)) (arc_value self.now.graph) }
        ensures whole { IfOk result (λ a. AreGiven self.now var (of_rows a.rows.items)) }
        ensures number { IfOk result (λ a. a.number ≡ number_by (kind_at (arc_value self.now.graph) var) (equation (kind_at (arc_value self.now.graph) var) (contents_of self.now.states))) }
        ensures large { result ≡ Err EvalRefused.TooManyRows → row_limit < size_of (equation (kind_at (arc_value self.now.graph) var) (contents_of self.now.states)) }
        ensures library { counted.library_of lib.new ≡ counted.library_of lib.old }
        ensures ticks { counted.ticks_of lib.new ≤ counted.ticks_of lib.old + length unread.now.first }
    {
        let kind = &self.graph.at(u64::from(var)).kind;
        match kind.inputs() {
            None => unreachable!(),
            Some((x, y)) => node_rows_gained(
                self.allocator(),
                &self.graph,
                lib,
                var,
                self.states.at(u64::from(var)),
                self.states.at(u64::from(x)),
                &unread.first,
                self.states.at(u64::from(y)),
                unread.second(),
            ),
        }
    }

    /// Whether the process of a derived variable keeps the inputs that it read.
    fn keeps_inputs(&self, var: u8) -> bool
        requires replica { IsReplica self.now }
        requires derived { IsDerived (arc_value self.now.graph) var }
    {
        match &self.processes[var as usize] {
            None => false,
            Some(process) => process.base.is_some(),
        }
    }

    /// The inputs of a derived variable as they are, where its process keeps them while they go on growing.
    fn inputs_to_keep(&self, var: u8) -> Result<Option<Inputs>, AllocError>
        requires replica { IsReplica self.now }
        requires derived { IsDerived (arc_value self.now.graph) var }
        ensures { IfOk result (λ kept. IfSome kept (AreInputsNow self.now var)) }
    {
        if self.keeps_inputs(var) {
            return Ok(Some(self.inputs_now(var)?));
        }
        Ok(None)
    }

    /// The inputs of a derived variable as they are, to be kept.
    fn inputs_now(&self, var: u8) -> Result<Inputs, AllocError>
        requires replica { IsReplica self.now }
        requires derived { IsDerived (arc_value self.now.graph) var }
        ensures { IfOk result (AreInputsNow self.now var) }
    {
        let kind = &self.graph.at(u64::from(var)).kind;
        match kind.inputs() {
            None => unreachable!(),
            Some((x, y)) => {
                let inputs = self.inputs(kind, x, y)?;
                past_inputs(self.allocator(), &inputs)
            }
        }
    }

    /// Joins rows into a variable, unless it would have too many, and takes all memory that writing them down needs. Whether it grows.
    fn take_in(&mut self, var: u8, given: RowsGained) -> Result<bool, EvalRefused>
        requires replica { IsReplica self.old }
        requires derived { IsDerived (arc_value self.old.graph) var }
        requires whole { AreGiven self.old var (of_rows given.rows.items) }
        requires number { given.number ≡ number_by (kind_at (arc_value self.old.graph) var) (equation (kind_at (arc_value self.old.graph) var) (contents_of self.old.states)) }
        ensures ok { IfOk result (λ grows. IsTakenOn var (extended (held_at self.old.states var) (of_rows given.rows.items) given.number) grows self.old self.new) }
        ensures state { IfOk result (λ grows. IsUpToDate self.old var (extended (held_at self.old.states var) (of_rows given.rows.items) given.number)) }
        ensures large { result ≡ Err EvalRefused.TooManyRows → row_limit < size_of (equation (kind_at (arc_value self.old.graph) var) (contents_of self.old.states)) }
        ensures err { OnErr result (Stays self.old self.new) }
    {
        if self.takes_rows(var, &given.rows) {
            return Ok(self.take_rows(var, given)?);
        }
        let new = self.rows_to_take(var, &given.rows)?;
        Ok(self.take_on(var, &new, given.number)?)
    }

    /// Whether rows go into a variable one by one: it grew before, and they aren't too many even where it has none of them.
    fn takes_rows(&self, var: u8, rows: &[Row]) -> bool
        requires replica { IsReplica self.now }
        requires derived { IsDerived (arc_value self.now.graph) var }
        ensures grew { IsTrue result → 0 < length (growths_at self.now var) }
        ensures few { IsTrue result → length (held_at self.now.states var).content.rows + length rows.now ≤ row_limit }
    {
        let present = rows_of(self.states.at(u64::from(var))).rows();
        self.histories[var as usize].version() > 0 && present + rows.len() as u64 <= MOST_ROWS
    }

    /// Joins rows into a variable that grew before, one by one, and takes all memory that writing them down needs. Whether it grows.
    fn take_rows(&mut self, var: u8, given: RowsGained) -> Result<bool, AllocError>
        requires replica { IsReplica self.old }
        requires derived { IsDerived (arc_value self.old.graph) var }
        requires grew { 0 < length (growths_at self.old var) }
        requires number { given.number ≡ number_by (kind_at (arc_value self.old.graph) var) (equation (kind_at (arc_value self.old.graph) var) (contents_of self.old.states)) }
        ensures ok { IfOk result (λ grows. IsTakenOn var (extended (held_at self.old.states var) (of_rows given.rows.items) given.number) grows self.old self.new) }
        ensures err { OnErr result (Stays self.old self.new) }
    {
        let alloc = self.allocator();
        let x = u64::from(var);
        let is_told = is_set(self.states.at(x));
        self.histories[var as usize].prepare_for(given.rows.len())?;
        self.journal.reserve(1)?;
        let new = self.states.take_in_at(alloc, x, given.rows, given.number)?;
        let grows = new.len() > 0;
        tell(&mut self.histories, var, is_told, new);
        Ok(grows)
    }

    /// Those of the rows that a variable hasn't, as a set, unless it would have too many with them.
    fn rows_to_take(&self, var: u8, rows: &[Row]) -> Result<OrSet, EvalRefused>
        requires replica { IsReplica self.now }
        requires derived { IsDerived (arc_value self.now.graph) var }
        requires whole { AreGiven self.now var (of_rows rows.now) }
        ensures new { IfOk result (λ new. new ≡ changed (held_at self.now.states var).content.rows (of_rows rows.now)) }
        ensures small { IfOk result (λ new. length (rows_with self.now var (of_rows rows.now)) ≤ row_limit) }
        ensures large { result ≡ Err EvalRefused.TooManyRows → row_limit < size_of (equation (kind_at (arc_value self.now.graph) var) (contents_of self.now.states)) }
    {
        let alloc = self.allocator();
        let given = OrSet::of_rows(alloc, rows)?;
        let present = rows_of(self.states.at(u64::from(var)));
        let new = new_rows(alloc, present, &given)?;
        if !rows_fit(present, &new) {
            return Err(EvalRefused::TooManyRows);
        }
        Ok(new)
    }

    /// Joins new rows into a variable, and takes all memory that writing them down needs. Whether it grows.
    fn take_on(&mut self, var: u8, rows: &OrSet, number: i128) -> Result<bool, AllocError>
        requires replica { IsReplica self.old }
        requires derived { IsDerived (arc_value self.old.graph) var }
        requires new { AreNew (held_at self.old.states var) rows.now }
        requires number { number ≡ number_by (kind_at (arc_value self.old.graph) var) (equation (kind_at (arc_value self.old.graph) var) (contents_of self.old.states)) }
        ensures ok { IfOk result (λ grows. IsTakenOn var (extended (held_at self.old.states var) rows.now number) grows self.old self.new) }
        ensures err { OnErr result (Stays self.old self.new) }
    {
        let alloc = self.allocator();
        let x = u64::from(var);
        let grows = rows.rows() > 0;
        let none = rows.empty();
        let told = told_rows(self.states.at(x), rows, &none);
        self.histories[var as usize].prepare(told)?;
        self.journal.reserve(1)?;
        self.states.extend_at(alloc, x, rows, number)?;
        Ok(grows)
    }
}
