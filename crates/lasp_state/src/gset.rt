//! The set that only grows.

ghost use Rattle.std.specs.Prelude.{◌≡◌, ◌≢◌, ◌≤◌, ◌^◌, ◌↔◌, ◌++◌, ◌∷◌, [], IfOk, OnOk, OnErr, IsTrue, length, map, string_bytes};
ghost use Rattle.lasp_state.specs.Prelude.{shown_values, IsHeld, AreAscending, unite, IsWithin, val_of, IsBounded, values_weight};

use super::elements::Elements;
use lasp_logset::{Entry, OrSet, add_delta};
use lasp_value::{Token, Value};
use std::alloc::{AllocError, Global};
use std::marker::Model;

/// A set of values that only grows, seen as the list of its values, ascending. It is kept as an observed-remove set of which nothing is removed,
/// so that its values are shared and an update costs a look-up.
#[derive(Drop)]
pub struct GSet {
    members: OrSet,
}

impl Model for GSet {
    ghost use Rattle.std.specs.Prelude.{List};
    ghost use Rattle.std.specs.Coded.{coded_list};
    ghost use Rattle.model_values.specs.Value.{Val, coded_val};
    ghost use Rattle.lasp_state.specs.Members.{values_of, AreMembers};

    ghost Value = { List Val };

    ghost coded = { coded_list coded_val };

    ghost view = { λ a. values_of a.members };

    ghost invariant = { λ a. AreMembers a.members };
}

impl GSet {
    /// The least set, which has no values; it takes no memory yet.
    pub fn new(alloc: Global) -> GSet
        ensures { result ≡ [] }
    {
        GSet {
            members: OrSet::new(alloc),
        }
    }

    /// The set of values that ascend already. It costs no search and no copy of a value; it has no table yet.
    pub fn from_ascending(alloc: Global, values: Vec<Value>) -> Result<GSet, AllocError>
        requires { AreAscending (map val_of values.items) }
        ensures { IfOk result (λ s. s ≡ map val_of values.items) }
    {
        let mut rows = Vec::with_capacity(alloc, values.len())?;
        for value in values {
            rows.push(Entry::new(alloc, value, Token::Base(0, 0), false)?)?;
        }
        Ok(GSet {
            members: OrSet::of_ascending(rows)?,
        })
    }

    /// What an update joins in where it inserts a value: the set of this value alone. It costs one copy of the value.
    pub fn insert_delta(alloc: Global, value: &Value) -> Result<GSet, AllocError>
        ensures { IfOk result (λ s. s ≡ val_of value.now ∷ []) }
    {
        Ok(GSet {
            members: add_delta(alloc, value, 0, 0)?,
        })
    }

    /// An equal set; it shares the values, and the table where there is one.
    pub fn try_clone(&self) -> Result<GSet, AllocError>
        ensures { IfOk result (λ s. s ≡ self.now) }
    {
        Ok(GSet {
            members: self.members.try_clone()?,
        })
    }

    /// An equal set without a table, for what is kept while this one goes on growing. Reads that need a table make one each time.
    pub fn past(&self) -> Result<GSet, AllocError>
        ensures { IfOk result (λ s. s ≡ self.now) }
    {
        Ok(GSet {
            members: self.members.past()?,
        })
    }

    /// Puts what came behind a table that others shared into it, where no one else has it by now. It costs a look-up for each of these values.
    pub fn gather(&mut self)
        ensures { self.new ≡ self.old }
    {
        self.members.gather();
    }

    /// Closes the log, so that a share of it costs a count for each of a few chunks, where no one else has the table.
    pub fn close(&mut self)
        ensures { self.new ≡ self.old }
    {
        self.members.close();
    }

    /// Sees that a value is found without a pass, where no one else has the table. It costs a look-up for each value that came since the last call.
    pub fn index_values(&mut self)
        ensures { self.new ≡ self.old }
    {
        self.members.index_values();
    }

    /// Recalls, at no cost, that the values ascend.
    pub fn ascends(&self)
        ensures { AreAscending self.now }
    {
        self.members.ascends();
    }

    /// Whether the value is in the set. It costs two look-ups and a pass over the values that came since `index_values`; where there is no table one is made.
    pub fn has(&self, value: &Value) -> bool
        ensures { IsTrue result ↔ IsHeld self.now (val_of value.now) }
    {
        self.members.has(value)
    }

    /// The number of values.
    pub fn len(&self) -> u64
        ensures exact { result ≡ length self.now }
        ensures small { result ≤ 2 ^ 32 }
    {
        self.members.rows()
    }

    /// A number that is at least what the values weigh, in constant time.
    #[tactic(auto, using(crate::proofs::MemberLaws::values_bounded))]
    pub fn weight(&self) -> u64
        ensures { IsBounded (values_weight self.now) result }
    {
        self.members.weight()
    }

    /// An equal set whose values are found by look-ups. It costs an insertion for each value.
    pub fn indexed(&self) -> Result<GSet, AllocError>
        ensures { IfOk result (λ s. s ≡ self.now) }
    {
        Ok(GSet {
            members: self.members.indexed()?,
        })
    }

    /// A pass over the values, first to last. It takes memory for a pointer to each, and sorts these.
    pub fn sorted(&self) -> Result<Elements<'_>, AllocError>
        ensures { IfOk result (λ values. values ≡ self.now) }
    {
        Ok(Elements {
            rows: self.members.in_order()?,
        })
    }

    /// The number of values that the join with another set has. Each value of one of them costs a look-up in the other one: of two with tables, each of the smaller one. It takes no memory where that other one has a table.
    pub fn joined_len(&self, other: &GSet) -> u64
        ensures { result ≡ length (unite self.now other.now) }
    {
        self.members.joined_rows(&other.members)
    }

    /// Whether each value is in the other set. It costs a look-up for each value, and nothing where this set has more values; where the other set has no table one is made.
    pub fn is_within(&self, other: &GSet) -> bool
        ensures { IsTrue result ↔ IsWithin self.now other.now }
    {
        self.members.le(&other.members)
    }

    /// Joins another set in, and tells whether this one grew. It costs a look-up for each of the other set's values, and another one for each that is new; where there is a table and they bring nothing new it takes no memory.
    pub fn unite(&mut self, other: &GSet) -> Result<bool, AllocError>
        ensures ok { OnOk result (self.new ≡ unite self.old other.now) }
        ensures grew { IfOk result (λ grew. IsTrue grew ↔ (self.new ≢ self.old)) }
        ensures err { OnErr result (self.new ≡ self.old) }
    {
        self.members.join_in(&other.members)
    }

    /// Appends the values as a JSON array. It copies no value, and costs what `sorted` does. After want of memory a part may have been appended.
    pub fn print_into(&self, out: &mut String) -> Result<(), AllocError>
        ensures { OnOk result (string_bytes out.new ≡ string_bytes out.old ++ shown_values self.now) }
    {
        self.members.ascends();
        self.members.print_into(out)
    }

    /// The least set, by the same allocator.
    pub(crate) fn empty(&self) -> GSet
        ensures { result ≡ [] }
    {
        GSet {
            members: self.members.empty(),
        }
    }
}
