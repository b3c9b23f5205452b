//! An example: two binds that come out of order.

ghost use Rattle.std.specs.Prelude.{◌≡◌, pos, false, [], ◌∷◌, take};
ghost use Rattle.model_values.specs.Value.{int};
ghost use Rattle.model_values.specs.Token.{single};
ghost use Rattle.model_journal.specs.Journal.{val};
ghost use Rattle.model_journal.specs.Clean.{base, IsClean};
ghost use Rattle.model_examples.specs.Journals.{example_frame, example_entries};

/// The union has both values after the first bind; the later bind, which read less, changes nothing, and the union is clean.
#[tactic(auto, using(crate::proofs::JournalLaws::example))]
pub fn a_late_bind_changes_nothing()
    ensures rows { (val example_frame example_entries 2).rows ≡ ((int (pos 1), single 0 1), false) ∷ ((int (pos 2), single 0 2), false) ∷ [] }
    ensures late { val example_frame example_entries 2 ≡ val example_frame (take 3 example_entries) 2 }
    ensures base { base example_frame example_entries 2 ≡ 2 }
    ensures clean { IsClean example_frame example_entries 2 }
{}
