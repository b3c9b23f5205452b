//! Cases of a replica's entries: two binds of one variable, in either order.

ghost use Rattle.std.specs.Prelude.{◌≡◌, ℕ, pos, [], ◌∷◌, length, take};
ghost use Rattle.model_values.specs.Value.{int};
ghost use Rattle.model_sets.specs.Values.{visible};
ghost use Rattle.model_journal.specs.Journal.{vals, val};
ghost use Rattle.model_journal.specs.Clean.{version, applied, IsClean};
ghost use Rattle.model_journal.specs.Legal.{IsLegal};
ghost use Rattle.model_examples.specs.Journals.{example_frame, example_entries};
ghost use Rattle.model_examples.specs.Binds.{entries_in_order, contents_with, union_of_one, union_of_both, map_frame, map_entries, mapped_contents};

/// A bind that read one value gives the union that value, and the bind that read both brings the other. Where the bind that read both comes first, the one that read less changes nothing; the contents at the end are the same.
#[tactic(auto, using(crate::proofs::BindLaws::binds))]
pub fn binds_may_come_out_of_order()
    ensures early { vals example_frame (take 3 entries_in_order) ≡ contents_with union_of_one }
    ensures ordered { vals example_frame entries_in_order ≡ contents_with union_of_both }
    ensures first { vals example_frame (take 3 example_entries) ≡ contents_with union_of_both }
    ensures late { vals example_frame example_entries ≡ contents_with union_of_both }
{}

/// Two binds of a map, of which the one that read both values comes first. The entries are legal, the map shows the one value that both become, and every variable is clean. After the first add alone, the map has not applied what its set is at.
#[tactic(auto, using(crate::proofs::BindLaws::map_binds, crate::proofs::MapLaws::legal))]
pub fn a_map_is_clean_after_two_binds_out_of_order()
    ensures legal { IsLegal map_frame map_entries }
    ensures contents { vals map_frame map_entries ≡ mapped_contents }
    ensures shown { visible (val map_frame map_entries 1).rows ≡ int (pos 1) ∷ [] }
    ensures clean { (y : ℕ) → IsClean map_frame map_entries y }
    ensures long { length map_entries ≡ 4 }
    ensures behind { (applied map_frame (take 1 map_entries) 1 0 ≡ 0) × (version map_frame (take 1 map_entries) 0 ≡ 1) }
{}
