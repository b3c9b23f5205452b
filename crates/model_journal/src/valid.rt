//! What keeps contents valid, kind by kind.

ghost use Rattle.std.specs.Prelude.{ℕ, ◌<◌, ◌≤◌, IsFalse, List};
ghost use Rattle.model_values.specs.Value.{Val};
ghost use Rattle.model_values.specs.Token.{Tok};
ghost use Rattle.model_values.specs.Size.{IsSized};
ghost use Rattle.model_sets.specs.Rows.{HasRow};
ghost use Rattle.model_states.specs.Content.{Content, join_contents, size_of, row_limit};
ghost use Rattle.model_states.specs.Update.{Op, delta};
ghost use Rattle.model_graph.specs.Graph.{Kind, is_source, IsInput};
ghost use Rattle.model_graph.specs.Evaluation.{least_of, content_at, equation};
ghost use Rattle.model_graph.specs.Lawful.{width_limit, width_at, width_of};
ghost use Rattle.model_journal.specs.Legal.{IsValid, IsOpOf, IsSmallOp, count_limit};

/// What a variable has before anything happened, joins, the deltas of updates, and equations of valid contents are valid, as long as there is room and no variable is too wide. A value of a valid content may be handed to a stored function.
pub fn contents_stay_valid()
    ensures least { (nodes : ℕ) (k : Kind) (w : ℕ) → IsValid nodes k w (least_of nodes k) }
    ensures join { (nodes : ℕ) (k : Kind) (w : ℕ) (s t : Content) → IsValid nodes k w s → IsValid nodes k w t → size_of (join_contents s t) ≤ row_limit → IsValid nodes k w (join_contents s t) }
    ensures delta { (nodes replica number : ℕ) (k : Kind) (op : Op) (s : Content) → IsValid nodes k 1 s → IsOpOf k op → IsSmallOp nodes k op → replica < nodes → 1 ≤ number → number ≤ count_limit → IsValid nodes k 1 (delta op s replica number) }
    ensures equation { (nodes : ℕ) (kinds : ℕ → Kind) (k : Kind) (ws : List ℕ) (ss : List Content) → IsFalse (is_source k) → width_of k ws ≤ width_limit
        → ((x : ℕ) → IsInput k x → IsValid nodes (kinds x) (width_at ws x) (content_at ss x)) → size_of (equation k ss) ≤ row_limit → IsValid nodes k (width_of k ws) (equation k ss) }
    ensures sized { (nodes : ℕ) (k : Kind) (w : ℕ) (s : Content) → IsValid nodes k w s → w ≤ width_limit → (v : Val) (t : Tok) → HasRow s.rows v t → IsSized v }
{}
