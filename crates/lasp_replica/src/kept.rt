//! What a replica keeps after each entry.

ghost use Rattle.std.specs.Prelude.{◌≡◌, ℕ, ◌+◌, ◌<◌, ◌≤◌, IsTrue, List, [], ◌∷◌, ◌++◌, length, map, take, slice_set, Some};
ghost use Rattle.lasp_replica.specs.Prelude.{count_at, zeros, Row, AreRowsOf, IsContentAtMost, join_contents, Op, delta, Decl, is_source, kind_at, equation, IsDerived, IsGraph, Message, Update, Deliver, Bind, Extend, Entry, Frame, vals, val, counts, base, IsLegal, grown, no_history, Held, held_at, number_by, Base, Parts, IsBase, history_at, news_of, fresh_base, fresh_state, IsKept, IsTakenIn, IsInOrder};
ghost use Rattle.lasp_graph.specs.States as states;

/// Before the first entry every variable is least, and no process has read anything; so starts a declared variable, and the others stay.
pub fn declarations_are_kept()
    ensures fresh { (X : Frame) → IsGraph X.opening → X.replica < X.nodes
        → IsKept X [] (record { graph = X.opening; counts = zeros X.nodes; states = map (fresh_state X.nodes) X.opening; histories = map (λ d. no_history) X.opening; bases = map (λ d. fresh_base d.kind) X.opening }) }
    ensures extended { (X : Frame) (entries : List Entry) → IsLegal X entries → (e : Entry) → IsLegal X (entries ++ e ∷ []) → (d : Decl) → e.act ≡ Extend d → (p : Parts) → IsKept X entries p
        → IsKept X (entries ++ e ∷ []) (record { graph = p.graph ++ d ∷ []; counts = p.counts; states = p.states ++ fresh_state X.nodes d ∷ []; histories = p.histories ++ no_history ∷ []; bases = p.bases ++ fresh_base d.kind ∷ [] }) }
{}

/// An update joins its delta into its source, or what joined in is the same, and is counted; the source's history has the news, in any order, where the source grows.
pub fn updates_are_kept()
    ensures still { (X : Frame) (entries : List Entry) → IsLegal X entries → (e : Entry) (y : ℕ) (op : Op) → e.act ≡ Update y op → (p : Parts) → IsKept X entries p → y < length p.graph → IsTrue (is_source (kind_at p.graph y))
        → (d : Held) → join_contents (val X entries y) d.content ≡ join_contents (val X entries y) (delta op (val X entries y) X.replica (count_at (counts X entries) X.replica + 1)) → IsContentAtMost d.content (held_at p.states y).content
        → IsKept X (entries ++ e ∷ []) (record { graph = p.graph; counts = slice_set p.counts X.replica (count_at p.counts X.replica + 1); states = slice_set p.states y (states.grown (held_at p.states y) d); histories = p.histories; bases = p.bases }) }
    ensures grown { (X : Frame) (entries : List Entry) → IsLegal X entries → (e : Entry) (y : ℕ) (op : Op) → e.act ≡ Update y op → (p : Parts) → IsKept X entries p → y < length p.graph → IsTrue (is_source (kind_at p.graph y))
        → (d : Held) → join_contents (val X entries y) d.content ≡ join_contents (val X entries y) (delta op (val X entries y) X.replica (count_at (counts X entries) X.replica + 1)) → (IsContentAtMost d.content (held_at p.states y).content → ⊥)
        → (rows : List Row) → AreRowsOf (news_of (held_at p.states y).shape (held_at p.states y).content d.content) rows
        → IsKept X (entries ++ e ∷ []) (record {
          graph = p.graph;
          counts = slice_set p.counts X.replica (count_at p.counts X.replica + 1);
          states = slice_set p.states y (states.grown (held_at p.states y) d);
          histories = slice_set p.histories y (grown (history_at p.histories y) rows (length entries));
          bases = p.bases;
        }) }
{}

/// A message's contents are joined into the sources, and the history of each source that grows has the news.
pub fn deliveries_are_kept()
    ensures { (X : Frame) (entries : List Entry) → IsLegal X entries → (e : Entry) (i : ℕ) (m : Message) → e.act ≡ Deliver i m → (p q : Parts) → IsKept X entries p → IsInOrder m p → IsTakenIn m (length entries) p q → IsKept X (entries ++ e ∷ []) q }
{}

/// A bind of less than the base changes nothing; of more, the variable is its equation on what was read, and its history has the news where it grows.
pub fn binds_are_kept()
    ensures late { (X : Frame) (entries : List Entry) → IsLegal X entries → (e : Entry) (y n : ℕ) → e.act ≡ Bind y n → (p : Parts) → IsKept X entries p → IsDerived p.graph y → n ≤ base X entries y → IsKept X (entries ++ e ∷ []) p }
    ensures still { (X : Frame) (entries : List Entry) → IsLegal X entries → (e : Entry) (y n : ℕ) → e.act ≡ Bind y n → (p : Parts) → IsKept X entries p → IsDerived p.graph y → base X entries y ≤ n → n ≤ length entries
        → (s : Held) → s.content ≡ equation (kind_at p.graph y) (vals X (take n entries)) → s.shape ≡ (held_at p.states y).shape → s.number ≡ number_by (kind_at p.graph y) s.content
        → (b : Base) → b.entries ≡ n → IsBase (kind_at p.graph y) (vals X (take n entries)) b → IsContentAtMost s.content (held_at p.states y).content
        → IsKept X (entries ++ e ∷ []) (record { graph = p.graph; counts = p.counts; states = slice_set p.states y s; histories = p.histories; bases = slice_set p.bases y (Some b) }) }
    ensures grown { (X : Frame) (entries : List Entry) → IsLegal X entries → (e : Entry) (y n : ℕ) → e.act ≡ Bind y n → (p : Parts) → IsKept X entries p → IsDerived p.graph y → base X entries y ≤ n → n ≤ length entries
        → (s : Held) → s.content ≡ equation (kind_at p.graph y) (vals X (take n entries)) → s.shape ≡ (held_at p.states y).shape → s.number ≡ number_by (kind_at p.graph y) s.content
        → (b : Base) → b.entries ≡ n → IsBase (kind_at p.graph y) (vals X (take n entries)) b → (IsContentAtMost s.content (held_at p.states y).content → ⊥)
        → (rows : List Row) → AreRowsOf (news_of (held_at p.states y).shape (held_at p.states y).content s.content) rows
        → IsKept X (entries ++ e ∷ []) (record {
          graph = p.graph;
          counts = p.counts;
          states = slice_set p.states y s;
          histories = slice_set p.histories y (grown (history_at p.histories y) rows (length entries));
          bases = slice_set p.bases y (Some b);
        }) }
{}
