//! What who runs sites can rely on, whatever they exchange, however often and in whatever order. Each site goes on from its own last state, and no two share a number.

ghost use Rattle.std.specs.Prelude.{◌≡◌, ◌<◌, ◌≤◌, ◌∷◌, ℕ, List, length, map};
ghost use Rattle.model_states.specs.Content.{IsContentAtMost};
ghost use Rattle.model_states.specs.Counts.{count_at, AreCountsAtMost};
ghost use Rattle.model_graph.specs.Graph.{Decl};
ghost use Rattle.model_graph.specs.Evaluation.{content_at};
ghost use Rattle.model_graph.specs.Lawful.{IsGraph};
ghost use Rattle.model_graph.specs.Order.{ContentsAtMost};
ghost use Rattle.model_world.specs.Delta.{Delta, deltas_at, known_contents};
ghost use Rattle.model_world.specs.Owner.{delta_at};
ghost use Rattle.model_world.specs.World.{delivered, shown_at, sent_number};
ghost use Rattle.model_program.specs.Merge.{merge_text, joined};
ghost use Rattle.model_site.specs.History.{SiteCall, Sites, IsCalled, AreCalled, HaveBrought, updates_by, replica_of, told_by};

/// Sites whose counts are equal hold the same and show the same, and so do two states with equal counts, whoever wrote them and when. No update is lost:
/// a site counts each update that it made, and one that counts what a state counts has all that the state has, so that taking it in changes nothing.
/// What `merge` prints of any states is what a site shows that counts the same.
#[tactic(auto, using(crate::proofs::HistoryLaws::histories))]
pub fn sites_agree_and_lose_nothing()
    ensures sites { (g : List Decl) (nodes : ℕ) (calls : List SiteCall) (sites : Sites) → AreCalled g nodes calls sites → (p q : ℕ) → p < nodes → q < nodes
        → (replica_of g nodes sites p).counts ≡ (replica_of g nodes sites q).counts → replica_of g nodes sites p ≡ replica_of g nodes sites q }
    ensures shown { (g : List Decl) (nodes : ℕ) (calls : List SiteCall) (sites : Sites) → AreCalled g nodes calls sites → (p q : ℕ) → p < nodes → q < nodes
        → (replica_of g nodes sites p).counts ≡ (replica_of g nodes sites q).counts → shown_at g (replica_of g nodes sites p) ≡ shown_at g (replica_of g nodes sites q) }
    ensures states { (g : List Decl) (nodes : ℕ) (calls : List SiteCall) (sites : Sites) → AreCalled g nodes calls sites → (i j : ℕ)
        → (sent_number sites.written i).counts ≡ (sent_number sites.written j).counts → told_by g nodes (sent_number sites.written i) ≡ told_by g nodes (sent_number sites.written j) }
    ensures counted { (g : List Decl) (nodes : ℕ) (calls : List SiteCall) (sites : Sites) → AreCalled g nodes calls sites → (p : ℕ) → p < nodes
        → count_at (replica_of g nodes sites p).counts p ≡ updates_by p calls }
    ensures kept { (g : List Decl) (nodes : ℕ) (calls : List SiteCall) (sites : Sites) → AreCalled g nodes calls sites → (p i : ℕ) → p < nodes
        → AreCountsAtMost (sent_number sites.written i).counts (replica_of g nodes sites p).counts
        → delivered g (sent_number sites.written i) (replica_of g nodes sites p) ≡ replica_of g nodes sites p }
    ensures merged { (g : List Decl) (nodes : ℕ) (calls : List SiteCall) (sites : Sites) → AreCalled g nodes calls sites → (p i : ℕ) (files : List ℕ) → p < nodes → i < length sites.written
        → (joined g (map (sent_number sites.written) (i ∷ files))).counts ≡ (replica_of g nodes sites p).counts
        → merge_text g (joined g (map (sent_number sites.written) (i ∷ files))) ≡ merge_text g (replica_of g nodes sites p) }
{}

/// Each update of a site stands in every replica that counts it, whoever made it and by whatever way it came there; and nothing else stands there. After calls it is told what each update brought;
/// a site counts as many updates of its own as it made, and of no site more than that made; each of its variables has what the updates that it counts, of all sites, brought to it, and so has a state that was written.
#[tactic(auto, using(crate::proofs::HistoryLaws::standing))]
pub fn updates_stand_where_they_are_counted()
    ensures told { (g : List Decl) (nodes : ℕ) (calls : List SiteCall) (sites : Sites) → AreCalled g nodes calls sites → (all : List (List Delta)) × HaveBrought g nodes calls sites all }
    ensures made { (g : List Decl) (nodes : ℕ) (calls : List SiteCall) (sites : Sites) (all : List (List Delta)) → HaveBrought g nodes calls sites all → (p : ℕ) → p < nodes → length (deltas_at all p) ≡ updates_by p calls }
    ensures counted { (g : List Decl) (nodes : ℕ) (calls : List SiteCall) (sites : Sites) (all : List (List Delta)) → HaveBrought g nodes calls sites all → (p q : ℕ) → p < nodes → q < nodes → count_at (replica_of g nodes sites p).counts q ≤ updates_by q calls }
    ensures stands { (g : List Decl) (nodes : ℕ) (calls : List SiteCall) (sites : Sites) (all : List (List Delta)) → HaveBrought g nodes calls sites all → (p q j x : ℕ) → p < nodes → x < length g
        → j < count_at (replica_of g nodes sites p).counts q → (delta_at all q j).var ≡ x → IsContentAtMost (delta_at all q j).content (content_at (replica_of g nodes sites p).contents x) }
    ensures known { (g : List Decl) (nodes : ℕ) (calls : List SiteCall) (sites : Sites) (all : List (List Delta)) → HaveBrought g nodes calls sites all → (p : ℕ) → p < nodes
        → (replica_of g nodes sites p).contents ≡ known_contents g nodes all (replica_of g nodes sites p).counts }
    ensures written { (g : List Decl) (nodes : ℕ) (calls : List SiteCall) (sites : Sites) (all : List (List Delta)) → HaveBrought g nodes calls sites all → (i : ℕ)
        → (told_by g nodes (sent_number sites.written i)).contents ≡ known_contents g nodes all (told_by g nodes (sent_number sites.written i)).counts }
{}

/// By a call no site loses anything: each source, each count and whatever is shown of a variable is at least what it was, at the site that was called and at every other.
pub fn sites_only_grow()
    ensures contents { (g : List Decl) (nodes : ℕ) (calls : List SiteCall) (sites next : Sites) (k : SiteCall) → AreCalled g nodes calls sites → IsCalled g nodes sites k next → (q : ℕ) → q < nodes
        → ContentsAtMost (replica_of g nodes sites q).contents (replica_of g nodes next q).contents }
    ensures counts { (g : List Decl) (nodes : ℕ) (calls : List SiteCall) (sites next : Sites) (k : SiteCall) → AreCalled g nodes calls sites → IsCalled g nodes sites k next → (q : ℕ) → q < nodes
        → AreCountsAtMost (replica_of g nodes sites q).counts (replica_of g nodes next q).counts }
    ensures shown { (g : List Decl) (nodes : ℕ) (calls : List SiteCall) (sites next : Sites) (k : SiteCall) → AreCalled g nodes calls sites → IsCalled g nodes sites k next → IsGraph g → (q : ℕ) → q < nodes
        → ContentsAtMost (shown_at g (replica_of g nodes sites q)) (shown_at g (replica_of g nodes next q)) }
{}
