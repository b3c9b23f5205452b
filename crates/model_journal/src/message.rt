//! The messages of replicas.

ghost use Rattle.std.specs.Prelude.{◌≡◌, ℕ, ◌<◌, IsTrue, List, ◌++◌, length};
ghost use Rattle.model_graph.specs.Graph.{Decl, is_source, kind_at};
ghost use Rattle.model_graph.specs.Message.{sent_at, source_number};
ghost use Rattle.model_journal.specs.Entry.{Deliver, Entry, Frame};
ghost use Rattle.model_journal.specs.Journal.{journal, graph, val};
ghost use Rattle.model_journal.specs.Message.{message};
ghost use Rattle.model_journal.specs.Legal.{IsLawful, BringsValid, IsLegal};

/// A replica's message has each of its sources in order, each valid, and may be delivered at every replica whose graph goes on from the sender's.
#[tactic(auto, using(crate::proofs::MessageLaws::messages))]
pub fn messages_may_be_delivered()
    ensures sources { (X : Frame) (entries : List Entry) → IsLegal X entries → (x : ℕ) → x < length (graph X entries) → IsTrue (is_source (kind_at (graph X entries) x)) → sent_at (message X entries).sources (source_number (graph X entries) x) ≡ val X entries x }
    ensures valid { (X : Frame) (entries : List Entry) (i : ℕ) → IsLegal X entries → BringsValid X.nodes (Deliver i (message X entries)) }
    ensures lawful { (X Z : Frame) (entries others : List Entry) (more : List Decl) (i : ℕ) → IsLegal X entries → X.nodes ≡ Z.nodes → graph X entries ++ more ≡ graph Z others → IsLawful Z (journal Z others) (Deliver i (message X entries)) }
{}
