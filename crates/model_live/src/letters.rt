//! That no node comes past what all updates of a script come to together.

ghost use Rattle.std.specs.Prelude.{◌≡◌, ℕ, ◌+◌, ◌<◌, ◌≤◌, ◌++◌, ◌∷◌, [], List, IsTrue, None, length};
ghost use Rattle.model_graph.specs.Evaluation.{eval, first_large, content_at};
ghost use Rattle.model_graph.specs.Graph.{Decl, Counter, is_source, kind_at};
ghost use Rattle.model_graph.specs.Lawful.{IsGraph};
ghost use Rattle.model_states.specs.Content.{Content, IsOrdered};
ghost use Rattle.model_states.specs.Counts.{count_at};
ghost use Rattle.model_states.specs.Update.{Op};
ghost use Rattle.model_graph.specs.Message.{Message, brought, gained};
ghost use Rattle.model_world.specs.Command.{Script};
ghost use Rattle.model_world.specs.Lawful.{IsLawful};
ghost use Rattle.model_world.specs.World.{Peer, updated, message_at};
ghost use Rattle.model_live.specs.Letter.{IsLetter, IsNews};
ghost use Rattle.model_live.specs.Steps.{Does, Updates, Step, steps};
ghost use Rattle.model_live.specs.Together.{after_steps, full, own_updates, too_large, AreWithin};
ghost use Rattle.model_world.specs.World.{fresh_peer};

/// Where all updates together leave no variable too large, no letter does, and no evaluation: both are refused for want of memory alone.
pub fn letters_are_refused_for_want_of_memory_alone()
    ensures ordered { (g : List Decl) (script : Script) (x : ℕ) → IsOrdered (content_at (eval g (full g script)) x) }
    ensures delivery { (g : List Decl) (script : Script) (contents : List Content) (m : Message) → too_large g script ≡ None → length contents ≡ length g → ((x : ℕ) → IsOrdered (content_at contents x)) → AreWithin g script contents → IsLetter g script m
        → first_large 0 (gained (brought g m) 0 contents) ≡ None }
    ensures within { (g : List Decl) (script : Script) (contents : List Content) (m : Message) → length contents ≡ length g → AreWithin g script contents → IsLetter g script m
        → AreWithin g script (gained (brought g m) 0 contents) }
    ensures settle { (g : List Decl) (script : Script) (contents : List Content) → IsGraph g → too_large g script ≡ None → ((x : ℕ) → IsOrdered (content_at contents x)) → AreWithin g script contents
        → first_large 0 (eval g contents) ≡ None }
{}

/// A node that did the first of its steps and heard letters alone, none of which told it of an update of its own that it hadn't made, stays within what all do: behind its next update too, and what it sends then is a letter.
pub fn nodes_stay_within_what_all_do()
    ensures start { (g : List Decl) (script : Script) → AreWithin g script (fresh_peer g script.nodes).contents }
    ensures update { (g : List Decl) (script : Script) (p x : ℕ) (op : Op) (done left : List Step) (r : Peer) → IsLawful g script → p < script.nodes → steps p 1 script.commands ≡ done ++ Does (Updates x op) ∷ left
        → AreWithin g script r.contents → count_at r.counts p ≡ count_at (after_steps p done (fresh_peer g script.nodes)).counts p
        → ((y : ℕ) → y < length g → kind_at g y ≡ Counter → count_at (content_at r.contents y).counts p ≡ count_at (content_at (after_steps p done (fresh_peer g script.nodes)).contents y).counts p)
        → AreWithin g script (updated p x op r).contents }
    ensures sent { (g : List Decl) (script : Script) (r : Peer) → length r.contents ≡ length g → length r.counts ≡ script.nodes → AreWithin g script r.contents → ((q : ℕ) → q < script.nodes → count_at r.counts q ≤ own_updates g script q)
        → IsLetter g script (message_at g r) }
{}
