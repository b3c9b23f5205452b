//! Why a site answers as it does.

ghost use Rattle.std.specs.Prelude.{◌≡◌, ℕ, List, Option, Some};
ghost use Rattle.model_functions.specs.Library.{Library};
ghost use Rattle.model_graph.specs.Graph.{Decl};
ghost use Rattle.model_graph.specs.Message.{Message};
ghost use Rattle.model_world.specs.Command.{Script};
ghost use Rattle.model_site.specs.Call.{TellsSite};
ghost use Rattle.model_site.specs.Cause.{HasCause};
ghost use Rattle.model_site.specs.Plan.{Answer, told_answer};
ghost use Rattle.model_site.specs.Program.{plan, site_answer};
ghost use Rattle.model_site.specs.Told.{heard};

/// Over told contents each answer has its cause, one of those that are listed, and what has a cause is the answer; and where the script is the site's and each state can be taken in, the answer is that of the replica that took them in, in their order.
#[tactic(auto, using(crate::proofs::BackLaws::answers))]
pub fn answers_have_their_causes()
    ensures cause { (lib : Library) (content : List ℕ → Option (List ℕ)) (words : List (List ℕ)) (answer : Answer) → told_answer content words (plan lib words) ≡ Some answer → HasCause lib content words answer }
    ensures back { (lib : Library) (content : List ℕ → Option (List ℕ)) (words : List (List ℕ)) (answer : Answer) → HasCause lib content words answer → told_answer content words (plan lib words) ≡ Some answer }
    ensures site { (lib : Library) (content : List ℕ → Option (List ℕ)) (words : List (List ℕ)) (p : ℕ) (g : List Decl) (s : Script) (messages : List Message) → TellsSite lib content words p g s messages
        → told_answer content words (plan lib words) ≡ Some (site_answer p g s (heard g s.nodes messages)) }
{}
