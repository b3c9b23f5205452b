//! Runs, act by act.

ghost use Rattle.std.specs.Prelude.{◌≡◌, ℕ, ◌+◌, ◌<◌, ◌≤◌, IsTrue, List, length, Ok};
ghost use Rattle.model_states.specs.Threshold.{suits};
ghost use Rattle.model_states.specs.Update.{Op, Join};
ghost use Rattle.model_graph.specs.Graph.{Decl, is_source, kind_at};
ghost use Rattle.model_graph.specs.Lawful.{shape_of};
ghost use Rattle.model_world.specs.Command.{Until, Mark, Send, Declare};
ghost use Rattle.model_world.specs.Lawful.{Stage, opening_stage, stage_after, IsMarkOf, MayAsk};
ghost use Rattle.model_world.specs.World.{Run, start, mark_at, threshold_of, act, Update, Keep, Post, Take, Point, Show, Open, Reach, Extend};
ghost use Rattle.model_runs.specs.Held.{IsUpdate};
ghost use Rattle.model_runs.specs.Sound.{IsSound};

/// A run is sound at its start, and after each act that could be done. Only an update takes a command's number: every other act keeps its number, and a sound run is sound before a later command.
#[tactic(auto, using(crate::proofs::SoundLaws::act_laws))]
pub fn runs_stay_sound()
    ensures start { (nodes : ℕ) (g : List Decl) → IsSound nodes 1 (opening_stage g) (start g nodes) }
    ensures update { (nodes c p x : ℕ) (s : Stage) (op : Op) (run next : Run) → IsSound nodes c s run → c ≤ 100000 → p < nodes → x < length run.graph → IsUpdate nodes run.graph x op
        → act c run (Update p x op) ≡ Ok next → IsSound nodes (c + 1) s next }
    ensures keep { (nodes c p x : ℕ) (s : Stage) (run next : Run) → IsSound nodes c s run → p < nodes → x < length run.graph → IsTrue (is_source (kind_at run.graph x))
        → act c run (Keep p x) ≡ Ok next → IsSound nodes c (stage_after nodes s (Mark p x)) next }
    ensures post { (nodes c p : ℕ) (s : Stage) (run next : Run) → IsSound nodes c s run → p < nodes → act c run (Post p) ≡ Ok next → IsSound nodes c (stage_after nodes s (Send p)) next }
    ensures take { (nodes c p i : ℕ) (s : Stage) (run next : Run) → IsSound nodes c s run → p < nodes → i < length run.sent → act c run (Take p i) ≡ Ok next → IsSound nodes c s next }
    ensures point { (nodes c : ℕ) (s : Stage) (run next : Run) → IsSound nodes c s run → act c run Point ≡ Ok next → IsSound nodes c s next }
    ensures show { (nodes c p x : ℕ) (s : Stage) (run next : Run) → IsSound nodes c s run → act c run (Show p x) ≡ Ok next → IsSound nodes c s next }
    ensures open { (nodes c p x : ℕ) (s : Stage) (until : Until) (run next : Run) → IsSound nodes c s run → p < nodes → x < length run.graph
        → IsTrue (suits (threshold_of run.marks until) (shape_of nodes (kind_at run.graph x))) → act c run (Open p x until) ≡ Ok next → IsSound nodes c s next }
    ensures reach { (nodes c p x : ℕ) (s : Stage) (until : Until) (run next : Run) → IsSound nodes c s run → act c run (Reach p x until) ≡ Ok next → IsSound nodes c s next }
    ensures extend { (nodes c : ℕ) (s : Stage) (d : Decl) (run next : Run) → IsSound nodes c s run → act c run (Extend d) ≡ Ok next → IsSound nodes c (stage_after nodes s (Declare d)) next }
    ensures later { (nodes c : ℕ) (s : Stage) (run : Run) → IsSound nodes c s run → IsSound nodes (c + 1) s run }
{}

/// What a sound run has for a lawful command: a threshold that the command may ask for suits its variable, and a mark that it may bind is an update of its variable.
#[tactic(auto, using(crate::proofs::SoundLaws::mark_laws))]
pub fn runs_go_on_soundly()
    ensures suits { (nodes c x : ℕ) (s : Stage) (until : Until) (run : Run) → IsSound nodes c s run → x < length s.graph → MayAsk nodes s x until
        → IsTrue (suits (threshold_of run.marks until) (shape_of nodes (kind_at run.graph x))) }
    ensures joins { (nodes c x m : ℕ) (s : Stage) (run : Run) → IsSound nodes c s run → IsMarkOf s x m → IsUpdate nodes run.graph x (Join (mark_at run.marks m).content) }
{}
