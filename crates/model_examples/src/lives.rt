//! A case of two nodes beside each other.

ghost use Rattle.std.specs.Prelude.{◌≡◌, [], ◌∷◌, codes, None, Some};
ghost use Rattle.model_states.specs.Update.{Inc};
ghost use Rattle.model_runs.specs.Calls.{frame_of};
ghost use Rattle.model_live.specs.Lived.{heard_of, numbered, live_text, first_failed};
ghost use Rattle.model_live.specs.Steps.{Updates, Sends, Prints, steps};
ghost use Rattle.model_live.specs.Story.{Goes, deeds, letters};
ghost use Rattle.model_examples.specs.Case.{lines};
ghost use Rattle.model_examples.specs.Graphs.{counter_graph};
ghost use Rattle.model_examples.specs.Lives.{heard_script, counting_story, hearing_story, lonely_story};

/// Node 0 counts and sends; node 1 hears of it, which it waited for, and prints. What it heard is what was sent, and the text has each send and print where it was done. Had nothing been sent, node 1 would have failed at its await.
#[tactic(auto, using(crate::proofs::LifeLaws::lives))]
pub fn nodes_beside_each_other_tell_what_they_did()
    ensures text { live_text counter_graph 2 (counting_story ∷ hearing_story ∷ []) ≡ lines (codes "0 0 0 update c 1" ∷ codes "0 send 1" ∷ codes "1 0 0 deliver 0" ∷ codes "1 print 1 c 3" ∷ codes "known 0 1 0" ∷ codes "known 1 1 0" ∷ []) }
    ensures deeds { deeds counting_story ≡ (0, Updates 0 (Inc 3)) ∷ (1, Sends) ∷ [] }
    ensures printed { deeds hearing_story ≡ (1, Prints 0) ∷ [] }
    ensures heard { heard_of 0 hearing_story.entries ≡ numbered 0 (letters (frame_of counter_graph 2 0) counting_story) }
    ensures goes { Goes (frame_of counter_graph 2 1) hearing_story.entries (steps 1 1 heard_script.commands) (deeds hearing_story) None }
    ensures fails { Goes (frame_of counter_graph 2 1) lonely_story.entries (steps 1 1 heard_script.commands) (deeds lonely_story) (Some 3) }
    ensures failed { first_failed (counting_story ∷ lonely_story ∷ []) ≡ Some 3 }
{}
