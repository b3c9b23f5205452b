//! How the story of a node goes on, entry by entry and note by note.

ghost use Rattle.std.specs.Prelude.{◌≡◌, ℕ, ◌+◌, ◌≤◌, ◌<◌, ◌++◌, ◌∷◌, [], List, IsTrue, IsFalse, Option, Some, None, length};
ghost use Rattle.model_graph.specs.Graph.{Decl};
ghost use Rattle.model_journal.specs.Entry.{Deliver, Update, Entry, Frame, entry};
ghost use Rattle.model_journal.specs.Legal.{IsLegal};
ghost use Rattle.model_graph.specs.Message.{Message};
ghost use Rattle.model_runs.specs.Calls.{is_bind, fed, unbound};
ghost use Rattle.model_states.specs.Update.{Op};
ghost use Rattle.model_world.specs.Command.{Until, Script};
ghost use Rattle.model_live.specs.Lived.{lines_from, note_lines, story_lines};
ghost use Rattle.model_live.specs.Steps.{Does, Updates, Step, Waits};
ghost use Rattle.model_live.specs.Story.{Noted, Note, Story, ArePlaced, Goes, deed_of, deeds_from, is_met, letters_in, notes_at, IsStory};

/// The story of a node so far tells its first steps, whatever comes: results and messages leave what it told, an update and a note tell one step more, and a threshold that is met at the journal's end is passed.
pub fn stories_go_on()
    ensures opens { (X : Frame) → Goes X [] [] (deeds_from 0 [] []) None }
    ensures learns { (X : Frame) (entries more : List Entry) (notes : List Note) (done : List Step) → IsLegal X (entries ++ more) → unbound more ≡ [] → ArePlaced 0 (length entries) notes
        → Goes X entries done (deeds_from 0 notes entries) None → Goes X (entries ++ more) done (deeds_from 0 notes (entries ++ more)) None }
    ensures hears { (X : Frame) (entries : List Entry) (notes : List Note) (done : List Step) (i : ℕ) (m : Message) → IsLegal X (entries ++ fed (Deliver i m) ∷ []) → ArePlaced 0 (length entries) notes
        → Goes X entries done (deeds_from 0 notes entries) None → Goes X (entries ++ fed (Deliver i m) ∷ []) done (deeds_from 0 notes (entries ++ fed (Deliver i m) ∷ [])) None }
    ensures updates { (X : Frame) (entries : List Entry) (notes : List Note) (done : List Step) (x : ℕ) (op : Op) → IsLegal X (entries ++ fed (Update x op) ∷ []) → ArePlaced 0 (length entries) notes
        → Goes X entries done (deeds_from 0 notes entries) None → Goes X (entries ++ fed (Update x op) ∷ []) (done ++ Does (Updates x op) ∷ []) (deeds_from 0 notes (entries ++ fed (Update x op) ∷ [])) None }
    ensures notes { (X : Frame) (entries : List Entry) (notes : List Note) (done : List Step) (what : Noted) → ArePlaced 0 (length entries) notes
        → Goes X entries done (deeds_from 0 notes entries) None
        → Goes X entries (done ++ Does (deed_of what) ∷ []) (deeds_from 0 (notes ++ record { place = length entries; what = what } ∷ []) entries) None }
    ensures passes { (X : Frame) (entries : List Entry) (notes : List Note) (done : List Step) (c x : ℕ) (until : Until) → IsTrue (is_met X entries (length entries) x until)
        → Goes X entries done (deeds_from 0 notes entries) None → Goes X entries (done ++ Waits c x until ∷ []) (deeds_from 0 notes entries) None }
    ensures placed { (least most more : ℕ) (notes : List Note) → most ≤ more → ArePlaced least most notes → ArePlaced least more notes }
    ensures placed_next { (most : ℕ) (notes : List Note) (what : Noted) → ArePlaced 0 most notes → ArePlaced 0 most (notes ++ record { place = most; what = what } ∷ []) }
    ensures letters { (X : Frame) (entries more : List Entry) (notes : List Note) → ArePlaced 0 (length entries) notes → letters_in X (entries ++ more) notes ≡ letters_in X entries notes }
{}

/// A node fails where its threshold isn't met at the journal's end, whatever steps were left. Results that come behind its last deed leave its story lawful.
pub fn stories_end()
    ensures fails { (X : Frame) (entries : List Entry) (notes : List Note) (done left : List Step) (c x : ℕ) (until : Until) → IsFalse (is_met X entries (length entries) x until)
        → Goes X entries done (deeds_from 0 notes entries) None → Goes X entries (done ++ Waits c x until ∷ left) (deeds_from 0 notes entries) (Some c) }
    ensures later { (g : List Decl) (script : Script) (p : ℕ) (entries more : List Entry) (notes : List Note) (failed : Option ℕ) → IsStory g script p (record { entries = entries; notes = notes; failed = failed })
        → IsLegal (record { opening = g; replica = p; nodes = script.nodes }) (entries ++ more) → unbound more ≡ []
        → IsStory g script p (record { entries = entries ++ more; notes = notes; failed = failed }) }
{}

/// Notes in the order of their places are told one after the other: those of a place are the first that are left.
pub fn texts_are_told_in_order()
    ensures first { (i most : ℕ) (notes : List Note) → ArePlaced i most notes → (rest : List Note) × (notes ≡ notes_at i notes ++ rest) × ArePlaced (i + 1) most rest }
    ensures one { (i most : ℕ) (n : Note) (notes : List Note) → ArePlaced i most (n ∷ notes) → n.place ≡ i → notes_at i (n ∷ notes) ≡ n ∷ notes_at i notes }
    ensures none { (i most : ℕ) (notes : List Note) → ArePlaced (i + 1) most notes → notes_at i notes ≡ [] }
{}
