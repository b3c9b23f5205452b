//! What callers need of turns. There is nothing to run here: the contract is a group of laws.

ghost use Rattle.std.specs.Prelude.{◌≡◌, ℕ, ◌<◌, ◌≤◌, ◌++◌, List, length};
ghost use Rattle.lasp_snap.specs.Views.{ShelfView};
ghost use Rattle.lasp_store.specs.Shelves.{IsShelfOf};
ghost use Rattle.lasp_store.specs.Prelude.{kind_at, Entry, declared, peer_of, GoesOn, Knows, HadTurn, IsSeated, frame_of, graph_seen, looked_at, LockId, KnowsOwn};

/// A turn leaves what a pass knows of its replica, and the list that it has seen goes on and is legal. So a variable that it has seen declared stays declared, and of its kind.
#[tactic(auto, using(crate::proofs::TurnLaws::turns))]
pub fn turns_go_on()
    ensures frame { (more : List Entry) (old new : Knows) → HadTurn more old new → frame_of new ≡ frame_of old }
    ensures seen { (more : List Entry) (old new : Knows) → HadTurn more old new → GoesOn old.seen new.seen }
    ensures declared { (more : List Entry) (old new : Knows) → HadTurn more old new → length (graph_seen old) ≤ length (graph_seen new) }
    ensures seated { (store : LockId) (more : List Entry) (old new : Knows) → old.lock ≡ store → HadTurn more old new → IsSeated store new }
    ensures kind { (more : List Entry) (old new : Knows) → HadTurn more old new → (x : ℕ) → x < length (graph_seen old) → kind_at (graph_seen new) x ≡ kind_at (graph_seen old) x }
{}

/// The graph that a feed has seen grows in a turn by what it declares there, since no hand declares a variable. What is asked of both passes is what `Pass::known` recalls.
#[tactic(auto, using(crate::proofs::SettleLaws::graphs))]
pub fn feeds_tell_the_graph()
    ensures { (old new : Knows) (more : List Entry) → KnowsOwn old → KnowsOwn new → old.number ≡ 0 → HadTurn more old new → graph_seen new ≡ graph_seen old ++ declared more }
{}

/// Sources and counts that a feed has seen are those of the journal that it finds at its next turn, since no hand changes them: what the turn adds tells what they come to.
pub fn feeds_tell_the_sources()
    ensures { (old new : Knows) (more : List Entry) → KnowsOwn old → KnowsOwn new → old.number ≡ 0 → HadTurn more old new → peer_of (frame_of new) (looked_at new) ≡ peer_of (frame_of old) old.seen }
{}

/// A shelf that a feed opened or published to stays the feed's, whatever turns the feed has.
pub fn shelves_stay()
    ensures { (more : List Entry) (old new : Knows) (s : ShelfView) → HadTurn more old new → IsShelfOf old s → IsShelfOf new s }
{}
