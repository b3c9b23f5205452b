//! Who feeds the replica of one node.

ghost use Rattle.std.specs.Prelude.{◌≡◌, ◌<◌, ◌≤◌, ℕ, List, IfOk, OnOk, IsTrue, length};
ghost use Rattle.std.specs.List.{AllByRecursion};
ghost use Rattle.model_core.specs.Core.{is_met};
ghost use Rattle.model_journal.specs.Entry as model;
ghost use Rattle.lasp_live.specs.Prelude.{arc_value, Entry, Frame, graph, IsLegal, AreMadeByTheirCallers, message_at, peer_of, held_of, state_after, IsSmall, AreAscending, Learns, Updates, Delivers, Settles, Adds, IsFoundBehind, PassesOnce, made_by, op_of};

use lasp_core::{DeliverRefused, Released, Settle, UpdateRefused};
use lasp_state::{Op, State};
use lasp_wire::Message;
use std::alloc::AllocError;
use std::sync::Arc;

/// The one caller that feeds a replica, which others may evaluate meanwhile: it updates it, joins messages in, looks at it and settles
/// it. It is seen as the journal that it has seen; each call finds one that goes on this by results of others, and is answered there.
/// It is never in a turn between its calls, and the functions of the replica's graph are at hand.
pub trait Feeder {
    // where it stands: which replica it feeds, and who else was given a hand in it
    ghost Place: { Type 0 };

    ghost place: { Self → Place };

    // the graph that the replica opened with, its number and the number of nodes
    ghost frame: { Self → Frame };

    // the journal as far as it has seen it
    ghost seen: { Self → List Entry };

    // those of them that this feeder made, in order
    ghost own: { Self → List Entry };

    // how many entries there were when its last call found the journal
    ghost told: { Self → ℕ };

    /// Recalls, at no cost, that the journal is legal, that each of its entries is one that its caller may make, and which of them are the feeder's own.
    fn recall(&self)
        ensures legal { IsLegal (frame self.now) (seen self.now) }
        ensures made { AreMadeByTheirCallers (seen self.now) }
        ensures own { own self.now ≡ made_by 0 (seen self.now) };

    /// Updates a source. The reads that it releases are met behind it.
    fn update(&mut self, var: u8, op: &Op) -> Result<Released, UpdateRefused>
        requires small { IsSmall (frame self.old).nodes op.now }
        ensures place { place self.new ≡ place self.old }
        ensures frame { frame self.new ≡ frame self.old }
        ensures answer { Updates (frame self.old) var op.now (seen self.old) result (seen self.new) }
        ensures own { Adds (model.Update var (op_of op.now)) (own self.old) result (own self.new) }
        ensures told { told self.old ≤ told self.new }
        ensures found { IsFoundBehind result (told self.new) (length (seen self.new)) }
        ensures met { IfOk result (AllByRecursion (λ r. IsTrue (is_met (frame self.new) (seen self.new) r))) }
        ensures ascending { IfOk result AreAscending };

    /// Joins the message with this number in. The reads that it releases are met behind it.
    fn deliver(&mut self, number: u32, m: &Arc<Message>) -> Result<Released, DeliverRefused>
        ensures place { place self.new ≡ place self.old }
        ensures frame { frame self.new ≡ frame self.old }
        ensures answer { Delivers (frame self.old) number (arc_value m.now) (seen self.old) result (seen self.new) }
        ensures own { Adds (model.Deliver number (arc_value m.now)) (own self.old) result (own self.new) }
        ensures told { told self.old ≤ told self.new }
        ensures found { IsFoundBehind result (told self.new) (length (seen self.new)) }
        ensures met { IfOk result (AllByRecursion (λ r. IsTrue (is_met (frame self.new) (seen self.new) r))) }
        ensures ascending { IfOk result AreAscending };

    /// What the replica sends.
    fn message(&mut self) -> Result<Message, AllocError>
        ensures place { place self.new ≡ place self.old }
        ensures frame { frame self.new ≡ frame self.old }
        ensures learns { Learns (seen self.old) (seen self.new) }
        ensures own { own self.new ≡ own self.old }
        ensures told { told self.old ≤ told self.new }
        ensures found { told self.new ≡ length (seen self.new) }
        ensures message { IfOk result (λ m. m ≡ message_at (graph (frame self.new) (seen self.new)) (peer_of (frame self.new) (seen self.new))) };

    /// The state of a variable, shared.
    fn look(&mut self, var: u8) -> Result<Arc<State>, AllocError>
        requires var { var < length (graph (frame self.old) (seen self.old)) }
        ensures place { place self.new ≡ place self.old }
        ensures frame { frame self.new ≡ frame self.old }
        ensures learns { Learns (seen self.old) (seen self.new) }
        ensures own { own self.new ≡ own self.old }
        ensures told { told self.old ≤ told self.new }
        ensures found { told self.new ≡ length (seen self.new) }
        ensures state { IfOk result (λ s. held_of (arc_value s) ≡ state_after (frame self.new) (seen self.new) var) };

    /// How many entries the journal has.
    fn length(&mut self) -> u64
        ensures place { place self.new ≡ place self.old }
        ensures frame { frame self.new ≡ frame self.old }
        ensures learns { Learns (seen self.old) (seen self.new) }
        ensures own { own self.new ≡ own self.old }
        ensures told { told self.old ≤ told self.new }
        ensures found { told self.new ≡ length (seen self.new) }
        ensures length { result ≡ length (seen self.new) };

    /// Settles the replica, and tells how many entries the journal has. It hands in a result of each variable at most, in their order, and of none that had taken in its inputs as they are.
    fn settle_all(&mut self) -> Result<u64, Settle>
        ensures place { place self.new ≡ place self.old }
        ensures frame { frame self.new ≡ frame self.old }
        ensures learns { Learns (seen self.old) (seen self.new) }
        ensures own { PassesOnce (frame self.new) (seen self.new) (own self.old) (own self.new) }
        ensures told { told self.old ≤ told self.new }
        ensures settles { Settles (frame self.new) (seen self.new) result }
        ensures length { IfOk result (λ n. n ≡ length (seen self.new)) };
}
