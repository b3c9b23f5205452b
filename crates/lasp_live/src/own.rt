//! What a node did itself. No letter may tell it of more: so its own counts rise by its updates alone.

ghost use Rattle.std.specs.Prelude.{◌≡◌, ◌<◌, ◌≤◌, ◌^◌, ℕ, length, IsTrue, IfOk};
ghost use Rattle.model_graph.specs.Message.{sent_at};
ghost use Rattle.model_states.specs.Counts.{count_at};
ghost use Rattle.lasp_live.specs.Own.{HasUpdated};
ghost use Rattle.lasp_live.specs.Prelude.{content_of, IsNews, op_of, total_in};

use lasp_graph::Graph;
use lasp_state::{Op, State};
use lasp_wire::Message;
use std::alloc::{AllocError, Global};

/// How many updates a node made, and for each variable the sum of what it counted up.
#[derive(Drop)]
pub(crate) struct Own {
    pub(crate) updates: u64,
    pub(crate) totals: Vec<u64>,
}

impl Own {
    /// A node of so many variables that did nothing yet.
    pub(crate) fn new(alloc: Global, variables: u64) -> Result<Own, AllocError>
        requires { variables < 2 ^ 32 }
        ensures updates { IfOk result (λ own. own.updates ≡ 0) }
        ensures size { IfOk result (λ own. length own.totals.items ≡ variables) }
        ensures totals { IfOk result (λ own. (x : ℕ) → total_in own x ≡ 0) }
    {
        let mut totals = Vec::new(alloc);
        totals.resize(variables as usize, 0)?;
        Ok(Own { updates: 0, totals })
    }

    /// One more update, of this variable by this operation.
    pub(crate) fn count(&mut self, x: u8, op: &Op)
        requires var { x < length self.old.totals.items }
        requires few { self.old.updates < 2 ^ 63 }
        requires little { total_in self.old x < 2 ^ 63 }
        ensures { HasUpdated x (op_of op.now) self.old self.new }
    {
        self.updates += 1;
        if let Op::Inc(by) = op {
            let p = usize::from(x);
            self.totals[p] = self.totals[p] + u64::from(*by);
        }
    }

    /// Whether a message of these sources tells node me of none of its own updates that it didn't make.
    #[tactic(auto, using(crate::proofs::OwnLaws::news))]
    pub(crate) fn is_news(&self, graph: &Graph, me: u8, m: &Message) -> bool
        requires member { me < length m.now.counts }
        requires size { length self.now.totals.items ≡ length graph.now }
        ensures { IsTrue result → IsNews graph.now me self.now.updates (total_in self.now) m.now }
    {
        if self.updates < m.counts().at(u64::from(me)) {
            return false;
        }
        let mut i = 0;
        for x in 0..graph.len() {
            let decl = graph.at(x);
            if decl.kind.is_source() {
                if !is_source_within(m, i, me, self.totals[x as usize]) {
                    return false;
                }
                i += 1;
            }
        }
        true
    }
}

/// Whether the i-th source of a message tells no more of a node than so much, if it is a counter. A source that the message doesn't have tells nothing.
#[tactic(auto, using(crate::proofs::OwnLaws::tellings))]
fn is_source_within(m: &Message, i: u64, me: u8, total: u64) -> bool
    ensures { IsTrue result → count_at (sent_at m.now.sources i).counts me ≤ total }
{
    m.len() <= i || is_within(m.state_at(i), me, total)
}

/// Whether a counter tells no more of a node than so much; any other state is within.
fn is_within(state: &State, me: u8, total: u64) -> bool
    ensures { IsTrue result → count_at (content_of state.now).counts me ≤ total }
{
    match state {
        State::Count(counts) => me < counts.nodes() && counts.count_of(me) <= total,
        _ => true,
    }
}
