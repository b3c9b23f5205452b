//! What goes through the mailboxes of a run: letters, and at last the sender's end.

ghost use Rattle.std.specs.Prelude.{◌≡◌};
ghost use Rattle.lasp_live.specs.Prelude.{arc_value, IsLetter, IsSealed};

use lasp_graph::Graph;
use lasp_mail::Framed;
use lasp_script::Script;
use lasp_wire::Message;
use std::marker::Model;
use std::sync::Arc;

/// A message that a node of a script sent, with the graph and the script. It is such that a replica which feeds on these alone
/// refuses it for want of memory alone. Contracts see it as these three.
#[derive(Drop)]
pub struct Letter {
    message: Arc<Message>,
    graph: Arc<Graph>,
    script: Arc<Script>,
}

impl Model for Letter {
    ghost use Rattle.std.specs.Arc.{arc_value};
    ghost use Rattle.lasp_live.specs.Sealed.{Sealed, coded_sealed, IsSealed};

    ghost Value = { Sealed };

    ghost coded = { coded_sealed };

    ghost view = { λ l. (arc_value l.message, (arc_value l.graph, arc_value l.script)) };

    ghost invariant = { λ l. IsSealed (arc_value l.message, (arc_value l.graph, arc_value l.script)) };
}

impl Letter {
    /// A letter of a message that may be one.
    pub fn of(message: Arc<Message>, graph: Arc<Graph>, script: Arc<Script>) -> Letter
        requires { IsLetter (arc_value graph) (arc_value script) (arc_value message) }
        ensures { result ≡ (arc_value message, (arc_value graph, arc_value script)) }
    {
        Letter {
            message,
            graph,
            script,
        }
    }

    /// Recalls, at no cost, that it is one.
    pub fn recall(&self)
        ensures { IsSealed self.now }
    {
        let _ = &self.message;
    }

    /// The message.
    pub fn message(&self) -> &Arc<Message>
        ensures { arc_value result.now ≡ self.now.0 }
    {
        &self.message
    }
}

/// What lies in a mailbox.
#[derive(Drop)]
pub enum Mail {
    Letter(Letter),
    /// The sender does nothing more.
    End(Arc<Graph>, Arc<Script>),
}

/// All that goes through one mailbox is of one graph and one script.
impl Framed for Mail {
    ghost use Rattle.lasp_live.specs.Mail.{plan_of};

    type Frame = (Graph, Script);

    ghost frame = { plan_of };
}
