//! The mailboxes between the nodes of a run.

ghost use Rattle.std.specs.Prelude.{◌≡◌, ◌+◌, ◌<◌, ◌≤◌, [], ℕ, List, IfNone, IfOk, IfSome, OnOk, Some, length, slice_get};
ghost use Rattle.std.specs.Arc.{arc_value};
ghost use Rattle.lasp_live.specs.Mail.{plan_of};
ghost use Rattle.lasp_live_run.specs.Posts.{AreAllEnds, AreFreshEnds, AreLeft, AreMade, HasNone, HaveBegun, HaveBegunFrom, IsBehind, IsPoppedFrom, IsPushedTo};

use lasp_graph::Graph;
use lasp_live::Mail;
use lasp_mail::{Inlet, Mailbox, Outlet};
use lasp_script::Script;
use std::alloc::{AllocError, Global};
use std::sync::Arc;

/// Mailboxes, one from each node to each: number `q * nodes + p` goes from q to p. Each node has its ends, by the other node.
#[derive(Drop)]
pub(crate) struct Posts {
    pub(crate) boxes: Vec<Mailbox<Mail>>,
    pub(crate) outs: Vec<Vec<Outlet<Mail>>>,
    pub(crate) ins: Vec<Vec<Inlet<Mail>>>,
}

/// So many empty lists.
fn empty_lists(alloc: Global, many: u8) -> Result<Vec<Vec<Inlet<Mail>>>, AllocError>
    ensures size { IfOk result (λ lists. length lists.items ≡ many) }
    ensures empty { IfOk result (λ lists. (p : ℕ) (es : _) → slice_get lists.items p ≡ Some es → es.items ≡ []) }
{
    let mut lists = Vec::new(alloc);
    for _ in 0..many {
        lists.push(Vec::new(alloc))?;
    }
    Ok(lists)
}

/// Gives node p one more inlet.
fn push_to(ins: &mut Vec<Vec<Inlet<Mail>>>, p: usize, inlet: Inlet<Mail>) -> Result<(), AllocError>
    requires { p < length ins.old.items }
    ensures { OnOk result (IsPushedTo p inlet ins.old.items ins.new.items) }
{
    ins[p].push(inlet)?;
    Ok(())
}

/// Makes the mailboxes from node q to each, gives each node its inlet, and answers the outlets.
#[tactic(auto, using(crate::proofs::PostLaws::makings))]
fn push_row(
    alloc: Global,
    like: &Mail,
    q: u8,
    nodes: u8,
    boxes: &mut Vec<Mailbox<Mail>>,
    ins: &mut Vec<Vec<Inlet<Mail>>>,
) -> Result<Vec<Outlet<Mail>>, AllocError>
    requires { AreMade (plan_of like.now) nodes q 0 boxes.old.items [] ins.old.items }
    ensures made { IfOk result (λ row. AreMade (plan_of like.now) nodes q nodes boxes.new.items row.items ins.new.items) }
    ensures rows { OnOk result (IsBehind boxes.old.items boxes.new.items) }
{
    let _ = q;
    let mut row = Vec::new(alloc);
    for p in 0..nodes {
        let (mailbox, outlet, inlet) = Mailbox::new(alloc, like)?;
        boxes.push(mailbox)?;
        row.push(outlet)?;
        push_to(ins, usize::from(p), inlet)?;
    }
    Ok(row)
}

/// The mailboxes of all nodes of a script, through which nothing went.
#[tactic(auto, using(crate::proofs::PostLaws::makings))]
pub(crate) fn fresh_posts(
    alloc: Global,
    graph: &Arc<Graph>,
    script: &Arc<Script>,
) -> Result<Posts, AllocError>
    ensures { IfOk result (λ posts. AreFreshEnds (arc_value graph.now, arc_value script.now) (arc_value script.now).nodes posts.boxes.items posts.outs.items posts.ins.items) }
{
    let nodes = script.nodes();
    let like = Mail::End(Arc::try_clone(graph)?, Arc::try_clone(script)?);
    let mut boxes = Vec::new(alloc);
    let mut outs = Vec::new(alloc);
    let mut ins = empty_lists(alloc, nodes)?;
    for q in 0..nodes {
        let row = push_row(alloc, &like, q, nodes, &mut boxes, &mut ins)?;
        outs.push(row)?;
    }
    Ok(Posts { boxes, outs, ins })
}

/// Takes the last inlet of node p.
fn pop_from(ins: &mut Vec<Vec<Inlet<Mail>>>, p: usize) -> Option<Inlet<Mail>>
    requires { p < length ins.old.items }
    ensures some { IfSome result (λ inlet. IsPoppedFrom p inlet ins.old.items ins.new.items) }
    ensures none { IfNone result (HasNone p ins.old.items) }
{
    ins[p].pop()
}

/// Closes the mailboxes from a node to each: of each, what was got begins what was put. It is the last node of which mailboxes are left.
#[tactic(auto, using(crate::proofs::PostLaws::closings))]
fn close_row(
    nodes: usize,
    q: usize,
    boxes: &mut Vec<Mailbox<Mail>>,
    mut row: Vec<Outlet<Mail>>,
    ins: &mut Vec<Vec<Inlet<Mail>>>,
)
    requires { AreLeft nodes q nodes boxes.old.items row.items ins.old.items }
    ensures left { AreLeft nodes q 0 boxes.new.items [] ins.new.items }
    ensures begun { HaveBegunFrom q row.items ins.old.items ins.new.items }
    ensures fewer { IsBehind boxes.new.items boxes.old.items }
{
    let _ = (nodes, q);
    while let Some(outlet) = row.pop() {
        match boxes.pop() {
            Some(mailbox) => match pop_from(ins, row.len()) {
                Some(inlet) => {
                    mailbox.close(outlet, inlet);
                }
                None => unreachable!(),
            },
            None => unreachable!(),
        }
    }
}

/// Closes all mailboxes: of each, what was got begins what was put.
#[tactic(auto, using(crate::proofs::PostLaws::closings))]
pub(crate) fn close_posts(posts: Posts)
    requires { AreAllEnds (length posts.outs.items) posts.boxes.items posts.outs.items posts.ins.items }
    ensures { HaveBegun posts.outs.items posts.ins.items }
{
    let Posts {
        mut boxes,
        mut outs,
        mut ins,
    } = posts;
    let nodes = ins.len();
    while let Some(row) = outs.pop() {
        close_row(nodes, outs.len(), &mut boxes, row, &mut ins);
    }
}
