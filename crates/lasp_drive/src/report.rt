//! The report of a run that came to its end.

ghost use Rattle.std.specs.Prelude.{◌≡◌, ◌<◌, ◌≤◌, ◌++◌, ℕ, length, map, OnOk, IfOk, string_bytes};
ghost use Rattle.lasp_drive.specs.Prelude.{meets, shown_content_at, known_lines, read_lines, report_of, AreSettled, peers_of, AllLearn, read_seen, seen, opened_of, run_of, IsReady, OnlyAsked, MayPoll, AreOpened, OfTheirRun, exported};

use super::driver::{Driver, OpenRead};
use super::node::Node;
use super::text::{push_known, push_read};
use lasp_wire::encode;
use std::alloc::{AllocError, Global};

/// Appends a line for each node: what it knows.
fn push_nodes<N: Node>(
    text: &mut String,
    alloc: Global,
    nodes: &mut Vec<N>,
) -> Result<(), AllocError>
    ensures lines { OnOk result (string_bytes text.new ≡ string_bytes text.old ++ known_lines 0 (peers_of (map N.view nodes.old.items))) }
    ensures learn { AllLearn (map N.view nodes.old.items) (map N.view nodes.new.items) }
    ensures place { map N.place nodes.new.items ≡ map N.place nodes.old.items }
{
    for p in 0..nodes.len() {
        let counts = nodes[p].counts(alloc)?;
        push_known(text, p as u64, counts.as_slice())?;
    }
    Ok(())
}

/// Whether the variable of a read came to its threshold.
fn is_met<N: Node>(nodes: &mut Vec<N>, read: &OpenRead<N::Read>) -> Result<bool, AllocError>
    requires { MayPoll (map N.view nodes.old.items) (read_seen N.read read.now) }
    ensures met { OfTheirRun (map N.view nodes.old.items) (λ run. IfOk result (λ met. met ≡ meets (N.read read.now.read).threshold (shown_content_at run read.now.node (N.read read.now.read).var))) }
    ensures learn { AllLearn (map N.view nodes.old.items) (map N.view nodes.new.items) }
    ensures place { map N.place nodes.new.items ≡ map N.place nodes.old.items }
{
    Ok(nodes[read.node as usize].poll_read(&read.read)?.is_some())
}

/// Appends a line for each read: whether its variable came to its threshold.
fn push_reads<N: Node>(
    text: &mut String,
    nodes: &mut Vec<N>,
    reads: &[OpenRead<N::Read>],
) -> Result<(), AllocError>
    requires { AreOpened (map N.view nodes.old.items) (map (read_seen N.read) reads.now) }
    ensures lines { OfTheirRun (map N.view nodes.old.items) (λ run. OnOk result (string_bytes text.new ≡ string_bytes text.old ++ read_lines 0 run (map opened_of (map (read_seen N.read) reads.now)))) }
    ensures learn { AllLearn (map N.view nodes.old.items) (map N.view nodes.new.items) }
    ensures place { map N.place nodes.new.items ≡ map N.place nodes.old.items }
{
    for k in 0..reads.len() {
        let met = is_met(nodes, &reads[k])?;
        push_read(text, k as u64, met)?;
    }
    Ok(())
}

impl<N: Node> Driver<N> {
    /// The report: the lines that were printed, what each node knows, and which reads came to their thresholds. The run stands where it stood, since its nodes were only asked.
    pub fn report(&mut self, alloc: Global) -> Result<Vec<u8>, AllocError>
        requires ready { (c : ℕ) × IsReady N.view N.read c self.old }
        requires settled { AreSettled (map N.view self.old.nodes.items) }
        ensures text { IfOk result (λ text. text.items ≡ report_of (run_of (seen N.view N.read self.old))) }
        ensures asked { OnlyAsked N.view N.read N.place self.old self.new }
    {
        let mut text = self.text.clone()?;
        push_nodes(&mut text, alloc, &mut self.nodes)?;
        push_reads(&mut text, &mut self.nodes, &self.reads)?;
        Ok(text.into_bytes())
    }

    /// The bytes of what node p would send now. The run stands where it stood.
    pub fn export(&mut self, alloc: Global, p: u8) -> Result<Vec<u8>, AllocError>
        requires ready { (c : ℕ) × (c ≤ 100000) × IsReady N.view N.read c self.old }
        requires node { p < length self.old.nodes.items }
        ensures bytes { IfOk result (λ bytes. bytes.items ≡ exported p (run_of (seen N.view N.read self.old))) }
        ensures asked { OnlyAsked N.view N.read N.place self.old self.new }
    {
        self.graph.recall();
        let message = self.nodes[p as usize].message(alloc)?;
        message.recall();
        encode(alloc, &message)
    }
}
