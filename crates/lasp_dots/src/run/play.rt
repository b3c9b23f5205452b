//! A whole script.

ghost use Rattle.std.specs.Prelude.{◌≡◌, ◌≤◌, ◌<◌, ◌++◌, ℕ, IfOk, OnOk, Ok, length, string_bytes};
ghost use Rattle.lasp_dots.specs.Prelude.{IsLawful, IsWithinLimits, AreLawful, report_of, Run, ended, peer_at, live_lines, dot_text, dot_output, one_set, dots_at, StandsFor, LacksTheRemoved, dot_start, dot_play, AreDotCommands, CountAtMost, IsUnlimited, stage_at};

use super::command::do_command;
use super::replicas::DotReplicas;
use super::report::{push_all_known, push_all_sizes};
use lasp_script::Script;
use model_dots::{
    replicas_without_tombstones_stand_for_those_with_them, reports_need_no_tombstones,
};
use std::alloc::{AllocError, Global};

/// Does the commands of a script in order, and appends what they print.
fn play(replicas: &mut DotReplicas, text: &mut String, script: &Script) -> Result<(), AllocError>
    requires some { length replicas.old.nodes ≤ 8 }
    requires lawful { AreLawful (length replicas.old.nodes) (stage_at replicas.old) script.now.commands }
    requires known { AreDotCommands script.now.commands }
    requires counts { CountAtMost 0 replicas.old }
    requires few { length script.now.commands < 100000 }
    ensures done { OnOk result (replicas.new ≡ dot_play replicas.old script.now.commands) }
    ensures text { OnOk result (string_bytes text.new ≡ string_bytes text.old ++ dot_text replicas.old script.now.commands) }
{
    for i in 0..script.len() {
        do_command(replicas, text, script.at(i))?;
    }
    Ok(())
}

/// The replicas at the end of a script, and what they printed.
#[derive(Drop)]
pub struct DotRun {
    pub replicas: DotReplicas,
    pub text: String,
}

/// Runs a script over the graph of one set on replicas without tombstones. At its end each replica stands for that of the script's run in which no limit stops: it has the live rows and the counts of it, and what it counts of another replica's rows and doesn't have was removed there.
pub fn play_dots(alloc: Global, script: &Script) -> Result<DotRun, AllocError>
    requires lawful { IsLawful one_set script.now }
    requires limits { IsWithinLimits script.now }
    requires known { AreDotCommands script.now.commands }
    ensures done { IfOk result (λ r. r.replicas ≡ dot_play (dot_start script.now.nodes) script.now.commands) }
    ensures text { IfOk result (λ r. string_bytes r.text ≡ dot_text (dot_start script.now.nodes) script.now.commands) }
    ensures stands { (run : Run) → IsUnlimited one_set script.now.nodes script.now.commands run
        → IfOk result (λ r. (p : ℕ) → p < script.now.nodes → StandsFor (dots_at r.replicas.nodes p) (peer_at run.peers p)) }
    ensures removed { (run : Run) → IsUnlimited one_set script.now.nodes script.now.commands run
        → IfOk result (λ r. (p q : ℕ) → p < script.now.nodes → q < script.now.nodes → LacksTheRemoved (dots_at r.replicas.nodes p) (peer_at run.peers p) (peer_at run.peers q)) }
{
    replicas_without_tombstones_stand_for_those_with_them();
    let mut replicas = DotReplicas::new(alloc, script.nodes())?;
    let mut text = String::new(alloc);
    play(&mut replicas, &mut text, script)?;
    Ok(DotRun { replicas, text })
}

/// What replicas without tombstones print of a script over the graph of one set, what each knows at the end, and how many pairs it keeps: the report of the script's run, and how many live rows each node's set has. That run comes to its end, or is told as if no limit stopped it. Nothing stops such replicas but want of memory.
pub fn run_dots(alloc: Global, script: &Script) -> Result<Vec<u8>, AllocError>
    requires lawful { IsLawful one_set script.now }
    requires limits { IsWithinLimits script.now }
    requires known { AreDotCommands script.now.commands }
    ensures output { IfOk result (λ text. text.items ≡ dot_output script.now.nodes script.now.commands) }
    ensures report { (last : Run) → ended one_set script.now ≡ Ok last → IfOk result (λ text. text.items ≡ report_of last ++ live_lines 0 last.peers) }
    ensures unlimited { (run : Run) → IsUnlimited one_set script.now.nodes script.now.commands run → IfOk result (λ text. text.items ≡ report_of run ++ live_lines 0 run.peers) }
{
    reports_need_no_tombstones();
    let DotRun { replicas, mut text } = play_dots(alloc, script)?;
    push_all_known(&mut text, &replicas)?;
    push_all_sizes(&mut text, &replicas)?;
    Ok(text.into_bytes())
}
