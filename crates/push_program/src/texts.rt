//! The text of each job.
ghost use Rattle.std.specs.Prelude.{◌≡◌, ◌<◌, ◌≤◌, ℕ, List, Ok, IfOk, IfErr, false, length, string_bytes};
ghost use Rattle.yp_gen.specs.Scripts.{script_text};
ghost use Rattle.yp_script.specs.Lines.{line_limit};
ghost use Rattle.yp_script.specs.Script.{AreReceivers, MayRun, count_commands, script_in};
ghost use Rattle.push_program.specs.declared.fault.NoText.TheVariants.{Memory};
ghost use Rattle.push_program.specs.declared.job.Job.TheVariants.{Run, Live, Replay, Trial};
ghost use Rattle.push_program.specs.Jobs.{needs_threads};
ghost use Rattle.push_program.specs.Making.{HasSize, Makes};

use crate::fault::NoText;
use crate::job::Job;
use crate::manual::first_manual;
use std::alloc::Global;
use std::sync::Wait;
use std::thread::Threads;
use yp_base::txt::Txt;
use yp_concurrent::script::report_beside;
use yp_drawn::laws::a_drawn_text_is_a_script;
use yp_gate::Gate;
use yp_gen::script::generate;
use yp_live::script::{report_of_script, summary_of_script};
use yp_replay::fault::ReplayFault;
use yp_replay::replay::replay_text;
use yp_script::fault::ScriptFault;
use yp_script::reading::read_script;
use yp_script::script::Script;

/// The text of a string that was made whole.
fn whole(alloc: Global, text: String) -> Result<Txt, NoText>
    ensures text { IfOk result (λ whole. whole ≡ string_bytes text) }
    ensures fault { IfErr result (λ fault. fault ≡ Memory) }
{
    match Txt::from_string(alloc, text) {
        Ok(text) => Ok(text),
        Err(_) => Err(NoText::Memory),
    }
}

/// The report of the script that bytes are, or its first fault.
fn run_text(alloc: Global, bytes: &[u8]) -> Result<Txt, NoText>
    ensures { Makes Run bytes.now result }
{
    match read_script(alloc, bytes) {
        Ok(script) => match report_of_script(alloc, script) {
            Ok(text) => {
                let report = whole(alloc, text)?;
                Ok(report)
            }
            Err(_) => Err(NoText::Memory),
        },
        Err(ScriptFault::At { line, kind: flaw }) => Err(NoText::Script {
            line,
            kind: flaw.kind,
        }),
        Err(ScriptFault::Memory) => Err(NoText::Memory),
    }
}

/// The report of a run of a script by threads, or the first receiver that takes by command.
fn threads_text<T: Threads + Wait + Sync, G: Gate>(
    rt: &T,
    alloc: Global,
    gate: &G,
    script: Script,
    workers: u32,
) -> Result<Txt, NoText>
    requires receivers { AreReceivers script.receivers }
    requires commands { MayRun script }
    requires lanes { length script.lanes ≤ 64 }
    requires count { count_commands script ≤ line_limit }
    requires workers { 0 < workers }
    ensures { (bytes : List ℕ) → script_in bytes ≡ Ok script → Makes (Live workers) bytes result }
{
    match first_manual(alloc, &script.receivers) {
        Ok(Some(receiver)) => Err(NoText::Manual { receiver }),
        Ok(None) => match report_beside(rt, alloc, gate, script, workers) {
            Ok(text) => {
                let report = whole(alloc, text)?;
                Ok(report)
            }
            Err(_) => Err(NoText::Memory),
        },
        Err(_) => Err(NoText::Memory),
    }
}

/// The report of a run by threads of the script that bytes are, or its first fault, or its first receiver that
/// takes by command.
pub fn live_text<T: Threads + Wait + Sync, G: Gate>(
    rt: &T,
    alloc: Global,
    gate: &G,
    workers: u32,
    bytes: &[u8],
) -> Result<Txt, NoText>
    requires { 0 < workers }
    ensures { Makes (Live workers) bytes.now result }
{
    match read_script(alloc, bytes) {
        Ok(script) => threads_text(rt, alloc, gate, script, workers),
        Err(ScriptFault::At { line, kind: flaw }) => Err(NoText::Script {
            line,
            kind: flaw.kind,
        }),
        Err(ScriptFault::Memory) => Err(NoText::Memory),
    }
}

/// The trees that the stream makes that bytes are, or its first fault.
fn stream_text(alloc: Global, bytes: &[u8]) -> Result<Txt, NoText>
    ensures { Makes Replay bytes.now result }
{
    match replay_text(alloc, bytes) {
        Ok(text) => {
            let trees = whole(alloc, text)?;
            Ok(trees)
        }
        Err(ReplayFault::Script { line, kind }) => Err(NoText::Script { line, kind }),
        Err(ReplayFault::Stream { line, kind }) => Err(NoText::Stream { line, kind }),
        Err(ReplayFault::Memory) => Err(NoText::Memory),
    }
}

/// The script that is drawn from a seed.
fn drawn_text(alloc: Global, seed: u32, size: u32) -> Result<Txt, NoText>
    requires some { 1 ≤ size }
    requires few { size ≤ 10000 }
    ensures text { IfOk result (λ text. text ≡ script_text seed size) }
    ensures fault { IfErr result (λ fault. fault ≡ Memory) }
{
    match generate(alloc, seed, size) {
        Ok(text) => Ok(text),
        Err(_) => Err(NoText::Memory),
    }
}

/// What the report of that script comes to.
fn trial_text(alloc: Global, seed: u32, size: u32) -> Result<Txt, NoText>
    requires some { 1 ≤ size }
    requires few { size ≤ 10000 }
    ensures { (bytes : List ℕ) → Makes (Trial seed size) bytes result }
{
    a_drawn_text_is_a_script();
    let text = drawn_text(alloc, seed, size)?;
    match read_script(alloc, text.as_str().as_bytes()) {
        Ok(script) => match summary_of_script(alloc, script) {
            Ok(text) => {
                let report = whole(alloc, text)?;
                Ok(report)
            }
            Err(_) => Err(NoText::Memory),
        },
        Err(ScriptFault::At { .. }) => unreachable!(),
        Err(ScriptFault::Memory) => Err(NoText::Memory),
    }
}

/// The text of a job that needs no threads, of the bytes that were read for it; or the first fault of these.
pub fn text_of(alloc: Global, job: &Job, bytes: &[u8]) -> Result<Txt, NoText>
    requires size { HasSize job.now }
    requires alone { needs_threads job.now ≡ false }
    ensures { Makes job.now bytes.now result }
{
    match job {
        Job::Run => run_text(alloc, bytes),
        Job::Live { .. } => unreachable!(),
        Job::Replay => stream_text(alloc, bytes),
        Job::Gen { seed, size } => drawn_text(alloc, *seed, *size),
        Job::Trial { seed, size } => trial_text(alloc, *seed, *size),
    }
}
