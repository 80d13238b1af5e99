//! The calls that the program makes.
ghost use Rattle.std.specs.Prelude.{◌≡◌, ◌+◌, ◌<◌, ◌≤◌, ℕ, List, true, false, drop, IfSome, Some, []};
ghost use Rattle.yp_command.specs.declared.fault.ScriptKind.{ScriptKind as Kind};
ghost use Rattle.yp_script.specs.Lines.{byte_limit};
ghost use Rattle.yp_replay.specs.declared.fault.StreamKind.{StreamKind as OfLine};
ghost use Rattle.push_program.specs.declared.job.Job.{Job as Asked};
ghost use Rattle.push_program.specs.declared.job.Job.TheVariants.{Live};
ghost use Rattle.push_program.specs.declared.top.Status.TheVariants.{Done, BadWords, BadScript, BadStream, Manual, WriteFault};
ghost use Rattle.push_program.specs.Answers.{Answers, AnswersJob, IsComplete, ReadsFor, TellsReading, TellsWords, TellsWriting, WritesPrefix, WritesText, tells_no_writing, tells_whole_reading};
ghost use Rattle.push_program.specs.Jobs.{HasManual, HasScriptFault, HasStreamFault, job_in, needs_threads, reads};
ghost use Rattle.push_program.specs.Making.{AnswersBytes, AnswersMade, HasSize, status_of};

use crate::fault::NoText;
use crate::job::{Job, job_of};
use crate::texts::{live_text, text_of};
use std::alloc::Global;
use std::sync::Wait;
use std::thread::Threads;
use yp_base::txt::Txt;
use yp_command::fault::ScriptKind;
use yp_gate::Gate;
use yp_io::sink::Sink;
use yp_io::source::Source;
use yp_io::whole::{ReadError, read_whole, write_whole};
use yp_replay::fault::StreamKind;
use yp_script::reading::BYTE_LIMIT;
use yp_words::words::{WordsFault, read_words};

/// How a call ended.
#[derive(PartialEq, Eq, Drop)]
pub enum Status {
    /// The text was written, whole.
    Done,
    /// The arguments ask for nothing that the program does. Nothing was read.
    BadWords,
    /// The first fault of a script, or of the first lines of a stream: its line, from 1 on, and its kind.
    /// Nothing was written.
    BadScript { line: u32, kind: ScriptKind },
    /// The first fault of a stream is that of a notification line: its line, and its kind. Nothing was
    /// written.
    BadStream { line: u32, kind: StreamKind },
    /// A script was to be run by threads, and this receiver takes by command: the first that does so, in the
    /// order of declaration. Nothing was run, and nothing was written.
    Manual { receiver: Txt },
    /// A read failed. Nothing was written.
    ReadFault,
    /// A write failed; a prefix of the text was written.
    WriteFault,
    /// Memory ran out. Nothing was written.
    NoMemory,
}

/// How a call ends that has no text.
fn status_of(reason: NoText) -> Status
    ensures { result ≡ status_of reason }
{
    match reason {
        NoText::Script { line, kind } => Status::BadScript { line, kind },
        NoText::Stream { line, kind } => Status::BadStream { line, kind },
        NoText::Manual { receiver } => Status::Manual { receiver },
        NoText::Memory => Status::NoMemory,
    }
}

/// Writes a text that was made, or tells why there is none.
fn write_made<K: Sink>(made: Result<Txt, NoText>, sink: &mut K) -> Status
    ensures { AnswersMade made (record {
      before = K.written sink.old;
      after = K.written sink.new;
      faults_before = K.faults sink.old;
      faults_after = K.faults sink.new;
    }) result }
{
    match made {
        Ok(text) => match write_whole(sink, text.as_str().as_bytes()) {
            Ok(()) => Status::Done,
            Err(_) => Status::WriteFault,
        },
        Err(reason) => status_of(reason),
    }
}

/// Writes the text of a job that needs no threads, of the bytes that were read for it.
fn answer<K: Sink>(alloc: Global, job: &Job, bytes: &[u8], sink: &mut K) -> Status
    requires size { HasSize job.now }
    requires alone { needs_threads job.now ≡ false }
    ensures { AnswersBytes job.now bytes.now (record {
      before = K.written sink.old;
      after = K.written sink.new;
      faults_before = K.faults sink.old;
      faults_after = K.faults sink.new;
    }) result }
{
    write_made(text_of(alloc, job, bytes), sink)
}

/// Reads the source to its end, and writes the text of a job of its bytes.
fn read_and_answer<S: Source, K: Sink>(
    alloc: Global,
    job: &Job,
    source: &mut S,
    sink: &mut K,
) -> Status
    requires size { HasSize job.now }
    requires alone { needs_threads job.now ≡ false }
    requires reads { reads job.now ≡ true }
    ensures { AnswersJob job.now (record {
      left_before = S.left source.old;
      left_after = S.left source.new;
      written_before = K.written sink.old;
      written_after = K.written sink.new;
      read_faults_before = S.faults source.old;
      read_faults_after = S.faults source.new;
      write_faults_before = K.faults sink.old;
      write_faults_after = K.faults sink.new;
    }) result }
{
    let whole = match read_whole(alloc, source, BYTE_LIMIT) {
        Ok(whole) => whole,
        Err(ReadError::Fault) => return Status::ReadFault,
        Err(ReadError::Memory) => return Status::NoMemory,
    };
    answer(alloc, job, whole.bytes.items(), sink)
}

/// Does a job that needs no threads: where it reads, the source is read to its end; then its text is made,
/// whole, and written. What each status says of the job and of what was read and written is one relation
/// (`AnswersJob`).
pub fn script_call<S: Source, K: Sink>(
    alloc: Global,
    job: &Job,
    source: &mut S,
    sink: &mut K,
) -> Status
    requires size { HasSize job.now }
    requires alone { needs_threads job.now ≡ false }
    ensures { AnswersJob job.now (record {
      left_before = S.left source.old;
      left_after = S.left source.new;
      written_before = K.written sink.old;
      written_after = K.written sink.new;
      read_faults_before = S.faults source.old;
      read_faults_after = S.faults source.new;
      write_faults_before = K.faults sink.old;
      write_faults_after = K.faults sink.new;
    }) result }
{
    if job.reads() {
        read_and_answer(alloc, job, source, sink)
    } else {
        answer(alloc, job, &[], sink)
    }
}

/// Runs a script that was read by threads, and writes the report of that run.
fn answer_live<T: Threads + Wait + Sync, K: Sink, G: Gate>(
    rt: &T,
    alloc: Global,
    workers: u32,
    bytes: &[u8],
    sink: &mut K,
    gate: &G,
) -> Status
    requires { 0 < workers }
    ensures { AnswersBytes (Live workers) bytes.now (record {
      before = K.written sink.old;
      after = K.written sink.new;
      faults_before = K.faults sink.old;
      faults_after = K.faults sink.new;
    }) result }
{
    write_made(live_text(rt, alloc, gate, workers, bytes), sink)
}

/// Reads the source to its end, runs the lanes, the receivers and so many workers of its script by threads, and
/// writes the report of that run. What each status says is the same relation.
pub fn live_call<T: Threads + Wait + Sync, S: Source, K: Sink, G: Gate>(
    rt: &T,
    alloc: Global,
    workers: u32,
    source: &mut S,
    sink: &mut K,
    gate: &G,
) -> Status
    requires { 0 < workers }
    ensures { AnswersJob (Live workers) (record {
      left_before = S.left source.old;
      left_after = S.left source.new;
      written_before = K.written sink.old;
      written_after = K.written sink.new;
      read_faults_before = S.faults source.old;
      read_faults_after = S.faults source.new;
      write_faults_before = K.faults sink.old;
      write_faults_after = K.faults sink.new;
    }) result }
{
    let whole = match read_whole(alloc, source, BYTE_LIMIT) {
        Ok(whole) => whole,
        Err(ReadError::Fault) => return Status::ReadFault,
        Err(ReadError::Memory) => return Status::NoMemory,
    };
    answer_live(rt, alloc, workers, whole.bytes.items(), sink, gate)
}

/// Does a job, with threads where it needs them.
fn do_job<T: Threads + Wait + Sync, S: Source, K: Sink, G: Gate>(
    rt: &T,
    alloc: Global,
    job: &Job,
    source: &mut S,
    sink: &mut K,
    gate: &G,
) -> Status
    requires { HasSize job.now }
    ensures { AnswersJob job.now (record {
      left_before = S.left source.old;
      left_after = S.left source.new;
      written_before = K.written sink.old;
      written_after = K.written sink.new;
      read_faults_before = S.faults source.old;
      read_faults_after = S.faults source.new;
      write_faults_before = K.faults sink.old;
      write_faults_after = K.faults sink.new;
    }) result }
{
    match job {
        Job::Live { workers } => live_call(rt, alloc, *workers, source, sink, gate),
        _ => script_call(alloc, job, source, sink),
    }
}

// Does what the words ask for: what each status says, in one relation.
fn answer_words<T: Threads + Wait + Sync, S: Source, K: Sink, G: Gate>(
    rt: &T,
    alloc: Global,
    words: &[Txt],
    source: &mut S,
    sink: &mut K,
    gate: &G,
) -> Status
    ensures { Answers (job_in words.now) (record {
      left_before = S.left source.old;
      left_after = S.left source.new;
      written_before = K.written sink.old;
      written_after = K.written sink.new;
      read_faults_before = S.faults source.old;
      read_faults_after = S.faults source.new;
      write_faults_before = K.faults sink.old;
      write_faults_after = K.faults sink.new;
    }) result }
{
    match read_words(alloc, words) {
        Ok(words) => do_job(rt, alloc, &job_of(words), source, sink, gate),
        Err(WordsFault::BadWords) => Status::BadWords,
        Err(WordsFault::Memory) => Status::NoMemory,
    }
}

/// Does what the arguments ask for: `run` reads a script to the end of the source, runs it, and writes its
/// report; `live` does so by threads, one for each lane, worker and receiver; `replay` reads a stream to the
/// end, and writes the trees that its lines make; `gen` writes a script that is drawn from a seed, and `trial`
/// runs it and writes what its report comes to, and both read nothing. It waits only for `live`.
///
/// `words` are the arguments after the program's name; `gate` is called by `live` alone. `Done` says that a
/// text of what was asked for was written, whole (`IsText`): for `run`, one that tells of the script's run
/// (`Tells`), which is the report of a legal journal of its commands, and of what each receiver was made by
/// it; for `live`, one that tells so of a run by threads (`TellsBeside`). A fault of a script or of a stream is
/// told with its line and kind, a receiver that takes by command by its name, where threads were to run, and a
/// failed read or write by a status of its own; where memory runs out, the sink stays as it was.
pub fn push_main<T: Threads + Wait + Sync, S: Source, K: Sink, G: Gate>(
    rt: &T,
    alloc: Global,
    words: &[Txt],
    source: &mut S,
    sink: &mut K,
    gate: &G,
) -> Status
    ensures words { TellsWords result (job_in words.now) }
    ensures unread { result ≡ BadWords → S.left source.new ≡ S.left source.old }
    ensures aside { (job : Asked) → job_in words.now ≡ Some job → reads job ≡ false → (S.left source.new ≡ S.left source.old) × (S.faults source.new ≡ S.faults source.old) }
    ensures told { (job : Asked) → job_in words.now ≡ Some job → result ≡ Done → WritesText job (S.left source.old) (K.written sink.old) (K.written sink.new) }
    ensures end { (job : Asked) → job_in words.now ≡ Some job → reads job ≡ true → result ≡ Done → IfSome (S.left source.old) (λ bytes. S.left source.new ≡ Some []) }
    ensures read { (job : Asked) → job_in words.now ≡ Some job → reads job ≡ true → tells_whole_reading result ≡ true → IfSome (S.left source.old) (λ bytes. S.left source.new ≡ Some (drop (byte_limit + 1) bytes)) }
    ensures script { (job : Asked) → job_in words.now ≡ Some job → (line : ℕ) (kind : Kind) → result ≡ BadScript line kind → IfSome (S.left source.old) (λ bytes. HasScriptFault job bytes line kind) }
    ensures stream { (job : Asked) → job_in words.now ≡ Some job → (line : ℕ) (kind : OfLine) → result ≡ BadStream line kind → IfSome (S.left source.old) (λ bytes. HasStreamFault job bytes line kind) }
    ensures manual { (job : Asked) → job_in words.now ≡ Some job → (name : List ℕ) → result ≡ Manual name → IfSome (S.left source.old) (λ bytes. HasManual job bytes name) }
    ensures reading { TellsReading result (S.faults source.old) (S.faults source.new) }
    ensures writing { TellsWriting result (K.faults sink.old) (K.faults sink.new) }
    ensures front { (job : Asked) → job_in words.now ≡ Some job → result ≡ WriteFault → WritesPrefix job (S.left source.old) (K.written sink.old) (K.written sink.new) }
    ensures unwritten { tells_no_writing result ≡ true → K.written sink.new ≡ K.written sink.old }
    ensures complete { IsComplete (job_in words.now) (record {
      left_before = S.left source.old;
      left_after = S.left source.new;
      written_before = K.written sink.old;
      written_after = K.written sink.new;
      read_faults_before = S.faults source.old;
      read_faults_after = S.faults source.new;
      write_faults_before = K.faults sink.old;
      write_faults_after = K.faults sink.new;
    }) result }
{
    answer_words(rt, alloc, words, source, sink, gate)
}
