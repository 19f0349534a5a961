ghost use Rattle.std.specs.Prelude.{◌≡◌, ◌≢◌, ℕ, ℤ, List, IfOk};
ghost use Rattle.ccpp_edge.specs.Count.{Rose};
ghost use Rattle.ccpp_edge.specs.Shelf.{Holds};
ghost use Rattle.ccpp_top.specs.Answers.{Answers, AnswersTo, Says, Gains, GainsFront, Cause};
ghost use Rattle.ccpp_top.specs.Decides.{IsRest, ReportsDecided};
ghost use Rattle.ccpp_top.specs.Loads.{Loads, IsOfLoad};
ghost use Rattle.ccpp_top.specs.Traces.{TraceAnswers};
ghost use Rattle.ccpp_words.specs.Words.{AskFor, AskToLoad, AskToTrace, file_of};
ghost use Rattle.ccpp_words.specs.declared.command.Command.{Command};
ghost use Rattle.ccpp_words.specs.declared.command.Command.TheVariants.{Run};

use crate::answer::Answer;
use crate::checks::{check_answer, code_answer, share_answer};
use crate::load::load_answer;
use crate::message::messages_of;
use crate::migrate::migration_of;
use crate::run::{Asked, run_answer};
use crate::status::Status;
use crate::trace::trace_answer;
use ccpp_edge::{Gate, Memory, Shelf, ShelfFault, Sink, SinkFault};
use ccpp_words::{Command, Invocation, Word, WordsFault};
use std::alloc::{AllocError, Global};
use std::thread::Threads;

/// Does what the words of a command line ask for: reads from the shelf, and writes one text to the sink.
///
/// `run F [--steps N] [--seed N] [ints]` runs the program in the file F on the ints and writes its report: a run of the source definition
/// comes to this output and this end within N steps, or 10,000,000, and its last line is the answer of `share F`. Where that is
/// `determinate` and the run comes to rest, every run of the source from these ints comes to rest in the same way. Where `main` takes
/// another number of ints, it says so.
/// `check F` says whether the file holds a program that breaks no static rule, and `share F` whether that breaks a rule of sharing.
/// `code F` lists its stack code. These four refuse any other file, with the first fault of the lexer, of the parser or of the static
/// rules. `message F` lists the requests whose messages the file F holds, or says at which byte that is none. `migrate F` writes the
/// journal in the file F in version 2, or says at which line that is none, or that its end is missing. `trace F F2 [ints]` says whether a run
/// of the program in the file F on the ints explains the journal in the file F2, and how that stands, or which entry none explains first, and
/// why; or why that is no journal. `load N` runs the load program of
/// the size N, 1 to 10,000, and writes a line that says so and the report of that run. Other words are refused.
/// The runtime and the gate are handed to the run.
pub fn ccpp<R: Threads + Sync, S: Shelf, O: Sink, G: Gate>(
    rt: &R,
    alloc: Global,
    words: &[Word],
    shelf: &mut S,
    out: &mut O,
    gate: &G,
) -> Status
    // Unless memory is refused or the shelf or the sink fails, `run` writes the report of a run of the program in the file, or
    // that the file is none.
    ensures headline { (file source : List ℕ) (steps seed : ℕ) (ints : List ℤ)
        → AskFor words.now (Run file steps seed ints)
        → Holds (S.held shelf.old) file source
        → (Rose (S.faults shelf.old) (S.faults shelf.new) → ⊥)
        → (Rose (O.faults out.old) (O.faults out.new) → ⊥)
        → result ≢ Status.Memory
        → Gains (Answers ints steps source) (O.written out.old) (O.written out.new) result }

    // Under the same premises each command on a file writes what it answers on that file's bytes.
    ensures completeness { (command : Command) (bytes : List ℕ)
        → AskFor words.now command
        → Holds (S.held shelf.old) (file_of command) bytes
        → (Rose (S.faults shelf.old) (S.faults shelf.new) → ⊥)
        → (Rose (O.faults out.old) (O.faults out.new) → ⊥)
        → result ≢ Status.Memory
        → Gains (AnswersTo command bytes) (O.written out.old) (O.written out.new) result }

    // Where a run of a determinate source comes to rest, the report is that of a run that decides every run.
    ensures one_answer { (file source : List ℕ) (steps seed : ℕ) (ints : List ℤ)
        → AskFor words.now (Run file steps seed ints)
        → Holds (S.held shelf.old) file source
        → (Rose (S.faults shelf.old) (S.faults shelf.new) → ⊥)
        → (Rose (O.faults out.old) (O.faults out.new) → ⊥)
        → IsRest result
        → Gains (ReportsDecided source ints steps) (O.written out.old) (O.written out.new) result }

    // Under the same premises, for both files, `trace` writes what it answers on their bytes.
    ensures trace { (file journal source bytes : List ℕ) (ints : List ℤ)
        → AskToTrace words.now file journal ints
        → Holds (S.held shelf.old) file source
        → Holds (S.held shelf.old) journal bytes
        → (Rose (S.faults shelf.old) (S.faults shelf.new) → ⊥)
        → (Rose (O.faults out.old) (O.faults out.new) → ⊥)
        → result ≢ Status.Memory
        → Gains (TraceAnswers ints source bytes) (O.written out.old) (O.written out.new) result }

    // Unless memory is refused or the sink fails, `load` writes its line and the report of a run of the load program. It reads no file,
    // and is never refused.
    ensures load { (n : ℕ) → AskToLoad words.now n
        → (Rose (O.faults out.old) (O.faults out.new) → ⊥)
        → result ≢ Status.Memory
        → Gains (Loads n) (O.written out.old) (O.written out.new) result }
    ensures load_status { (n : ℕ) → AskToLoad words.now n → IsOfLoad result }

    // The whole text is written, or a front of it where the sink fails, or nothing where memory runs out.
    ensures answer { result ≢ Status.WriteFault → result ≢ Status.Memory
        → Gains (Says words.now (S.held shelf.old) (S.faults shelf.old) (S.faults shelf.new)) (O.written out.old) (O.written out.new) result }
    ensures write_fault { result ≡ Status.WriteFault
        → GainsFront (Says words.now (S.held shelf.old) (S.faults shelf.old) (S.faults shelf.new)) (O.written out.old) (O.written out.new) }
    ensures memory { result ≡ Status.Memory → O.written out.new ≡ O.written out.old }

    ensures shelf { S.held shelf.new ≡ S.held shelf.old }
    ensures cause { Cause words.now (S.held shelf.old) (S.faults shelf.old) (S.faults shelf.new) (O.faults out.old) (O.faults out.new) result }
{
    let Ok(answer) = answer_to(rt, alloc, words, shelf, gate) else {
        return Status::Memory;
    };
    match out.write_all(answer.text.as_slice()) {
        Ok(()) => answer.status,
        Err(SinkFault::Failed) => Status::WriteFault,
        Err(SinkFault::Memory) => Status::Memory,
    }
}

/// What is answered to the words. It reads each file at most once, and writes nothing to the shelf.
fn answer_to<R: Threads + Sync, S: Shelf, G: Gate>(
    rt: &R,
    alloc: Global,
    words: &[Word],
    shelf: &mut S,
    gate: &G,
) -> Result<Answer, Memory>
    ensures says { IfOk result (λ answer. Says words.now (S.held shelf.old) (S.faults shelf.old) (S.faults shelf.new) answer.text answer.status) }
    ensures held { S.held shelf.new ≡ S.held shelf.old }
{
    match Invocation::of(alloc, words) {
        Ok(Invocation::OnFile(command)) => answer_to_command(rt, alloc, &command, shelf, gate),
        Ok(
            Invocation::Trace {
                file,
                journal,
                ints,
            },
        ) => trace_answer(
            alloc,
            file.as_str(),
            journal.as_str(),
            ints.as_slice(),
            shelf,
        ),
        Ok(Invocation::Load { size }) => load_answer(rt, alloc, size, gate),
        Err(WordsFault::Wrong { place }) => {
            Answer::line(
                alloc,
                Status::WordsRefused,
                format!(in alloc; "words refused at {place}")?.as_str(),
            )
        }
        Err(WordsFault::Memory) => Err(AllocError),
    }
}

/// What is answered to words that ask for a command on a file.
fn answer_to_command<R: Threads + Sync, S: Shelf, G: Gate>(
    rt: &R,
    alloc: Global,
    command: &Command,
    shelf: &mut S,
    gate: &G,
) -> Result<Answer, Memory>
    requires { (words : List (List ℕ)) × AskFor words command.now }
    ensures says { (words : List (List ℕ)) → AskFor words command.now → IfOk result (λ answer. Says words (S.held shelf.old) (S.faults shelf.old) (S.faults shelf.new) answer.text answer.status) }
    ensures held { S.held shelf.new ≡ S.held shelf.old }
{
    let file = command.file();
    match shelf.read(file) {
        Ok(bytes) => answer_on(rt, alloc, command, bytes.as_slice(), gate),
        Err(ShelfFault::Absent) => Answer::line(
            alloc,
            Status::NoFile,
            format!(in alloc; "no file {file}")?.as_str(),
        ),
        Err(ShelfFault::Failed) => Answer::line(alloc, Status::ReadFault, "read fault"),
        Err(ShelfFault::Memory) => Err(AllocError),
    }
}

/// What a command answers on the bytes of its file.
fn answer_on<R: Threads + Sync, G: Gate>(
    rt: &R,
    alloc: Global,
    command: &Command,
    bytes: &[u8],
    gate: &G,
) -> Result<Answer, Memory>
    requires { (words : List (List ℕ)) × AskFor words command.now }
    ensures { IfOk result (λ answer. AnswersTo command.now bytes.now answer.text answer.status) }
{
    match command {
        Command::Run {
            steps,
            seed,
            ints,
            ..
        } => {
            let asked = Asked {
                ints: ints.as_slice(),
                seed: *seed,
                limit: *steps,
            };
            run_answer(rt, alloc, bytes, asked, gate)
        }
        Command::Check { .. } => check_answer(alloc, bytes),
        Command::Share { .. } => share_answer(alloc, bytes),
        Command::Code { .. } => code_answer(alloc, bytes),
        Command::Message { .. } => messages_of(alloc, bytes),
        Command::Migrate { .. } => migration_of(alloc, bytes),
    }
}
