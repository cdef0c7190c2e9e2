//! A document is served: its files are fetched, it is run, and what comes in is answered.
ghost use Rattle.std.specs.Prelude.{◌≡◌, ℕ, ◌<◌, ◌≤◌, ◌⊎◌, IfOk, IsErrOf};
ghost use Rattle.tx_call.specs.Hearing.{BreakCauses, Refuses, ServeCauses, ServesFiles};
ghost use Rattle.tx_call.specs.Outcome.{ForHeld, served};
ghost use Rattle.tx_call.specs.Serving.{AsksForNone, AsksToServe, ForServing, IsUntouched, serving_held};
ghost use Rattle.tx_words.specs.Words.{IsServing, words_meant, texts};

use crate::fetching::fetch_files;
use crate::outputs::{say, say_run};
use crate::run::status_after;
use crate::serving::answer_all;
use crate::trouble::{Break, Trouble};
use std::alloc::Global;
use tx_files::FileSet;
use tx_io::{Inlet, Sink, Source};
use tx_machine::{Machine, Steps};
use tx_session::{Document, Live};
use tx_words::given::{Asked, Serving};
use tx_words::words::read_words;

/// Runs the main file on these files, says how it came out, and answers what comes in. Answers the status.
fn serve_files<M: Machine + Drop, I: Inlet, K: Sink>(
    alloc: Global,
    machine: M,
    serving: &Serving,
    files: FileSet,
    inlet: &mut I,
    sink: &mut K,
    steps: &mut Steps,
) -> Result<u8, Break>
    requires { IsServing serving.now }
    ensures serves { ServesFiles M.formatter (served serving.now files) (I.left inlet.old) (I.left inlet.new) result (K.output sink.old) (K.output sink.new) steps.old steps.new }
    ensures range { IfOk result (λ status. (status < 2) ⊎ (status ≡ 5)) }
    ensures causes { BreakCauses result (I.faults inlet.old) (I.faults inlet.new) (K.faults sink.old) (K.faults sink.new) }
{
    let main = serving.main.clone()?;
    let mut live = Live::open(
        alloc,
        machine,
        files,
        main,
        serving.date,
        serving.limits,
        steps,
    )?;
    say_run::<M, Live<M>, K>(alloc, &live, sink)?;
    let tally = answer_all(alloc, &mut live, inlet, sink, steps)?;
    Ok(status_after(live.end(), tally.outside))
}

/// Fetches the files that are listed, runs the main one, says how it came out, and answers what comes in. Answers the status.
fn serve_listed<M: Machine + Drop, S: Source, I: Inlet, K: Sink>(
    alloc: Global,
    machine: M,
    serving: &Serving,
    source: &mut S,
    inlet: &mut I,
    sink: &mut K,
    steps: &mut Steps,
) -> Result<u8, Break>
    requires { IsServing serving.now }
    ensures serves { ForHeld (S.holds source.old) (λ held. ServesFiles M.formatter (serving_held serving.now held) (I.left inlet.old) (I.left inlet.new) result (K.output sink.old) (K.output sink.new) steps.old steps.new) }
    ensures range { IfOk result (λ status. (status < 2) ⊎ (status ≡ 5)) }
    ensures silent { IsErrOf result (Break.Trouble Trouble.Source) → IsUntouched (I.left inlet.old) (I.left inlet.new) (K.output sink.old) (K.output sink.new) steps.old steps.new }
    ensures causes { ServeCauses result (S.faults source.old) (S.faults source.new) (I.faults inlet.old) (I.faults inlet.new) (K.faults sink.old) (K.faults sink.new) }
    ensures holds { S.holds source.new ≡ S.holds source.old }
{
    let files = fetch_files(alloc, serving.files.as_slice(), source)?;
    serve_files(alloc, machine, serving, files, inlet, sink, steps)
}

/// Says that the words don't ask to serve a document. Answers the status.
fn refuse_words<K: Sink>(sink: &mut K) -> Result<u8, Break>
    ensures refuses { Refuses result (K.output sink.old) (K.output sink.new) }
    ensures causes { (inlet : ℕ) → BreakCauses result inlet inlet (K.faults sink.old) (K.faults sink.new) }
{
    say(sink, b"words refused\n")?;
    Ok(2)
}

/// Does what the words ask, which is to serve a document. Answers the status.
pub fn serve_words<M: Machine + Drop, S: Source, I: Inlet, K: Sink>(
    alloc: Global,
    machine: M,
    words: &[String],
    source: &mut S,
    inlet: &mut I,
    sink: &mut K,
    steps: &mut Steps,
) -> Result<u8, Break>
    ensures serves { ForServing (words_meant (texts words.now)) (λ serving. ForHeld (S.holds source.old) (λ held. ServesFiles M.formatter (serving_held serving held) (I.left inlet.old) (I.left inlet.new) result (K.output sink.old) (K.output sink.new) steps.old steps.new)) }
    ensures refuses { AsksForNone (words_meant (texts words.now)) → Refuses result (K.output sink.old) (K.output sink.new) × (steps.new ≡ steps.old) }
    ensures range { IfOk result (λ status. (status ≤ 2) ⊎ (status ≡ 5)) }
    ensures refused { IfOk result (λ status. status ≡ 2 → AsksForNone (words_meant (texts words.now))) }
    ensures fetched { IsErrOf result (Break.Trouble Trouble.Source) → AsksToServe (words_meant (texts words.now)) }
    ensures heard { IsErrOf result Break.Inlet → AsksToServe (words_meant (texts words.now)) }
    ensures silent { IsErrOf result (Break.Trouble Trouble.Source) → IsUntouched (I.left inlet.old) (I.left inlet.new) (K.output sink.old) (K.output sink.new) steps.old steps.new }
    ensures causes { ServeCauses result (S.faults source.old) (S.faults source.new) (I.faults inlet.old) (I.faults inlet.new) (K.faults sink.old) (K.faults sink.new) }
    ensures holds { S.holds source.new ≡ S.holds source.old }
{
    match read_words(alloc, words)? {
        Asked::Serve(serving) => serve_listed(alloc, machine, &serving, source, inlet, sink, steps),
        _ => refuse_words(sink),
    }
}
