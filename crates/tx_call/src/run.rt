//! A run as a whole: files are fetched, the main one is run, commands are carried out, and the rest is saved.
ghost use Rattle.std.specs.Prelude.{◌≡◌, ◌<◌, ◌≤◌, ◌⊎◌, ℕ, Some, IfOk, OnOk, IsErrOf};
ghost use Rattle.std.specs.FinMap.{empty};
ghost use Rattle.tx_bytes.specs.Files.{content};
ghost use Rattle.tx_machine.specs.Steps.{raised};
ghost use Rattle.tx_call.specs.Listing.{NamesNoDvi, HoldsNoDvi, dvi_refusal_line, listed_as};
ghost use Rattle.tx_call.specs.Outcome.{saying, making, listing, session_outcome, unasked_outcome, run_outcome, asked_outcome, outcome, with_listed, ForHeld};
ghost use Rattle.tx_call.specs.Lines.{script_refusal_line};
ghost use Rattle.tx_call.specs.Replay.{Replays, opened, turns_from, status_after};
ghost use Rattle.tx_call.specs.Scripts.{ForScript, NamesNoScript, HoldsNoScript};
ghost use Rattle.tx_call.specs.Trouble.{EditCauses, AllCauses, Does};
ghost use Rattle.tx_words.specs.Words.{IsOfFiles, IsServing, IsWithin, script_asked, dvi_asked, words_meant, texts};
ghost use Rattle.tx_words.specs.declared.given.Asked.TheVariants.{Run, Nothing};

use crate::fetching::fetch_files;
use crate::lines::{
    gen_help_text, help_text, list_help_text, run_help_text, script_refusal_line, serve_help_text,
    version_line,
};
use crate::list::{fetch_dvi, say_pages};
use crate::listed::Listed;
use crate::listing::dvi_refusal_line;
use crate::made::put_made;
use crate::outputs::{save_document, say, say_run};
use crate::replay::replay;
use crate::scripted::Scripted;
use crate::scripts::fetch_script;
use crate::trouble::{Interruption, Trouble};
use std::alloc::Global;
use tx_dvitype::DviRule;
use tx_files::{FileSet, Name};
use tx_gen::make;
use tx_io::{Sink, Source};
use tx_machine::{End, Machine, Steps};
use tx_script::{Command, Rule};
use tx_session::Session;
use tx_words::given::{Asked, Given, Serving};
use tx_words::words::read_words;

/// The status after all commands or requests: 1 where the last run ended otherwise than by the end of its text, else 5 where an edit
/// went past the end of its file, else 0.
pub fn status_after(end: &End, outside: bool) -> u8
    ensures status { result ≡ status_after end.now outside }
    ensures range { (result < 2) ⊎ (result ≡ 5) }
{
    match end {
        End::End if outside => 5,
        End::End => 0,
        End::Error { .. } | End::Budget | End::PageLimit => 1,
    }
}

/// Says how a document came out that was opened, carries out the commands, saves what there is then, and answers the
/// status.
fn run_session<M: Machine, K: Sink>(
    alloc: Global,
    out: &Name,
    commands: &[Command],
    session: &mut Session<M>,
    sink: &mut K,
    steps: &mut Steps,
) -> Result<u8, Interruption>
    ensures puts { Replays (session_outcome M.formatter out.now session.old commands.now).pieces (session_outcome M.formatter out.now session.old commands.now).refusal result (K.output sink.old) (K.output sink.new) }
    ensures status { IfOk result (λ status. status ≡ (session_outcome M.formatter out.now session.old commands.now).status) }
    ensures range { IfOk result (λ status. (status < 2) ⊎ (status ≡ 5)) }
    ensures counted { OnOk result (steps.new ≡ raised steps.old (turns_from M.formatter (opened session.old) commands.now)) }
    ensures most { steps.new ≤ raised steps.old (turns_from M.formatter (opened session.old) commands.now) }
    ensures causes { EditCauses result (K.faults sink.old) (K.faults sink.new) }
{
    say_run::<M, Session<M>, K>(alloc, session, sink)?;
    let tally = replay(alloc, out, commands, session, sink, steps)?;
    save_document::<M, Session<M>, K>(alloc, out, session, sink)?;
    Ok(status_after(session.end(), tally.outside))
}

/// Runs the main file on these files, carries out the commands, puts out what came of it, and answers the status.
fn run_files<M: Machine + Drop, K: Sink>(
    alloc: Global,
    machine: M,
    given: &Given,
    files: FileSet,
    commands: &[Command],
    sink: &mut K,
    steps: &mut Steps,
) -> Result<u8, Interruption>
    requires { IsWithin given.now }
    ensures does { Does result (run_outcome M.formatter given.now files commands.now) (K.output sink.old) (K.output sink.new) steps.old steps.new }
    ensures range { IfOk result (λ status. (status < 2) ⊎ (status ≡ 5)) }
    ensures causes { EditCauses result (K.faults sink.old) (K.faults sink.new) }
{
    let main = given.main.clone()?;
    let mut session = Session::open(alloc, machine, files, main, given.date, given.limits, steps)?;
    run_session(alloc, &given.out, commands, &mut session, sink, steps)
}

/// Fetches the files, runs the main one, carries out the commands, puts out what came of it, and answers the status.
fn run_script<M: Machine + Drop, S: Source, K: Sink>(
    alloc: Global,
    machine: M,
    given: &Given,
    commands: &[Command],
    source: &mut S,
    sink: &mut K,
    steps: &mut Steps,
) -> Result<u8, Interruption>
    requires { IsWithin given.now }
    ensures does { ForHeld (S.holds source.old) (λ held. Does result (run_outcome M.formatter given.now (with_listed held empty given.now.files) commands.now) (K.output sink.old) (K.output sink.new) steps.old steps.new) }
    ensures range { IfOk result (λ status. (status < 2) ⊎ (status ≡ 5)) }
    ensures silent { IsErrOf result (Interruption.Trouble Trouble.Source) → (K.output sink.new ≡ K.output sink.old) × (steps.new ≡ steps.old) }
    ensures causes { AllCauses result (S.faults source.old) (S.faults source.new) (K.faults sink.old) (K.faults sink.new) }
    ensures holds { S.holds source.new ≡ S.holds source.old }
{
    let files = fetch_files(alloc, given.files.as_slice(), source)?;
    run_files(alloc, machine, given, files, commands, sink, steps)
}

/// Says the one text of a call that runs nothing, and answers the status.
fn say_only<K: Sink>(sink: &mut K, text: &[u8], status: u8) -> Result<u8, Interruption>
    ensures does { (steps : ℕ) → Does result (saying text.now status) (K.output sink.old) (K.output sink.new) steps steps }
    ensures status { IfOk result (λ answer. answer ≡ status) }
    ensures causes { EditCauses result (K.faults sink.old) (K.faults sink.new) }
{
    say(sink, text)?;
    Ok(status)
}

/// Says that a script is refused, and answers the status.
fn refuse_script<K: Sink>(
    alloc: Global,
    place: u64,
    rule: Rule,
    sink: &mut K,
) -> Result<u8, Interruption>
    ensures does { (steps : ℕ) → Does result (saying (script_refusal_line place rule) 2) (K.output sink.old) (K.output sink.new) steps steps }
    ensures status { IfOk result (λ status. status ≡ 2) }
    ensures causes { EditCauses result (K.faults sink.old) (K.faults sink.new) }
{
    let line = script_refusal_line(alloc, place, rule)?;
    say_only(sink, line.as_slice(), 2)
}

/// Fetches the script and reads it, and where it is one, fetches the files, runs the main one, carries out the commands
/// and puts out what came of it. Answers the status.
pub fn run_given<M: Machine + Drop, S: Source, K: Sink>(
    alloc: Global,
    machine: M,
    given: &Given,
    source: &mut S,
    sink: &mut K,
    steps: &mut Steps,
) -> Result<u8, Interruption>
    requires { IsWithin given.now }
    ensures does { ForScript (S.holds source.old) given.now.script (λ scripted. ForHeld (S.holds source.old) (λ held. Does result (asked_outcome M.formatter (Run given.now) scripted held) (K.output sink.old) (K.output sink.new) steps.old steps.new)) }
    ensures range { IfOk result (λ status. (status ≤ 2) ⊎ (status ≡ 5)) }
    ensures refused { IfOk result (λ status. status ≡ 2 → NamesNoScript (S.holds source.old) given.now.script) }
    ensures refuses { HoldsNoScript (S.holds source.old) given.now.script → IfOk result (λ status. status ≡ 2) }
    ensures silent { IsErrOf result (Interruption.Trouble Trouble.Source) → (K.output sink.new ≡ K.output sink.old) × (steps.new ≡ steps.old) }
    ensures causes { AllCauses result (S.faults source.old) (S.faults source.new) (K.faults sink.old) (K.faults sink.new) }
    ensures holds { S.holds source.new ≡ S.holds source.old }
{
    match fetch_script(alloc, &given.script, source)? {
        Scripted::Plays(script) => run_script(
            alloc,
            machine,
            given,
            script.as_slice(),
            source,
            sink,
            steps,
        ),
        Scripted::Refused { place, rule } => refuse_script(alloc, place, rule, sink),
    }
}

/// Runs the main file of a document that is to be served, and says how it came out.
fn open_unasked<M: Machine + Drop, K: Sink>(
    alloc: Global,
    machine: M,
    serving: &Serving,
    files: FileSet,
    sink: &mut K,
    steps: &mut Steps,
) -> Result<u8, Interruption>
    requires { IsServing serving.now }
    ensures does { Does result (unasked_outcome M.formatter serving.now files) (K.output sink.old) (K.output sink.new) steps.old steps.new }
    ensures range { IfOk result (λ status. (status < 2) ⊎ (status ≡ 5)) }
    ensures causes { EditCauses result (K.faults sink.old) (K.faults sink.new) }
{
    let main = serving.main.clone()?;
    let session = Session::open(
        alloc,
        machine,
        files,
        main,
        serving.date,
        serving.limits,
        steps,
    )?;
    say_run::<M, Session<M>, K>(alloc, &session, sink)?;
    Ok(status_after(session.end(), false))
}

/// Fetches the files of a document that is to be served, runs the main one, and says how it came out: no request comes in. Answers
/// the status.
fn run_unasked<M: Machine + Drop, S: Source, K: Sink>(
    alloc: Global,
    machine: M,
    serving: &Serving,
    source: &mut S,
    sink: &mut K,
    steps: &mut Steps,
) -> Result<u8, Interruption>
    requires { IsServing serving.now }
    ensures does { ForHeld (S.holds source.old) (λ held. Does result (unasked_outcome M.formatter serving.now (with_listed held empty serving.now.files)) (K.output sink.old) (K.output sink.new) steps.old steps.new) }
    ensures range { IfOk result (λ status. (status < 2) ⊎ (status ≡ 5)) }
    ensures silent { IsErrOf result (Interruption.Trouble Trouble.Source) → (K.output sink.new ≡ K.output sink.old) × (steps.new ≡ steps.old) }
    ensures causes { AllCauses result (S.faults source.old) (S.faults source.new) (K.faults sink.old) (K.faults sink.new) }
    ensures holds { S.holds source.new ≡ S.holds source.old }
{
    let files = fetch_files(alloc, serving.files.as_slice(), source)?;
    open_unasked(alloc, machine, serving, files, sink, steps)
}

/// Makes a document of so many pages from a seed, saves its files, says how large it is, and answers the status.
fn run_gen<K: Sink>(alloc: Global, seed: u32, pages: u32, sink: &mut K) -> Result<u8, Interruption>
    ensures does { (steps : ℕ) → Does result (making seed pages) (K.output sink.old) (K.output sink.new) steps steps }
    ensures status { IfOk result (λ status. status ≡ 0) }
    ensures causes { EditCauses result (K.faults sink.old) (K.faults sink.new) }
{
    let made = make(alloc, seed, pages)?;
    put_made(alloc, &made, pages, sink)?;
    Ok(0)
}

/// Says that a DVI file is refused, and answers the status.
fn refuse_dvi<K: Sink>(
    alloc: Global,
    place: u64,
    rule: DviRule,
    sink: &mut K,
) -> Result<u8, Interruption>
    ensures does { (steps : ℕ) → Does result (saying (dvi_refusal_line place rule) 2) (K.output sink.old) (K.output sink.new) steps steps }
    ensures status { IfOk result (λ status. status ≡ 2) }
    ensures causes { EditCauses result (K.faults sink.old) (K.faults sink.new) }
{
    let line = dvi_refusal_line(alloc, place, rule)?;
    say_only(sink, line.as_slice(), 2)
}

/// Fetches the file of this name, and says what it brings as a DVI file, or that it is refused. Answers the status.
fn list_file<S: Source, K: Sink>(
    alloc: Global,
    name: &Name,
    source: &mut S,
    sink: &mut K,
) -> Result<u8, Interruption>
    ensures does { (steps : ℕ) → ForHeld (S.holds source.old) (λ held. Does result (listing (listed_as (content held name.now))) (K.output sink.old) (K.output sink.new) steps steps) }
    ensures range { IfOk result (λ status. (status ≤ 2) ⊎ (status ≡ 5)) }
    ensures refused { IfOk result (λ status. status ≡ 2 → NamesNoDvi (S.holds source.old) (Some name.now)) }
    ensures refuses { HoldsNoDvi (S.holds source.old) (Some name.now) → IfOk result (λ status. status ≡ 2) }
    ensures silent { IsErrOf result (Interruption.Trouble Trouble.Source) → K.output sink.new ≡ K.output sink.old }
    ensures causes { AllCauses result (S.faults source.old) (S.faults source.new) (K.faults sink.old) (K.faults sink.new) }
    ensures holds { S.holds source.new ≡ S.holds source.old }
{
    match fetch_dvi(alloc, name, source)? {
        Listed::Brings(pages) => say_pages(alloc, pages.as_slice(), sink),
        Listed::Stops { place, rule } => refuse_dvi(alloc, place, rule, sink),
    }
}

/// Does what the words ask, and answers the status.
pub fn run_words<M: Machine + Drop, S: Source, K: Sink>(
    alloc: Global,
    machine: M,
    words: &[String],
    source: &mut S,
    sink: &mut K,
    steps: &mut Steps,
) -> Result<u8, Interruption>
    ensures does { ForScript (S.holds source.old) (script_asked (words_meant (texts words.now))) (λ scripted. ForHeld (S.holds source.old) (λ held. Does result (outcome M.formatter (texts words.now) scripted held) (K.output sink.old) (K.output sink.new) steps.old steps.new)) }
    ensures range { IfOk result (λ status. (status ≤ 2) ⊎ (status ≡ 5)) }
    ensures refused { IfOk result (λ status. status ≡ 2 → (words_meant (texts words.now) ≡ Nothing) ⊎ (NamesNoScript (S.holds source.old) (script_asked (words_meant (texts words.now))) ⊎ NamesNoDvi (S.holds source.old) (dvi_asked (words_meant (texts words.now))))) }
    ensures refuses { words_meant (texts words.now) ≡ Nothing → IfOk result (λ status. status ≡ 2) }
    ensures refuses_script { HoldsNoScript (S.holds source.old) (script_asked (words_meant (texts words.now))) → IfOk result (λ status. status ≡ 2) }
    ensures refuses_dvi { HoldsNoDvi (S.holds source.old) (dvi_asked (words_meant (texts words.now))) → IfOk result (λ status. status ≡ 2) }
    ensures fetched { IsErrOf result (Interruption.Trouble Trouble.Source) → IsOfFiles (words_meant (texts words.now)) }
    ensures silent { IsErrOf result (Interruption.Trouble Trouble.Source) → (K.output sink.new ≡ K.output sink.old) × (steps.new ≡ steps.old) }
    ensures causes { AllCauses result (S.faults source.old) (S.faults source.new) (K.faults sink.old) (K.faults sink.new) }
    ensures holds { S.holds source.new ≡ S.holds source.old }
{
    match read_words(alloc, words)? {
        Asked::Run(given) => run_given(alloc, machine, &given, source, sink, steps),
        Asked::Serve(serving) => run_unasked(alloc, machine, &serving, source, sink, steps),
        Asked::Gen { seed, pages } => run_gen(alloc, seed, pages, sink),
        Asked::Listing(name) => list_file(alloc, &name, source, sink),
        Asked::Help => say_only(sink, help_text(), 0),
        Asked::RunHelp => say_only(sink, run_help_text(), 0),
        Asked::GenHelp => say_only(sink, gen_help_text(), 0),
        Asked::ListHelp => say_only(sink, list_help_text(), 0),
        Asked::ServeHelp => say_only(sink, serve_help_text(), 0),
        Asked::Version => say_only(sink, version_line(), 0),
        Asked::Nothing => say_only(sink, b"words refused\n", 2),
    }
}
