//! The top call.
ghost use Rattle.std.specs.Prelude.{◌≡◌, ◌≢◌, ◌+◌, ◌<◌, ◌≤◌, ◌⊎◌};
ghost use Rattle.tx_io.specs.Faults.{Rose};
ghost use Rattle.tx_main.specs.Turns.{tex};
ghost use Rattle.tx_call.specs.Outcome.{outcome, most_turns, ForHeld, Leaves};
ghost use Rattle.tx_words.specs.declared.given.Asked.TheVariants.{Nothing};
ghost use Rattle.tx_call.specs.Listing.{NamesNoDvi, HoldsNoDvi};
ghost use Rattle.tx_call.specs.Scripts.{ForScript, NamesNoScript, HoldsNoScript};
ghost use Rattle.tx_words.specs.Words.{IsOfFiles, script_asked, dvi_asked, words_meant, texts};

use std::alloc::Global;
use tx_call::{Interruption, Trouble, run_words};
use tx_io::{Sink, Source};
use tx_machine::Steps;
use tx_main::Tex;

/// All that the program does: reads the words behind its name, fetches the script and the files that they list, makes the
/// run, says its line, carries out the script's commands, and saves the pages and the transcript as they are then; or makes
/// a document, saves it with its font and a script, and says how large it is; or fetches a DVI file and says what its pages
/// bring; or says the help, the version, or that the words, the script or the DVI file are refused. Answers the status.
///
/// | Status | Comes |
/// |---|---|
/// | 0, 1 | all was done, and the last run ended by the end of its text, or otherwise; 0 also where nothing is to be run |
/// | 2 | the words aren't those of a call, or the script or the DVI file isn't one; nothing was run |
/// | 3 | the source failed, and the words name files; nothing was run or said |
/// | 4 | the sink failed |
/// | 5 | all was done, the last run ended by the end of its text, and an edit went past the end of its file |
/// | 6 | there was no memory left; also where the sink then failed while an edit was told of for which there was none |
pub fn vortex<S: Source, K: Sink>(
    alloc: Global,
    words: &[String],
    source: &mut S,
    sink: &mut K,
    steps: &mut Steps,
) -> u8
    // After any edits, made or refused, the pages, the transcript and the lines are those of the fresh run on the listed
    // files, so edited; whatever the status, nothing else is put out; and where the sink failed, the status is 4, unless
    // memory refused an edit and that was to be told and saved. That is never one change alone that goes past the end of its
    // file: its line says so.
    ensures leaves { ForScript (S.holds source.old) (script_asked (words_meant (texts words.now))) (λ scripted. ForHeld (S.holds source.old) (λ held. Leaves (outcome tex (texts words.now) scripted held) result (K.output sink.old) (K.output sink.new) (K.faults sink.old) (K.faults sink.new) steps.old steps.new)) }

    ensures status { result ≤ 6 }
    ensures refused { result ≡ 2 → (words_meant (texts words.now) ≡ Nothing) ⊎ (NamesNoScript (S.holds source.old) (script_asked (words_meant (texts words.now))) ⊎ NamesNoDvi (S.holds source.old) (dvi_asked (words_meant (texts words.now)))) }
    ensures refuses { words_meant (texts words.now) ≡ Nothing → (result ≡ 2) ⊎ ((result ≡ 4) ⊎ (result ≡ 6)) }
    ensures refuses_script { HoldsNoScript (S.holds source.old) (script_asked (words_meant (texts words.now))) → (result ≡ 2) ⊎ ((result ≡ 3) ⊎ ((result ≡ 4) ⊎ (result ≡ 6))) }
    ensures refuses_dvi { HoldsNoDvi (S.holds source.old) (dvi_asked (words_meant (texts words.now))) → (result ≡ 2) ⊎ ((result ≡ 3) ⊎ ((result ≡ 4) ⊎ (result ≡ 6))) }
    ensures source_fault { result ≡ 3 → Rose (S.faults source.old) (S.faults source.new) }
    ensures fetched { result ≡ 3 → IsOfFiles (words_meant (texts words.now)) }
    ensures source_kept { result ≢ 3 → S.faults source.new ≡ S.faults source.old }
    ensures sink_fault { result ≡ 4 → Rose (K.faults sink.old) (K.faults sink.new) }

    // At 6 it is kept too, unless memory refused an edit, as is said above: a fault may come while that is told.
    ensures sink_kept { (result ≢ 4) × (result ≢ 6) → K.faults sink.new ≡ K.faults sink.old }
    ensures silent { result ≡ 3 → (K.output sink.new ≡ K.output sink.old) × (steps.new ≡ steps.old) }

    // Where no fault came, all is done unless memory was wanting.
    ensures complete { (Rose (S.faults source.old) (S.faults source.new) → ⊥) → (Rose (K.faults sink.old) (K.faults sink.new) → ⊥) → (result < 3) ⊎ ((result ≡ 5) ⊎ (result ≡ 6)) }
    ensures holds { S.holds source.new ≡ S.holds source.old }
    ensures bound { ForScript (S.holds source.old) (script_asked (words_meant (texts words.now))) (λ scripted. steps.new ≤ steps.old + most_turns (words_meant (texts words.now)) scripted) }
{
    match run_words(alloc, Tex, words, source, sink, steps) {
        Ok(status) => status,
        Err(Interruption::Trouble(Trouble::Source)) => 3,
        Err(Interruption::Trouble(Trouble::Sink)) => 4,
        Err(Interruption::Trouble(Trouble::Memory)) => 6,
        Err(Interruption::RefusedEdit) => 6,
    }
}
