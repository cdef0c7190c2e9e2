//! The call that serves a document.
ghost use Rattle.std.specs.Prelude.{◌≡◌, ◌≢◌, ◌<◌, ◌≤◌, ◌⊎◌, ◌∷◌, []};
ghost use Rattle.tx_io.specs.Cut.{IsCutShort};
ghost use Rattle.tx_io.specs.Faults.{Rose};
ghost use Rattle.tx_io.specs.Output.{Say, told};
ghost use Rattle.tx_main.specs.Turns.{tex};
ghost use Rattle.tx_call.specs.Lines.{refusal_line};
ghost use Rattle.tx_call.specs.Outcome.{ForHeld};
ghost use Rattle.tx_call.specs.Serving.{AsksForNone, AsksToServe, ForServing, ServeLeaves, serving_held};
ghost use Rattle.tx_words.specs.Words.{words_meant, texts};

use std::alloc::Global;
use tx_call::{Break, Trouble, serve_words};
use tx_io::{Inlet, Sink, Source};
use tx_machine::Steps;
use tx_main::Tex;

/// Serves a document: fetches the files that the words list, makes the run, says its line, and then answers the requests that come in,
/// one after the other, to their end. Each answer is put out before the next request is read. Answers the status, which is that of a
/// run with a script of the same edits.
///
/// | Status | Comes |
/// |---|---|
/// | 0, 1 | all that came in was answered, and the last run ended by the end of its text, or otherwise |
/// | 2 | the words don't ask to serve a document; nothing was run |
/// | 3 | the source failed, and nothing was taken in, run or said; or the inlet failed, and all that was taken in whole is answered |
/// | 4 | the sink failed |
/// | 5 | all that came in was answered, the last run ended by the end of its text, and an edit went past the end of its file |
/// | 6 | there was no memory left for what comes in, or to answer it |
pub fn serve<S: Source, I: Inlet, K: Sink>(
    alloc: Global,
    words: &[String],
    source: &mut S,
    inlet: &mut I,
    sink: &mut K,
    steps: &mut Steps,
) -> u8
    // Whatever comes in, it is read as requests in the one way that there is, and the answers to them, in their order, are those of
    // fresh runs on the listed files, as edited by then; whatever the status, nothing else is put out.
    ensures leaves { ForServing (words_meant (texts words.now)) (λ serving. ForHeld (S.holds source.old) (λ held. ServeLeaves tex (serving_held serving held) (S.faults source.old) (S.faults source.new) (I.left inlet.old) (I.left inlet.new) result (K.output sink.old) (K.output sink.new) steps.old steps.new)) }

    // Words that ask for something else are refused, and nothing is run.
    ensures says { AsksForNone (words_meant (texts words.now)) → IsCutShort (K.output sink.old) (Say refusal_line ∷ []) (K.output sink.new) × (steps.new ≡ steps.old) }

    ensures status { result ≤ 6 }
    ensures refused { result ≡ 2 → AsksForNone (words_meant (texts words.now)) × (K.output sink.new ≡ told (K.output sink.old) (Say refusal_line ∷ [])) }
    ensures refuses { AsksForNone (words_meant (texts words.now)) → (result ≡ 2) ⊎ ((result ≡ 4) ⊎ (result ≡ 6)) }
    ensures fault { result ≡ 3 → Rose (S.faults source.old) (S.faults source.new) ⊎ Rose (I.faults inlet.old) (I.faults inlet.new) }
    ensures fetched { result ≡ 3 → AsksToServe (words_meant (texts words.now)) }
    ensures source_kept { result ≢ 3 → S.faults source.new ≡ S.faults source.old }
    ensures inlet_kept { result ≢ 3 → I.faults inlet.new ≡ I.faults inlet.old }
    ensures sink_fault { result ≡ 4 → Rose (K.faults sink.old) (K.faults sink.new) }
    ensures sink_kept { result ≢ 4 → K.faults sink.new ≡ K.faults sink.old }
    ensures silent { S.faults source.new ≢ S.faults source.old → (K.output sink.new ≡ K.output sink.old) × (steps.new ≡ steps.old) }

    // Where no fault came, all is answered unless memory was wanting.
    ensures complete { (Rose (S.faults source.old) (S.faults source.new) → ⊥) → (Rose (I.faults inlet.old) (I.faults inlet.new) → ⊥) → (Rose (K.faults sink.old) (K.faults sink.new) → ⊥) → (result < 3) ⊎ ((result ≡ 5) ⊎ (result ≡ 6)) }
    ensures holds { S.holds source.new ≡ S.holds source.old }
{
    match serve_words(alloc, Tex, words, source, inlet, sink, steps) {
        Ok(status) => status,
        Err(Break::Inlet) => 3,
        Err(Break::Trouble(Trouble::Source)) => 3,
        Err(Break::Trouble(Trouble::Sink)) => 4,
        Err(Break::Trouble(Trouble::Memory)) => 6,
    }
}
