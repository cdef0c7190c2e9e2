//! A document is served: what comes on standard input is answered on standard output.
use std::alloc::{AllocError, Global};
use std::io::{BufRead, BufReader};
use std::rt::Files;
use tx_causes::causes::{one, unread_cause};
use tx_causes::serving::{answer_cause, input_cause, served_cause, wanting_causes};
use tx_causes::telling::{Line, tell, tell_all};
use tx_io::{DirSink, DirSource, FilesRead, StdInlet};
use tx_machine::CountsTurns;
use tx_words::given::Asked;
use tx_words::words::read_words;
use vortex_cmd::serve::serve;

/// Whether these words ask to serve a document.
pub fn asks_to_serve(alloc: Global, words: &[String]) -> Result<bool, AllocError> {
    match read_words(alloc, words)? {
        Asked::Serve(_) => Ok(true),
        _ => Ok(false),
    }
}

/// Why a call that served a document ended with this status, in lines; none where all went well.
fn causes<R: Files + Print, B: BufRead>(
    alloc: Global,
    status: u8,
    source: &DirSource<'_, R>,
    inlet: &StdInlet<B>,
    sink: &DirSink<'_, R>,
) -> Result<Vec<Line>, AllocError> {
    match status {
        0 => Ok(Vec::new(alloc)),
        1 | 5 => one(alloc, served_cause(alloc, status == 1)?),
        3 => match inlet.cause() {
            Some(error) => one(alloc, input_cause(alloc, error)?),
            None => unread_cause(alloc, source),
        },
        4 => one(alloc, answer_cause(alloc, sink)?),
        _ => wanting_causes(alloc, source, sink),
    }
}

/// Serves the document that the words ask for, whose files may lie along a search path, and answers the status.
pub fn served(rt: &HostRuntime, alloc: Global, words: &[String], path: &str) -> u8 {
    let Ok(reader) = BufReader::new(alloc, rt.reader()) else {
        tell(rt, alloc, "no memory is left to read standard input");
        return 6;
    };
    let read = FilesRead::new(alloc);
    let mut source = DirSource::along(rt, path, &read);
    let mut sink = DirSink::passing(rt, alloc, &read);
    let mut inlet = StdInlet::new(reader);
    let mut steps = rt.steps();
    let status = serve(alloc, words, &mut source, &mut inlet, &mut sink, &mut steps);
    tell_all(rt, alloc, causes(alloc, status, &source, &inlet, &sink));
    status
}
