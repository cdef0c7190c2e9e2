//! The program `vortex`: it hands the words of the command line, the current folder, with the search path behind it, and standard
//! output to the top call of `vortex_cmd`, which does all the rest, or, where the words ask to serve a document, these and standard
//! input to the one that does so; and it ends with the answer as status. Where not all went well it then tells why on standard
//! error, by what was said and by a second look at the words, the files and the faults of the folder.
//!
//! Read `arguments`, then `look`, the second look, of which `tx_causes` makes words, and `serving`.
#![tactic(auto)]

mod arguments;
mod look;
mod serving;

use arguments::{are_text, arguments, search_path};
use look::causes;
use serving::{asks_to_serve, served};
use std::io::IsTerminal;
use std::process::ExitCode;
use tx_causes::around::Around;
use tx_causes::telling::{tell, tell_all};
use tx_io::{DirSink, DirSource, FilesRead};
use tx_machine::CountsTurns;
use vortex_cmd::vortex::vortex;

fn main(rt: HostRuntime) -> ExitCode {
    let alloc = rt.alloc();
    let Ok(words) = arguments(&rt) else {
        tell(&rt, alloc, "no memory is left to read the command line");
        return ExitCode::from(6);
    };
    let words = words.as_slice();
    let Ok(path) = search_path(&rt) else {
        tell(&rt, alloc, "no memory is left to read VORTEX_PATH");
        return ExitCode::from(6);
    };
    let path = path.as_str();
    match asks_to_serve(alloc, words) {
        Ok(true) => return ExitCode::from(served(&rt, alloc, words, path)),
        Ok(false) => {}
        Err(_) => {
            tell(&rt, alloc, "no memory is left to read the command line");
            return ExitCode::from(6);
        }
    }
    let read = FilesRead::new(alloc);
    let mut source = DirSource::along(&rt, path, &read);
    let mut sink = DirSink::new(&rt, alloc, &read);
    let mut steps = rt.steps();
    let status = vortex(alloc, words, &mut source, &mut sink, &mut steps);
    if are_text(&rt, words) {
        let around = Around {
            rt: &rt,
            path,
            is_terminal: rt.stderr().is_terminal(),
        };
        tell_all(
            &rt,
            alloc,
            causes(alloc, status, words, &around, &source, &sink, &read),
        );
    } else {
        tell(&rt, alloc, "a word of the command line isn't UTF-8");
    }
    ExitCode::from(status)
}
