//! Runs the worked cases in the files that the words of its command line name, and prints how many there are in each, or those
//! that come out otherwise: in the folder `calls` calls with documents, in any other what no document shows. Where no file is
//! named, it answers the lines of the standard input as cases of libraries, for checks from outside, as tools/check-tfm.
#![tactic(auto)]

mod calls;

use crate::calls::Calls;
use library_cases::run;
use std::io;

fn main(rt: HostRuntime) -> io::Result<()> {
    run(&rt, &mut Calls)
}
