//! Running the cases of texts.
use std::{env, fs, io};

/// What answers cases.
pub trait Answers {
    /// Writes what becomes of what is given in a case into an empty text. An error ends the program.
    fn answer(&mut self, rt: &HostRuntime, text: &mut String, given: &str) -> io::Result<()>;
}

/// How many cases there were, and how many of them came out otherwise or were no cases.
#[derive(Drop)]
struct Tally {
    cases: u64,
    others: u64,
}

/// Runs the cases of each file that a word of the command line names: `calls` answers those in the folder of this name, `others`
/// all else. Where there is no word, `others` answers each line of the standard input.
pub fn run_files<C: Answers, O: Answers>(
    rt: &HostRuntime,
    calls: &mut C,
    others: &mut O,
) -> io::Result<()> {
    let names = words(rt)?;
    if names.is_empty() {
        return answer_lines(rt, others);
    }
    run_each(rt, names.as_slice(), calls, others)
}

fn run_each<C: Answers, O: Answers>(
    rt: &HostRuntime,
    names: &[String],
    calls: &mut C,
    others: &mut O,
) -> io::Result<()> {
    for name in names {
        let name = name.as_str();
        if name.starts_with("calls/") {
            run_file(rt, name, calls)?;
        } else {
            run_file(rt, name, others)?;
        }
    }
    Ok(())
}

/// The words of the command line behind the program's name.
fn words(rt: &HostRuntime) -> io::Result<Vec<String>> {
    Ok(env::args(rt)?.skip(1).collect(rt.alloc())?)
}

/// Answers what each line of the standard input gives.
fn answer_lines<A: Answers>(rt: &HostRuntime, program: &mut A) -> io::Result<()> {
    for line in rt.lines(rt.alloc()) {
        answer_line(rt, line?.as_str(), program)?;
    }
    Ok(())
}

fn answer_line<A: Answers>(rt: &HostRuntime, line: &str, program: &mut A) -> io::Result<()> {
    let mut answer = String::new(rt.alloc());
    program.answer(rt, &mut answer, line)?;
    println!(rt; "{answer}")
}

/// Runs the cases of one file.
fn run_file<A: Answers>(rt: &HostRuntime, name: &str, program: &mut A) -> io::Result<()> {
    let text = fs::read_to_string(rt, name)?;
    run_text(rt, name, text.as_str(), program)
}

/// Runs the cases of one text, and says how many there were.
fn run_text<A: Answers>(
    rt: &HostRuntime,
    name: &str,
    text: &str,
    program: &mut A,
) -> io::Result<()> {
    let mut tally = Tally {
        cases: 0,
        others: 0,
    };
    for (number, block) in text.split("\n== ").enumerate() {
        if number != 0 {
            run_block(rt, block, program, &mut tally)?;
        } else if !block.starts_with("##") {
            println!(rt; "{name} begins without ##")?;
        }
    }
    let (cases, others) = (tally.cases, tally.others);
    match others {
        0 => println!(rt; "{name}: {cases} cases"),
        _ => println!(rt; "{name}: {cases} cases, {others} otherwise"),
    }
}

/// Runs the cases of a block.
fn run_block<A: Answers>(
    rt: &HostRuntime,
    block: &str,
    program: &mut A,
    tally: &mut Tally,
) -> io::Result<()> {
    match block.split_once("\n--\n") {
        Some((front, expected)) => {
            let (name, given) = front.split_once('\n').unwrap_or((front, ""));
            run_case(rt, name, given, expected, program, tally)
        }
        None => {
            let (name, lines) = block.split_once('\n').unwrap_or((block, ""));
            run_lines(rt, name, lines, program, tally)
        }
    }
}

/// Runs the cases of a block with a case a line.
fn run_lines<A: Answers>(
    rt: &HostRuntime,
    name: &str,
    lines: &str,
    program: &mut A,
    tally: &mut Tally,
) -> io::Result<()> {
    for line in lines.split('\n') {
        if line.is_empty() || line.starts_with("##") {
            continue;
        }
        match line.split_once(" =>") {
            Some((given, expected)) => {
                let expected = expected.strip_prefix(' ').unwrap_or(expected);
                run_case(rt, name, given, expected, program, tally)?;
            }
            None => {
                tally.others = tally.others.saturating_add(1);
                println!(rt; "{name}: no case in {line}")?;
            }
        }
    }
    Ok(())
}

/// Runs one case.
fn run_case<A: Answers>(
    rt: &HostRuntime,
    name: &str,
    given: &str,
    expected: &str,
    program: &mut A,
    tally: &mut Tally,
) -> io::Result<()> {
    let mut found = String::new(rt.alloc());
    program.answer(rt, &mut found, given)?;
    compare(rt, name, given, expected, found.as_str(), tally)
}

/// Counts a case; where it was answered otherwise, shows it. Line feeds at the end of a text don't count.
fn compare(
    rt: &HostRuntime,
    name: &str,
    given: &str,
    expected: &str,
    found: &str,
    tally: &mut Tally,
) -> io::Result<()> {
    tally.cases = tally.cases.saturating_add(1);
    let found = found.trim_end_matches('\n');
    let expected = expected.trim_end_matches('\n');
    if found == expected {
        return Ok(());
    }
    tally.others = tally.others.saturating_add(1);
    println!(rt; "== {name}\n{given}\n-- is expected to give\n{expected}\n-- but gives\n{found}")
}
