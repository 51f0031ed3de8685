//! The program: reads the words, makes the outside as it is, and ends with the status that the commands answer.
#![tactic(auto)]

ghost use Rattle.std.specs.Prelude.{◌≡◌};

mod clock;
mod databases;
mod files;
#[cfg(test)]
mod guest_book;
mod streams;
#[cfg(test)]
mod tests;
mod usage;

use clock::RealClock;
use db_keeper::{Keeper, MapKeeper};
use db_sqlite::SqliteKeeper;
use files::RealFiles;
use sml_syntax::{NoMemory, Text};
use smlserver_top::{explain, run_words};
use std::alloc::Global;
use std::io::{ErrorKind, Print, Write};
use std::process::ExitCode;
use std::rt::{Env, Runtime};
use std::{env, io};
use streams::{StreamSink, StreamSource};
use usage::{USAGE, VERSION, print_text};

/// The status where a project is refused.
const REFUSED: u8 = 3;

/// The status where memory is wanting.
const NO_MEMORY: u8 = 7;

/// The files of the databases that the words name. No word names one yet.
const DATABASE_FILES: [&str; 0] = [];

fn main(rt: HostRuntime) -> ExitCode {
    ExitCode::from(answer(&rt, &DATABASE_FILES).unwrap_or(NO_MEMORY))
}

// The status, with a keeper for each file of a database: one in memory for `:memory:`, and else one over the file,
// which fails where that can't be opened.
fn answer(rt: &HostRuntime, files: &[&str]) -> Result<u8, NoMemory> {
    let alloc = rt.alloc();
    let mut keepers: Vec<Box<dyn Keeper + Send>> = Vec::new(alloc);
    for file in files {
        if *file == ":memory:" {
            keepers.push(Box::new(alloc, MapKeeper::make(alloc, &[])?)?)?;
        } else {
            let keeper = SqliteKeeper::adopt(alloc, databases::open(rt, file)?)?;
            keepers.push(Box::new(alloc, keeper)?)?;
        }
    }
    answer_args(rt, keepers, rt.stderr())
}

// The status for the words that the program was started with.
fn answer_args<E: Write + Drop>(
    rt: &(impl Runtime + AllocGlobal),
    keepers: Vec<Box<dyn Keeper + Send>>,
    errors: E,
) -> Result<u8, NoMemory> {
    let args = read_args(rt)?;
    let mut words = Vec::new(rt.alloc());
    for arg in &args {
        words.push(arg.as_str())?;
    }
    let mut output = StreamSink::make(rt.alloc(), io::writer(rt))?;
    let status = match words.as_slice() {
        [word] if *word == "--help" => print_text(&mut output, USAGE),
        [word] if *word == "--version" => print_text(&mut output, VERSION),
        words => run_command(rt, words, &mut output, keepers)?,
    };
    let status = output.finish(status);
    if status == REFUSED {
        explain_refusal(rt, words.as_slice(), &output, errors).unwrap_or(());
    }
    Ok(status)
}

// Says what the line of a refusal means. What can't be read or written then is left out.
fn explain_refusal<R: Runtime + AllocGlobal, W: Write + Drop, E: Write + Drop>(
    rt: &R,
    words: &[&str],
    output: &StreamSink<W>,
    mut errors: E,
) -> Result<(), NoMemory> {
    let Some(line) = output.whole_output() else {
        return Ok(());
    };
    let name = project_of(words);
    let mut files = RealFiles::make(rt, rt.alloc(), name);
    let project = Text::from_bytes(rt.alloc(), name.as_bytes())?;
    let text = explain(rt.alloc(), &mut files, &project, line)?;
    errors.write_all(text.as_bytes()).unwrap_or(());
    Ok(())
}

// The name of the project's file. Each command that reads files has it second.
fn project_of<'a>(words: &[&'a str]) -> &'a str {
    words.get(1).copied().unwrap_or("")
}

// The words after the program's name. Where one is no text there are none, so that they are of no command.
fn read_args(rt: &(impl Env + AllocGlobal)) -> Result<Vec<String>, NoMemory> {
    match env::args(rt) {
        Ok(args) => Ok(args.skip(1).collect(rt.alloc())?),
        Err(error) if error.kind() == ErrorKind::OutOfMemory => Err(NoMemory),
        Err(_) => Ok(Vec::new(rt.alloc())),
    }
}

// Runs a command over the files, the input and the clock of the system. No command asks a keeper yet.
fn run_command<R: Runtime + AllocGlobal, W: Write + Drop>(
    rt: &R,
    words: &[&str],
    output: &mut StreamSink<W>,
    _keepers: Vec<Box<dyn Keeper + Send>>,
) -> Result<u8, NoMemory> {
    let mut files = RealFiles::make(rt, rt.alloc(), project_of(words));
    let mut input = StreamSource::make(rt.alloc(), rt.reader())?;
    let mut clock = RealClock::make(rt);
    Ok(run_words(
        rt.alloc(),
        words,
        &mut files,
        &mut input,
        output,
        &mut clock,
    ))
}
