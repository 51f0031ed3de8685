// Why a project isn't loaded, and the refusals of the steps as such.
ghost use Rattle.std.specs.Prelude.{◌≡◌};
ghost use Rattle.script_loader.specs.Refusals.{Tells, line_refusal, lexical_answer, grammatical};
ghost use Rattle.sml_lex.specs.Lexed.{refusal_of};

use project_lines::{LineFault, ProjectRefusal};
use sml_lex::LexRefusal;
use sml_parse::ParseRefusal;
use sml_syntax::{Lack, NoMemory, Text};
use std::alloc::{AllocFailed, Global};

/// Why a project isn't loaded: the file that is named, and the place in it. The place is a line's number, from 1, in the
/// first two, 0 where a file or a script as a whole is refused, and else the number of bytes before it.
#[derive(Debug, Drop, PartialEq, Eq)]
pub enum LoadRefusal {
    /// A line of the project file says nothing that may stand there.
    ProjectLine { file: Text, place: u64 },
    /// The path of a script stands in an earlier line.
    TwoPaths { file: Text, place: u64 },
    /// The databases that were handed in aren't those of the project. `page` answers it, and the loader never does.
    DatabaseNames { file: Text, place: u64 },
    /// The project file and its files have more than 1,048,576 bytes together. It names the project file.
    TooLarge { file: Text, place: u64 },
    /// A file isn't there, or couldn't be read.
    FileFault { file: Text, place: u64 },
    BadByte { file: Text, place: u64 },
    OpenComment { file: Text, place: u64 },
    OpenString { file: Text, place: u64 },
    OpenQuote { file: Text, place: u64 },
    WideNumber { file: Text, place: u64 },
    /// A form that the language lacks.
    Unsupported { file: Text, place: u64, lack: Lack },
    /// The tokens up to the place begin a program, and those after it don't go on with it.
    Unexpected { file: Text, place: u64 },
    /// An item that is higher than 200.
    TooDeep { file: Text, place: u64 },
    /// A name, a type name or a type variable that nothing binds.
    Unbound { file: Text, place: u64 },
    /// An item that has no typing.
    Ill { file: Text, place: u64 },
    /// A script that needs too many instances, or too large types. No step answers it yet.
    InstanceLimit { file: Text, place: u64 },
    /// A script whose code might be too long. No step answers it yet.
    CodeFull { file: Text, place: u64 },
    NoMemory,
}

impl From<NoMemory> for LoadRefusal {
    ghost use Rattle.script_loader.specs.declared.refusal.LoadRefusal.TheVariants as refusal;

    ghost from_gives = { λ _ e. e ≡ refusal.NoMemory };

    fn from(_: NoMemory) -> LoadRefusal {
        LoadRefusal::NoMemory
    }
}

impl<T: Drop> From<AllocFailed<T>> for LoadRefusal {
    ghost use Rattle.script_loader.specs.declared.refusal.LoadRefusal.TheVariants as refusal;

    ghost from_gives = { λ _ e. e ≡ refusal.NoMemory };

    fn from(_: AllocFailed<T>) -> LoadRefusal {
        LoadRefusal::NoMemory
    }
}

pub(crate) fn too_large(alloc: Global, project: &Text) -> LoadRefusal
    ensures { Tells result (LoadRefusal.TooLarge project.now 0) }
{
    match project.try_copy(alloc) {
        Ok(file) => LoadRefusal::TooLarge { file, place: 0 },
        Err(_) => LoadRefusal::NoMemory,
    }
}

pub(crate) fn file_fault(alloc: Global, name: &Text) -> LoadRefusal
    ensures { Tells result (LoadRefusal.FileFault name.now 0) }
{
    match name.try_copy(alloc) {
        Ok(file) => LoadRefusal::FileFault { file, place: 0 },
        Err(_) => LoadRefusal::NoMemory,
    }
}

/// The refusal of a project file's lines.
pub(crate) fn line_refusal(alloc: Global, project: &Text, refusal: ProjectRefusal) -> LoadRefusal
    ensures { Tells result (line_refusal project.now refusal) }
{
    match project.try_copy(alloc) {
        Ok(file) => named_line(file, refusal),
        Err(_) => LoadRefusal::NoMemory,
    }
}

fn named_line(file: Text, refusal: ProjectRefusal) -> LoadRefusal
    ensures { result ≡ line_refusal file refusal }
{
    match refusal {
        ProjectRefusal::Line(place, LineFault::ProjectLine) => {
            LoadRefusal::ProjectLine { file, place }
        }
        ProjectRefusal::Line(place, LineFault::TwoPaths) => LoadRefusal::TwoPaths { file, place },
        ProjectRefusal::NoMemory => LoadRefusal::NoMemory,
    }
}

/// The lexer's refusal of a file.
pub(crate) fn lexical_refusal(alloc: Global, name: &Text, refusal: LexRefusal) -> LoadRefusal
    ensures { Tells result (lexical_answer name.now (refusal_of refusal)) }
{
    match name.try_copy(alloc) {
        Ok(file) => named_lexical(file, refusal),
        Err(_) => LoadRefusal::NoMemory,
    }
}

fn named_lexical(file: Text, refusal: LexRefusal) -> LoadRefusal
    ensures { result ≡ lexical_answer file (refusal_of refusal) }
{
    match refusal {
        LexRefusal::BadByte(place) => LoadRefusal::BadByte { file, place },
        LexRefusal::OpenComment(place) => LoadRefusal::OpenComment { file, place },
        LexRefusal::OpenString(place) => LoadRefusal::OpenString { file, place },
        LexRefusal::OpenQuote(place) => LoadRefusal::OpenQuote { file, place },
        LexRefusal::WideNumber(place) => LoadRefusal::WideNumber { file, place },
        LexRefusal::Unsupported(place, lack) => LoadRefusal::Unsupported { file, place, lack },
        LexRefusal::NoMemory => LoadRefusal::NoMemory,
    }
}

/// The parser's refusal of a file whose text starts at `start` in the whole.
pub(crate) fn grammatical_refusal(
    alloc: Global,
    name: &Text,
    start: u64,
    refusal: ParseRefusal,
) -> LoadRefusal
    ensures { Tells result (grammatical name.now start refusal) }
{
    match name.try_copy(alloc) {
        Ok(file) => named_grammatical(file, start, refusal),
        Err(_) => LoadRefusal::NoMemory,
    }
}

fn named_grammatical(file: Text, start: u64, refusal: ParseRefusal) -> LoadRefusal
    ensures { result ≡ grammatical file start refusal }
{
    match refusal {
        ParseRefusal::Unexpected(n) => LoadRefusal::Unexpected {
            file,
            place: n.saturating_sub(start),
        },
        ParseRefusal::Unsupported(n, lack) => LoadRefusal::Unsupported {
            file,
            place: n.saturating_sub(start),
            lack,
        },
        ParseRefusal::TooDeep(n) => LoadRefusal::TooDeep {
            file,
            place: n.saturating_sub(start),
        },
        ParseRefusal::NoMemory => LoadRefusal::NoMemory,
    }
}
