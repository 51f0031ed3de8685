// A project, as its file has it.
ghost use Rattle.std.specs.Prelude.{◌≡◌, ◌++◌, ℕ, IfOk, IfErr, OnOk};
ghost use Rattle.project_lines.specs.ProjectFile.{file_in, database_in, budget_in, pages_in, project_of, IsProject, IsFirstBadLine};
ghost use Rattle.project_lines.specs.declared.project.Project.{Project as ProjectSeen};
ghost use Rattle.project_lines.specs.declared.project.LineFault.{LineFault as FaultSeen};
ghost use Rattle.project_lines.specs.Refused.{AreGood, TakesLine, IsLineRefusal, IsRefusedAs, IsLinesRefusal, GivesProject, GivesRefusal};

use crate::line::{Line, read_line};
use crate::lines::{first_line, is_skipped};
use crate::order::{may_follow, repeats_path};
use sml_syntax::{Listed, NoMemory, Text};
use std::alloc::{AllocFailed, Global};

/// A file that a project names.
#[derive(Debug, Drop, PartialEq, Eq)]
pub enum ProjectFile {
    Library(Text),
    /// The path of requests, and the file of the script.
    Script(Text, Text),
}

/// What a project file says.
#[derive(Debug, Drop, PartialEq, Eq)]
pub struct Project {
    /// Libraries and scripts, in the order of their lines.
    pub files: Listed<ProjectFile>,
    /// The names of the databases.
    pub databases: Listed<Text>,
    /// The greatest charge of a request.
    pub budget: u64,
    /// The pages of all requests together.
    pub pages: u64,
}

/// What is wrong with a line of a project file.
#[derive(Clone, Copy, Debug, PartialEq, Eq)]
pub enum LineFault {
    /// It says nothing that may stand there.
    ProjectLine,
    /// Its path stands in an earlier line.
    TwoPaths,
}

/// Why a text is no project.
#[derive(Clone, Copy, Debug, PartialEq, Eq)]
pub enum ProjectRefusal {
    /// The number of the first bad line, from 1.
    Line(u64, LineFault),
    NoMemory,
}

impl From<NoMemory> for ProjectRefusal {
    ghost use Rattle.project_lines.specs.declared.project.ProjectRefusal.TheVariants as refusal;

    ghost from_gives = { λ _ e. e ≡ refusal.NoMemory };

    fn from(_: NoMemory) -> ProjectRefusal {
        ProjectRefusal::NoMemory
    }
}

impl<T: Drop> From<AllocFailed<T>> for ProjectRefusal {
    ghost use Rattle.project_lines.specs.declared.project.ProjectRefusal.TheVariants as refusal;

    ghost from_gives = { λ _ e. e ≡ refusal.NoMemory };

    fn from(_: AllocFailed<T>) -> ProjectRefusal {
        ProjectRefusal::NoMemory
    }
}

// Adds what a line says, unless it is skipped.
#[tactic(auto, using(crate::proofs::Taking::says_nothing, crate::proofs::Taking::no_place, crate::proofs::Taking::path_twice, crate::proofs::Taking::skips_line, crate::proofs::Taking::adds_line))]
fn take_line(
    alloc: Global,
    lines: &mut Vec<Line>,
    text: &[u8],
    number: u64,
) -> Result<(), ProjectRefusal>
    ensures ok { OnOk result (TakesLine lines.old.items text.now lines.new.items) }
    ensures refused { IfErr result (IsLineRefusal lines.old.items text.now number) }
{
    if is_skipped(text) {
        return Ok(());
    }
    let Some(line) = read_line(alloc, text)? else {
        return Err(ProjectRefusal::Line(number, LineFault::ProjectLine));
    };
    if !may_follow(lines, &line) {
        return Err(ProjectRefusal::Line(number, LineFault::ProjectLine));
    }
    if repeats_path(lines, &line) {
        return Err(ProjectRefusal::Line(number, LineFault::TwoPaths));
    }
    lines.push(line)?;
    Ok(())
}

// What the lines of a text say, where each may stand where it does.
#[tactic(auto, using(crate::proofs::Taking::none_taken, crate::proofs::Taking::taken_more, crate::proofs::Taking::all_taken, crate::proofs::Taking::line_refused))]
fn read_lines(alloc: Global, text: &[u8]) -> Result<Vec<Line>, ProjectRefusal>
    ensures ok { IfOk result (λ lines. AreGood text.now lines.items) }
    ensures refused { IfErr result (IsLinesRefusal text.now) }
{
    let mut lines = Vec::new(alloc);
    let mut rest = text;
    let mut number = 0;
    while !rest.is_empty() {
        let (line, more) = first_line(rest);
        number += 1;
        take_line(alloc, &mut lines, line, number)?;
        rest = more;
    }
    Ok(lines)
}

// A project that is being put together.
#[derive(Drop)]
struct Draft {
    files: Vec<ProjectFile>,
    databases: Vec<Text>,
    budget: u64,
    pages: u64,
}

impl Draft {
    // Adds what a line says.
    #[tactic(auto, using(crate::proofs::Summaries::none_more))]
    fn add(&mut self, line: Line) -> Result<(), NoMemory>
        ensures files { OnOk result (self.new.files.items ≡ self.old.files.items ++ file_in line) }
        ensures databases { OnOk result (self.new.databases.items ≡ self.old.databases.items ++ database_in line) }
        ensures budget { OnOk result (self.new.budget ≡ budget_in self.old.budget line) }
        ensures pages { OnOk result (self.new.pages ≡ pages_in self.old.pages line) }
    {
        match line {
            Line::Header => (),
            Line::Library(file) => self.files.push(ProjectFile::Library(file))?,
            Line::Script(path, file) => self.files.push(ProjectFile::Script(path, file))?,
            Line::Database(name) => self.databases.push(name)?,
            Line::Budget(n) => self.budget = n,
            Line::Pages(n) => self.pages = n,
        }
        Ok(())
    }
}

// The project that lines make.
#[tactic(auto, using(crate::proofs::Summaries::files_more, crate::proofs::Summaries::databases_more, crate::proofs::Summaries::budget_more, crate::proofs::Summaries::pages_more))]
fn project_of(alloc: Global, lines: Vec<Line>) -> Result<Project, NoMemory>
    ensures { IfOk result (λ project. project ≡ project_of lines.items) }
{
    let mut draft = Draft {
        files: Vec::new(alloc),
        databases: Vec::new(alloc),
        budget: 50_000_000,
        pages: 16_384,
    };
    for line in lines {
        draft.add(line)?;
    }
    let Draft {
        files,
        databases,
        budget,
        pages,
    } = draft;
    Ok(Project {
        files: Listed::of(files),
        databases: Listed::of(databases),
        budget,
        pages,
    })
}

/// The project of a text. After a refusal nothing is held back.
#[tactic(auto, using(crate::proofs::Exact::gives_refusal))]
pub fn read_project(alloc: Global, text: &[u8]) -> Result<Project, ProjectRefusal>
    ensures project { IfOk result (IsProject text.now) }
    ensures refused { IfErr result (IsRefusedAs text.now) }

    // Each comes wherever it may, unless memory is wanting.
    ensures project_where { (project : ProjectSeen) → IsProject text.now project → GivesProject result project }
    ensures refused_where { (number : ℕ) → (fault : FaultSeen) → IsFirstBadLine text.now number fault → GivesRefusal result number fault }
{
    find_project(alloc, text)
}

#[tactic(auto, using(crate::proofs::Taking::is_empty, crate::proofs::Taking::is_refused))]
fn find_project(alloc: Global, text: &[u8]) -> Result<Project, ProjectRefusal>
    ensures project { IfOk result (IsProject text.now) }
    ensures refused { IfErr result (IsRefusedAs text.now) }
{
    let lines = read_lines(alloc, text)?;
    if lines.is_empty() {
        return Err(ProjectRefusal::Line(1, LineFault::ProjectLine));
    }
    Ok(project_of(alloc, lines)?)
}
