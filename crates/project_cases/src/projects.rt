// Project files, and the line that is refused.
use case_lines::show_text;
use project_lines::{LineFault, Project, ProjectFile, ProjectRefusal, read_project};
use sml_syntax::NoMemory;
use std::alloc::Global;

// Words with `|` between them.
pub(crate) fn show_words(out: &mut String, words: &[&[u8]]) -> Result<(), NoMemory> {
    for (number, word) in words.iter().enumerate() {
        if 0 < number {
            out.push('|')?;
        }
        show_text(out, word, b' ')?;
    }
    Ok(())
}

fn show_project_lines(out: &mut String, project: &Project) -> Result<(), NoMemory> {
    for file in project.files.as_slice() {
        match file {
            ProjectFile::Library(name) => show_words(out, &[b"lib", name.as_bytes()])?,
            ProjectFile::Script(path, name) => {
                show_words(out, &[b"script", path.as_bytes(), name.as_bytes()])?;
            }
        }
        out.push(' ')?;
    }
    for name in project.databases.as_slice() {
        show_words(out, &[b"database", name.as_bytes()])?;
        out.push(' ')?;
    }
    write!(out, "limits|{}|{}", project.budget, project.pages)?;
    Ok(())
}

/// The libraries, scripts, databases and limits of a project file, or the refusal and its line.
pub(crate) fn show_project(alloc: Global, text: &[u8], out: &mut String) -> Result<(), NoMemory> {
    match read_project(alloc, text) {
        Ok(project) => show_project_lines(out, &project)?,
        Err(ProjectRefusal::Line(number, LineFault::ProjectLine)) => {
            write!(out, "ProjectLine|{number}")?
        }
        Err(ProjectRefusal::Line(number, LineFault::TwoPaths)) => write!(out, "TwoPaths|{number}")?,
        Err(ProjectRefusal::NoMemory) => return Err(NoMemory),
    }
    Ok(())
}
