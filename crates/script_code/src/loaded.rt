// A project's code.
ghost use Rattle.std.specs.Prelude.{◌≡◌, ◌≤◌};

use crate::refusal::CodeRefusal;
use crate::scripts::script_code;
use kam_code::Code;
use outside_world::Files;
use project_lines::Project;
use script_loader::{LoadedFront, load_front};
use sml_syntax::{Listed, Text};
use std::alloc::Global;

/// How the regions of a script's code were found.
#[derive(Clone, Copy, Debug, PartialEq, Eq)]
pub enum Regions {
    /// All values lie in the global region, which ends with the request.
    Global,
}

/// A script, ready to be run.
#[derive(Drop)]
pub struct LoadedScript {
    /// The path of requests.
    pub path: Text,
    /// The name of the script's file.
    pub file: Text,
    pub code: Code,
    pub regions: Regions,
}

/// A project, ready to be run.
#[derive(Drop)]
pub struct Loaded {
    /// In the order of their lines; their paths differ.
    pub scripts: Listed<LoadedScript>,
    /// The names of the databases.
    pub databases: Listed<Text>,
    /// The greatest charge of a request.
    pub budget: u64,
    /// The pages of all requests together.
    pub pages: u64,
}

/// Reads a project and its files, and gives the code of its scripts. The front of all scripts comes before the code of any; then
/// each script is specialised, given regions and compiled before the next one. The first refusal is answered.
pub fn load<F: Files>(alloc: Global, files: &mut F, project: &Text) -> Result<Loaded, CodeRefusal>
    ensures same { F.contents files.new ≡ F.contents files.old }
    ensures count { F.file_count files.old ≤ F.file_count files.new }
    ensures keeps { F.kept files.new ≡ F.kept files.old }
{
    let front = load_front(alloc, files, project)?;
    loaded_code(alloc, front)
}

/// The code of a project whose front is known.
pub fn loaded_code(alloc: Global, front: LoadedFront) -> Result<Loaded, CodeRefusal> {
    let LoadedFront { project, scripts } = front;
    let mut loaded = Vec::new(alloc);
    for script in scripts.into_vec() {
        loaded.push(script_code(alloc, script)?)?;
    }
    let Project {
        databases,
        budget,
        pages,
        ..
    } = project;
    Ok(Loaded {
        scripts: Listed::of(loaded),
        databases,
        budget,
        pages,
    })
}
