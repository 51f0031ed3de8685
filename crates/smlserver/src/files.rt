// The files of the system, by the names that a project gives them.
ghost use Rattle.std.specs.Prelude.{◌≡◌, ◌<◌, ◌≤◌, None, length, IfOk, IfSome, IsErrOf, IsTrue, IsFalse};
ghost use Rattle.std.specs.Path.{path_bytes, path_buf_bytes, path_join};

use outside_world::{FileRefusal, Files};
use sml_syntax::Text;
use std::alloc::{AllocError, Global};
use std::io::{ErrorKind, Read};
use std::path::{Path, PathBuf};
use std::{fs, str};

/// The files of the system. The first name that is read is the project's own and is taken as it stands; each
/// later one is a name in the project and lies in the project's folder. So a file of the project may have the
/// same name as the project had among the words.
#[derive(Drop)]
pub struct RealFiles<'a, R> {
    rt: &'a R,
    alloc: Global,
    folder: Path<'a>,
    is_project_read: bool,
    faults: u64,
}

impl<'a, R: std::rt::Files> RealFiles<'a, R> {
    pub fn make(rt: &'a R, alloc: Global, project: &'a str) -> RealFiles<'a, R>
        ensures first { IsFalse result.is_project_read }
        ensures count { result.faults ≡ 0 }
    {
        RealFiles {
            rt,
            alloc,
            folder: Path::new(project).parent().unwrap_or(Path::new("")),
            is_project_read: false,
            faults: 0,
        }
    }

    // Where the system has the file of that name.
    fn path_of(&self, name: &str) -> Result<PathBuf, AllocError>
        ensures project { IsFalse self.now.is_project_read → IfOk result (λ p. path_buf_bytes p ≡ name.now) }
        ensures later { IsTrue self.now.is_project_read → IfOk result (λ p. path_buf_bytes p ≡ path_join (path_bytes self.now.folder) name.now) }
    {
        if self.is_project_read {
            self.folder.join(self.alloc, name)
        } else {
            PathBuf::from_str(self.alloc, name)
        }
    }

    fn read_named(&self, name: &Text, most: u64) -> Result<Text, FileRefusal>
        ensures within { IfOk result (λ t. length t ≤ most) }
        ensures absent { ¬ IsErrOf result FileRefusal.Absent }
    {
        let Ok(name) = str::from_utf8(name.as_bytes()) else {
            return Err(FileRefusal::Failed);
        };
        let Ok(path) = self.path_of(name) else {
            return Err(FileRefusal::NoMemory);
        };
        match fs::open(self.rt, path) {
            Ok(file) => read_within(self.alloc, file, most),
            Err(_) => Err(FileRefusal::Failed),
        }
    }
}

// All that a reader has left, unless it is more than so many bytes.
fn read_within<F: Read + Drop>(alloc: Global, file: F, most: u64) -> Result<Text, FileRefusal>
    ensures within { IfOk result (λ t. length t ≤ most) }
    ensures whole { IfOk result (λ t. IfSome (F.remaining file) (λ bytes. t ≡ bytes)) }
    ensures long { IsErrOf result FileRefusal.Long → IfSome (F.remaining file) (λ bytes. most < length bytes) }
    ensures absent { ¬ IsErrOf result FileRefusal.Absent }
{
    let mut bytes = Vec::new(alloc);
    match file.take(most.saturating_add(1)).read_to_end(&mut bytes) {
        Ok(_) if bytes.len() as u64 > most => Err(FileRefusal::Long),
        Ok(_) => Ok(Text::from_vec(bytes)),
        Err(error) if error.kind() == ErrorKind::OutOfMemory => Err(FileRefusal::NoMemory),
        Err(_) => Err(FileRefusal::Failed),
    }
}

impl<R: std::rt::Files> Files for RealFiles<'_, R> {
    ghost contents = { λ _. None };

    ghost file_count = { λ f. f.faults };

    ghost Kept = { Unit {0} };

    ghost kept = { λ _. tt };

    fn read_file(&mut self, name: &Text, most: u64) -> Result<Text, FileRefusal> {
        let result = self.read_named(name, most);
        self.is_project_read = true;
        if let Err(FileRefusal::Failed) = result {
            self.faults = self.faults.saturating_add(1);
        }
        result
    }

    fn file_faults(&self) -> u64 {
        self.faults
    }
}
