// Files of cases, from the first line to the last.
use std::alloc::{AllocError, Global};
use std::rt::Runtime;
use std::{env, fs, io};

/// What answers lines. It may keep what earlier lines left.
pub trait Cases {
    /// Writes the answer of a line, which is no comment, without an end of line.
    fn answer(&mut self, alloc: Global, line: &str, out: &mut String) -> Result<(), AllocError>;
}

// The answers of a text, a line each.
fn answers<C: Cases>(alloc: Global, cases: &mut C, text: &str) -> Result<String, AllocError> {
    let mut out = String::new(alloc);
    for line in text.lines() {
        if !line.is_empty() && !line.starts_with('#') {
            cases.answer(alloc, line, &mut out)?;
            out.push('\n')?;
        }
    }
    Ok(out)
}

/// Answers the cases of each file that the program's words name, behind a line with the file's name.
pub fn run_files<C: Cases>(rt: &(impl Runtime + AllocGlobal), cases: &mut C) -> io::Result<()> {
    let mut names = env::args(rt)?;
    let _ = names.next();
    for name in names {
        let text = fs::read_to_string(rt, name.as_str())?;
        let out = answers(rt.alloc(), cases, text.as_str())?;
        println!(rt; "# {name}")?;
        rt.print(out)?;
    }
    Ok(())
}
