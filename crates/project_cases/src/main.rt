//! Answers cases of projects over files in memory: their lines, what loading them answers, runs by words, and what is said
//! to people of refusals. docs/TESTING.md tells their lines.
#![tactic(auto)]

mod loads;
mod projects;

use case_lines::{Cases, Words, bytes_of, numbers_of, parts_of, quoted_of, run_files, show_text};
use loads::show_load;
use outside_world::{MemClock, MemFiles, MemSink, MemSource};
use projects::show_project;
use sml_syntax::{NoMemory, Text};
use smlserver_top::{explain, run_words};
use std::alloc::{AllocError, Global};
use std::io;

/// The files that earlier lines put.
#[derive(Drop)]
struct MemProjects {
    files: Vec<(Text, Text)>,
}

impl MemProjects {
    // Puts a file in place of one with the same name.
    fn put(&mut self, name: Vec<u8>, text: Vec<u8>) -> Result<(), NoMemory> {
        let name = Text::from_vec(name);
        self.files.retain(|file| file.0 != name);
        self.files.push((name, Text::from_vec(text)))?;
        Ok(())
    }

    // The files, of which the reads with these numbers fail.
    fn files(&self, alloc: Global, reads: &str) -> Result<MemFiles, NoMemory> {
        let reads = numbers_of(alloc, reads)?;
        let mut files = MemFiles::make(alloc, reads.as_slice())?;
        for (name, text) in &self.files {
            files.put_file(name, text)?;
        }
        Ok(files)
    }

    // The status of a run by words, and its output.
    fn run(&self, alloc: Global, words: &mut Words, out: &mut String) -> Result<(), NoMemory> {
        let mut files = self.files(alloc, words.next())?;
        let writes = numbers_of(alloc, words.next())?;
        let mut texts = Vec::new(alloc);
        for word in words.rest().split(' ') {
            if let Some(text) = word.strip_prefix('\'') {
                texts.push(text)?;
            }
        }
        let mut input = MemSource::make(alloc, &[], &[])?;
        let mut output = MemSink::make(alloc, writes.as_slice())?;
        let mut clock = MemClock::make(alloc, &[])?;
        let status = run_words(
            alloc,
            texts.as_slice(),
            &mut files,
            &mut input,
            &mut output,
            &mut clock,
        );
        write!(out, "{status} ")?;
        show_text(out, output.written(), b'\\')?;
        Ok(())
    }

    // What is said of the line of a refusal, where the project's name is `my site`.
    fn explain(&self, alloc: Global, words: &mut Words, out: &mut String) -> Result<(), NoMemory> {
        let mut files = self.files(alloc, words.next())?;
        let line = bytes_of(alloc, words.rest())?;
        let name = Text::from_bytes(alloc, b"my site")?;
        let text = explain(alloc, &mut files, &name, line.as_slice())?;
        show_text(out, text.as_bytes(), b'\\')?;
        Ok(())
    }

    // Whether the refusal of that name has a sentence of its own.
    fn has_sentence(&self, alloc: Global, name: &str, out: &mut String) -> Result<(), NoMemory> {
        let mut files = self.files(alloc, "")?;
        let mut line = Vec::from_slice(alloc, b"refused a.sml 0 ")?;
        line.extend_from_slice(name.as_bytes())?;
        line.push(b'\n')?;
        let project = Text::from_bytes(alloc, b"my site")?;
        let text = explain(alloc, &mut files, &project, line.as_slice())?;
        write!(
            out,
            "{}",
            !text.as_bytes().ends_with(b": this is refused\n")
        )?;
        Ok(())
    }

    fn answer_line(&mut self, alloc: Global, line: &str, out: &mut String) -> Result<(), NoMemory> {
        let mut words = Words::of(line);
        let word = words.next();
        match word {
            "files" => {
                self.files.clear();
                Ok(out.push_str(word)?)
            }
            "file" => {
                let name = quoted_of(alloc, words.next())?;
                self.put(name, bytes_of(alloc, words.rest())?)?;
                Ok(out.push_str(word)?)
            }
            "file_parts" => {
                let name = quoted_of(alloc, words.next())?;
                self.put(name, parts_of(alloc, words.rest())?)?;
                Ok(out.push_str(word)?)
            }
            "project" => {
                let text = bytes_of(alloc, words.rest())?;
                show_project(alloc, text.as_slice(), out)
            }
            "load" => {
                let mut files = self.files(alloc, words.next())?;
                show_load(alloc, &mut files, out)
            }
            "run" => self.run(alloc, &mut words, out),
            "has_sentence" => self.has_sentence(alloc, words.rest(), out),
            "explain" => self.explain(alloc, &mut words, out),
            _ => Ok(out.push_str("no such line")?),
        }
    }
}

impl Cases for MemProjects {
    fn answer(&mut self, alloc: Global, line: &str, out: &mut String) -> Result<(), AllocError> {
        match self.answer_line(alloc, line, out) {
            Ok(()) => Ok(()),
            Err(NoMemory) => Err(AllocError),
        }
    }
}

fn main(rt: HostRuntime) -> io::Result<()> {
    let mut projects = MemProjects {
        files: Vec::new(rt.alloc()),
    };
    run_files(&rt, &mut projects)
}
