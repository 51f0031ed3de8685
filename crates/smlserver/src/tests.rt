// Each adapter over what a system may do, which no proof covers.
use crate::clock::RealClock;
use crate::files::RealFiles;
use crate::streams::{StreamSink, StreamSource};
use crate::usage::print_text;
use crate::{REFUSED, explain_refusal, run_command};
use outside_world::{Clock, FileRefusal, Files, Sink, Source, WriteRefusal};
use sml_syntax::Text;
use std::io::Write;
use std::test::Fail;
use std::{env, fs, io};

// A project is read under its own name, a file of it in its folder, and each fault is counted.
#[test]
fn reads_files(rt: HostRuntime) -> Result<(), Fail> {
    let alloc = rt.alloc();
    let folder = env::temp_dir(&rt)?;
    let project = folder.join(alloc, "smlserver_test_site")?;
    let script = folder.join(alloc, "smlserver_test_script")?;
    fs::write(&rt, project.as_str(), "smlserver 1\n")?;
    fs::write(&rt, script.as_str(), "val _ = 1")?;
    let mut files = RealFiles::make(&rt, alloc, project.as_str());
    let name = Text::from_bytes(alloc, project.as_str().as_bytes())?;
    let text = files.read_file(&name, 12)?;
    assert_eq!(rt; text.as_bytes(), b"smlserver 1\n".as_slice());
    let name = Text::from_bytes(alloc, b"smlserver_test_script")?;
    let text = files.read_file(&name, 4096)?;
    assert_eq!(rt; text.as_bytes(), b"val _ = 1".as_slice());
    assert!(rt; matches!(files.read_file(&name, 8), Err(FileRefusal::Long)));
    assert_eq!(rt; files.file_faults(), 0);
    fs::remove_file(&rt, project.as_str())?;
    fs::remove_file(&rt, script.as_str())?;
    assert!(rt; matches!(files.read_file(&name, 4096), Err(FileRefusal::Failed)));
    assert_eq!(rt; files.file_faults(), 1);
    Ok(())
}

#[test]
fn reads_a_stream(rt: HostRuntime) -> Result<(), Fail> {
    let mut input = StreamSource::make(rt.alloc(), b"abc".as_slice())?;
    let mut piece = [0; 2];
    assert_eq!(rt; input.read(&mut piece), Ok(2));
    assert_eq!(rt; piece.as_slice(), b"ab".as_slice());
    assert_eq!(rt; input.read(&mut piece), Ok(1));
    assert_eq!(rt; piece[0], b'c');
    assert_eq!(rt; input.read(&mut piece), Ok(0));
    assert_eq!(rt; input.read_faults(), 0);
    Ok(())
}

// A writer that takes so many bytes and then fails.
#[derive(Drop)]
struct Narrow<'a> {
    taken: &'a mut Vec<u8>,
    room: usize,
}

impl Write for Narrow<'_> {
    fn write(&mut self, bytes: &[u8]) -> io::Result<usize> {
        let n = bytes.len().min(self.room);
        if n == 0 {
            return Err(io::Error::from(io::ErrorKind::StorageFull));
        }
        self.taken.extend_from_slice(&bytes[..n])?;
        self.room -= n;
        Ok(n)
    }

    fn flush(&mut self) -> io::Result<()> {
        Ok(())
    }
}

fn with_room(taken: &mut Vec<u8>, room: usize) -> Narrow<'_> {
    Narrow { taken, room }
}

// What was held back is written at the end, and a piece as long as the buffer at once. The count and the
// status say where that fails.
#[test]
fn writes_a_stream(rt: HostRuntime) -> Result<(), Fail> {
    let alloc = rt.alloc();
    for (room, status, held) in [(3, 0, "abc"), (2, 4, "ab")] {
        let mut taken = Vec::new(alloc);
        let mut output = StreamSink::make(alloc, with_room(&mut taken, room))?;
        assert_eq!(rt; print_text(&mut output, "abc"), 0);
        assert_eq!(rt; output.finish(0), status);
        assert_eq!(rt; output.write_faults(), u64::from(status / 4));
        drop(output);
        assert_eq!(rt; taken.as_slice(), held.as_bytes());
    }
    let mut taken = Vec::new(alloc);
    let mut output = StreamSink::make(alloc, with_room(&mut taken, 0))?;
    assert_eq!(rt; output.write(&[b'a'; 8192]), Err(WriteRefusal::Failed));
    assert_eq!(rt; output.write_faults(), 1);
    Ok(())
}

#[test]
fn reads_the_clock(rt: HostRuntime) {
    let mut clock = RealClock::make(&rt);
    let first = clock.now();
    // the first second of the year 2024
    assert!(rt; first >= 1_704_067_200);
    assert!(rt; clock.now() >= first);
}

// A refused project: its line, and what is said of it. The script's file lies beside the project's.
#[test]
fn explains_a_refusal(rt: HostRuntime) -> Result<(), Fail> {
    let alloc = rt.alloc();
    let folder = env::temp_dir(&rt)?;
    let project = folder.join(alloc, "smlserver_test_refused")?;
    let script = folder.join(alloc, "smlserver_test_refused.sml")?;
    fs::write(
        &rt,
        project.as_str(),
        "smlserver 1\nscript /a smlserver_test_refused.sml\n",
    )?;
    fs::write(&rt, script.as_str(), "val x = 1\n\tval y = x + z\n")?;
    let words = ["check", project.as_str()];
    let mut taken = Vec::new(alloc);
    let mut said = Vec::new(alloc);
    let mut output = StreamSink::make(alloc, with_room(&mut taken, 100))?;
    let status = run_command(&rt, &words, &mut output, Vec::new(alloc))?;
    assert_eq!(rt; output.finish(status), REFUSED);
    explain_refusal(&rt, &words, &output, with_room(&mut said, 1000))?;
    drop(output);
    fs::remove_file(&rt, project.as_str())?;
    fs::remove_file(&rt, script.as_str())?;
    assert_eq!(rt;
        taken.as_slice(),
        b"refused smlserver_test_refused.sml 23 Unbound\n".as_slice()
    );
    assert_eq!(rt;
        said.as_slice(),
        b"smlserver_test_refused.sml:2:14: nothing binds this name; mend its spelling or declare it above (a script sees the prelude and all libraries, and no other script)\n\tval y = x + z\n\t            ^\n".as_slice()
    );
    Ok(())
}
