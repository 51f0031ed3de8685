// Objects of the outside in memory, each through its trait.
use outside_world::{
    Clock, Failed, FileRefusal, Files, MemClock, MemFiles, MemSink, MemSource, Sink, Source,
    SureFiles, SureSink, SureSource, WriteRefusal, write_all,
};
use sml_syntax::Text;
use std::process::Abort;
use std::test::Fail;

// Reads "abc" to its end, by two bytes.
fn check_source<S: Source>(rt: &impl Abort, source: &mut S) -> Result<(), Fail> {
    let mut piece = [0; 2];
    for want in [b"ab".as_slice(), b"c".as_slice(), b"".as_slice()] {
        let n = source.read(&mut piece)?;
        assert_eq!(rt; &piece[..n], want);
    }
    Ok(())
}

#[test]
fn sources_give_their_bytes(rt: HostRuntime) -> Result<(), Fail> {
    check_source(&rt, &mut SureSource::make(rt.alloc(), b"abc")?)?;
    let mut source = MemSource::make(rt.alloc(), b"abc", &[3])?;
    check_source(&rt, &mut source)?;
    assert_eq!(rt; source.read_faults(), 0);
    let mut piece = [0; 2];
    assert_eq!(rt; source.read(&mut piece), Err(Failed));
    assert_eq!(rt; source.read_faults(), 1);
    Ok(())
}

fn check_sink<K: Sink>(rt: &impl Abort, sink: &mut K) -> Result<(), Fail> {
    write_all(sink, b"ab")?;
    assert_eq!(rt; sink.write(b"c")?, 1);
    Ok(())
}

#[test]
fn sinks_hold_what_is_written(rt: HostRuntime) -> Result<(), Fail> {
    let mut sink = SureSink::make(rt.alloc())?;
    check_sink(&rt, &mut sink)?;
    assert_eq!(rt; sink.written(), b"abc".as_slice());
    let mut sink = MemSink::make(rt.alloc(), &[2])?;
    check_sink(&rt, &mut sink)?;
    assert_eq!(rt; sink.write_faults(), 0);
    assert_eq!(rt; sink.write(b"d"), Err(WriteRefusal::Failed));
    assert_eq!(rt; sink.write_faults(), 1);
    assert_eq!(rt; sink.written(), b"abc".as_slice());
    Ok(())
}

// Reads the file `name`, of which the text is "abc".
fn check_files<F: Files>(
    rt: &(impl Abort + AllocGlobal),
    files: &mut F,
    name: &Text,
) -> Result<(), Fail> {
    assert_eq!(rt; files.read_file(name, 3)?.as_bytes(), b"abc".as_slice());
    match files.read_file(name, 2) {
        Err(FileRefusal::Long) => Ok(()),
        _ => Err("not too long")?,
    }
}

#[test]
fn files_hold_what_was_put(rt: HostRuntime) -> Result<(), Fail> {
    let alloc = rt.alloc();
    let name = Text::from_bytes(alloc, b"name")?;
    let other = Text::from_bytes(alloc, b"other")?;
    let text = Text::from_bytes(alloc, b"abc")?;
    let mut files = SureFiles::make(alloc)?;
    files.put_file(&name, &text)?;
    check_files(&rt, &mut files, &name)?;
    assert_eq!(rt; files.read_file(&other, 0)?.as_bytes(), b"".as_slice());
    let mut files = MemFiles::make(alloc, &[3])?;
    files.put_file(&name, &text)?;
    check_files(&rt, &mut files, &name)?;
    for want in [FileRefusal::Absent, FileRefusal::Failed] {
        match files.read_file(&other, 0) {
            Ok(_) => Err("a file that isn't there was read")?,
            Err(refusal) => assert_eq!(rt; refusal, want),
        }
    }
    assert_eq!(rt; files.file_faults(), 1);
    Ok(())
}

fn reading<C: Clock>(clock: &mut C) -> u64 {
    clock.now()
}

#[test]
fn clocks_give_their_readings(rt: HostRuntime) -> Result<(), Fail> {
    let mut clock = MemClock::make(rt.alloc(), &[3, 5])?;
    assert_eq!(rt; reading(&mut clock), 3);
    assert_eq!(rt; reading(&mut &mut clock), 5);
    assert_eq!(rt; reading(&mut clock), 5);
    assert_eq!(rt; reading(&mut MemClock::make(rt.alloc(), &[])?), 0);
    Ok(())
}
