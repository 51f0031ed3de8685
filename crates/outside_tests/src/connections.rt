// Connections in memory.
use outside_world::{
    Both, Conn, Failed, MemConn, MemSink, MemSource, Sink, Source, SureConn, WriteRefusal,
};
use std::process::Abort;

// Reads "abcdef" by pieces of 1, 3 and 2 bytes, and writes "xy".
fn check_conn<L: Conn>(rt: &impl Abort, link: &mut L) {
    let mut piece = [0; 4];
    for want in ["a", "bcd", "ef", ""] {
        let n = link.read(&mut piece).expect(rt, "a read");
        assert_eq!(rt; &piece[..n], want.as_bytes());
    }
    assert_eq!(rt; link.write(b"xy"), Ok(2));
    assert!(rt; !link.extra());
    link.finish();
}

#[test]
fn connections_give_and_take(rt: HostRuntime) {
    let alloc = rt.alloc();
    let mut sure = SureConn::make(alloc, b"abcdef", &[1, 0, 3]).expect(&rt, "memory");
    check_conn(&rt, &mut sure);
    assert_eq!(rt; sure.written(), b"xy".as_slice());
    let mut link = MemConn::make(alloc, b"abcdef", &[1, 3], &[4], &[1]).expect(&rt, "memory");
    check_conn(&rt, &mut link);
    assert_eq!(rt; link.written(), b"xy".as_slice());
    assert_eq!(rt; link.read(&mut [0]), Err(Failed));
    assert_eq!(rt; link.write(b"z"), Err(WriteRefusal::Failed));
    assert_eq!(rt; (link.read_faults(), link.write_faults()), (1, 1));
    let mut source = MemSource::make(alloc, b"ab", &[]).expect(&rt, "memory");
    let mut sink = MemSink::make(alloc, &[]).expect(&rt, "memory");
    let mut both = Both::make(&mut source, &mut sink);
    assert_eq!(rt; both.read(&mut [0; 4]), Ok(2));
    assert_eq!(rt; both.write(b"xy"), Ok(2));
    both.finish();
    assert_eq!(rt; sink.written(), b"xy".as_slice());
}
