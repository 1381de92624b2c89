//! Files and sinks, in memory and real, and their faults.

use outside::{DiskFiles, Failed, MemFiles, MemSink, NeverFails, Outside, Port, Sink, StdoutSink};
use std::test::Fail;

// The calls, each alone: what they promise is long, and the tests look at what they answer.
fn begin<F: Outside>(files: &mut F, port: Port, path: &str) -> Result<bool, Failed> {
    files.begin(port, path)
}

fn read<F: Outside>(files: &mut F, port: Port, into: &mut [u8]) -> Result<usize, Failed> {
    files.read(port, into)
}

fn write<K: Sink>(sink: &mut K, bytes: &[u8]) -> Result<usize, Failed> {
    sink.write(bytes)
}

fn finish<K: Sink>(sink: &mut K) -> Result<(), Failed> {
    sink.finish()
}

#[test]
fn a_file_in_memory(rt: HostRuntime) -> Result<(), Fail> {
    let mut files = NeverFails::new(rt.alloc());
    files.add("p", b"old".as_slice())?;
    files.add("p", b"new".as_slice())?;
    let mut piece = [0u8; 2];
    assert!(rt; begin(&mut files, Port::Page, "q") == Ok(false));
    assert!(rt; begin(&mut files, Port::Page, "p") == Ok(true));
    assert!(rt; read(&mut files, Port::Page, &mut piece) == Ok(2));
    assert_eq!(rt; piece[0], b'n');
    assert!(rt; read(&mut files, Port::Page, &mut piece) == Ok(1));
    assert_eq!(rt; piece[0], b'w');
    assert!(rt; read(&mut files, Port::Page, &mut piece) == Ok(0));
    Ok(())
}

#[test]
fn the_second_call_fails(rt: HostRuntime) -> Result<(), Fail> {
    let mut files = MemFiles::new(rt.alloc(), [(Port::Page, 2)].as_slice())?;
    files.add("p", b"ab".as_slice())?;
    let mut piece = [0u8; 4];
    assert!(rt; begin(&mut files, Port::Script, "p") == Ok(true));
    assert!(rt; begin(&mut files, Port::Page, "p") == Ok(true));
    assert!(rt; read(&mut files, Port::Page, &mut piece) == Err(Failed));
    assert!(rt; read(&mut files, Port::Page, &mut piece) == Ok(2));
    Ok(())
}

#[test]
fn a_read_gives_no_more_than_the_limit(rt: HostRuntime) -> Result<(), Fail> {
    let mut files = MemFiles::new(rt.alloc(), [].as_slice())?;
    files.add("p", b"abc".as_slice())?;
    files.limit(2);
    let mut piece = [0u8; 4];
    assert!(rt; begin(&mut files, Port::Page, "p") == Ok(true));
    assert!(rt; read(&mut files, Port::Page, &mut piece) == Ok(2));
    assert!(rt; read(&mut files, Port::Page, &mut piece) == Ok(1));
    assert_eq!(rt; piece[0], b'c');
    Ok(())
}

#[test]
fn a_sink_that_fails_at_its_end(rt: HostRuntime) -> Result<(), Fail> {
    let mut sink = MemSink::new(rt.alloc(), 3)?;
    assert!(rt; finish(&mut sink) == Ok(()));
    sink.fail_finish();
    assert!(rt; write(&mut sink, b"ab".as_slice()) == Ok(2));
    assert!(rt; finish(&mut sink) == Err(Failed));
    assert!(rt; finish(&mut sink) == Err(Failed));
    assert_eq!(rt; sink.bytes(), b"ab".as_slice());
    Ok(())
}

#[test]
fn a_full_sink(rt: HostRuntime) -> Result<(), Fail> {
    let mut sink = MemSink::new(rt.alloc(), 3)?;
    assert!(rt; write(&mut sink, b"ab".as_slice()) == Ok(2));
    assert!(rt; write(&mut sink, b"cd".as_slice()) == Ok(1));
    assert!(rt; write(&mut sink, b"d".as_slice()) == Err(Failed));
    assert!(rt; finish(&mut sink) == Ok(()));
    assert_eq!(rt; sink.bytes(), b"abc".as_slice());
    Ok(())
}

#[test]
fn what_the_disk_lacks(rt: HostRuntime) -> Result<(), Fail> {
    let mut files = DiskFiles::new(rt);
    let mut piece = [0u8; 4];
    assert!(rt; begin(&mut files, Port::Page, "/no such file") == Ok(false));
    assert!(rt; begin(&mut files, Port::Page, "/dev/null/through") == Err(Failed));
    assert!(rt; read(&mut files, Port::Page, &mut piece) == Ok(0));
    assert!(rt; begin(&mut files, Port::Page, "/") == Ok(true));
    assert!(rt; read(&mut files, Port::Page, &mut piece) == Err(Failed));
    assert!(rt; begin(&mut files, Port::Page, "/dev/null") == Ok(true));
    assert!(rt; read(&mut files, Port::Page, &mut piece) == Ok(0));
    Ok(())
}

#[test]
fn a_real_sink(rt: HostRuntime) -> Result<(), Fail> {
    let mut sink = StdoutSink::new(Vec::new(rt.alloc()));
    assert!(rt; write(&mut sink, b"ab".as_slice()) == Ok(2));
    assert!(rt; finish(&mut sink) == Ok(()));
    Ok(())
}
