//! Files that are read to a limit, and a sink that takes so many bytes.

use core_steps::Fetch;
use html_types::NoMemory;
use outside::{Failed, MemFiles, MemSink, Port};
use page_turns::{read_whole, write_all};
use std::alloc::Global;
use std::test::Fail;

// The calls, each alone: what they promise is long, and the tests look at what they answer.
fn read(alloc: Global, files: &mut MemFiles, path: &str) -> Result<Fetch, NoMemory> {
    read_whole(alloc, files, Port::Script, path, 2)
}

fn write(sink: &mut MemSink, bytes: &[u8]) -> Result<(), Failed> {
    write_all(sink, bytes)
}

#[test]
fn a_sink_takes_a_front(rt: HostRuntime) -> Result<(), Fail> {
    let mut sink = MemSink::new(rt.alloc(), 3)?;
    assert!(rt; write(&mut sink, b"abcd") == Err(Failed));
    assert_eq!(rt; sink.bytes(), b"abc".as_slice());
    Ok(())
}

#[test]
fn a_file_is_read_to_the_limit(rt: HostRuntime) -> Result<(), Fail> {
    let alloc = rt.alloc();
    let mut files = MemFiles::new(alloc, &[])?;
    files.add("s", b"abcd".as_slice())?;
    let fetch = read(alloc, &mut files, "s")?;
    assert!(rt; matches!(&fetch, Fetch::Got(bytes) if bytes.as_slice() == b"abc".as_slice()));
    let fetch = read(alloc, &mut files, "t")?;
    assert!(rt; matches!(&fetch, Fetch::Missing));
    Ok(())
}
