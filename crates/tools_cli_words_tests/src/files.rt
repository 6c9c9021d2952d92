use std::fs;
use std::test::Fail;
use tool_io::{Files, HostFiles, HostSink, IoFault, MemFiles, MemSink, Sink};

// A write through the bound.
fn write_one<F: Files>(files: &mut F, name: &str, bytes: &[u8]) -> Result<(), IoFault> {
    files.write(name, bytes)
}

// A put through the bound.
fn put_one<S: Sink>(sink: &mut S, piece: &[u8]) -> Result<(), IoFault> {
    sink.put(piece)
}

#[test]
fn files_of_the_host_are_written_and_read_and_fail(rt: HostRuntime) -> Result<(), Fail> {
    let alloc = rt.alloc();
    let mut files = HostFiles::new(&rt);
    write_one(&mut files, "a.bin", &[1, 2, 3])?;
    for (most, bytes) in [
        (0, [].as_slice()),
        (2, [1, 2].as_slice()),
        (3, [1, 2, 3].as_slice()),
        (9, [1, 2, 3].as_slice()),
    ] {
        assert_eq!(rt; files.read(alloc, "a.bin", most)?.as_slice(), bytes);
    }
    assert_eq!(rt; files.read(alloc, "b.bin", 9), Err(IoFault::Failed));
    assert_eq!(rt; files.read(alloc, "/", 9), Err(IoFault::Failed));
    assert_eq!(rt;
        write_one(&mut files, "/dev/full", &[1]),
        Err(IoFault::Failed)
    );
    Ok(())
}

#[test]
fn a_stream_of_the_host_takes_a_piece_and_fails(rt: HostRuntime) -> Result<(), Fail> {
    let mut sink = HostSink::new(rt.stdout());
    put_one(&mut sink, b"piece\n")?;
    let mut full = HostSink::new(fs::create(&rt, "/dev/full")?);
    put_one(&mut full, b"")?;
    assert_eq!(rt; put_one(&mut full, b"piece\n"), Err(IoFault::Failed));
    Ok(())
}

#[test]
fn calls_in_memory_fail_at_their_numbers(rt: HostRuntime) -> Result<(), Fail> {
    let alloc = rt.alloc();
    let mut files = MemFiles::new(alloc);
    files.add("a", b"abcde")?;
    files.fail_at(2)?;
    assert_eq!(rt; files.read(alloc, "a", 3)?.as_slice(), b"abc".as_slice());
    assert_eq!(rt; write_one(&mut files, "b", b"xyz"), Err(IoFault::Failed));
    assert_eq!(rt; files.contents("b"), Some(b"x".as_slice()));
    assert_eq!(rt; files.contents("c"), None);
    assert_eq!(rt; files.read(alloc, "c", 3), Err(IoFault::Failed));
    write_one(&mut files, "b", b"wide")?;
    assert_eq!(rt; files.contents("b"), Some(b"wide".as_slice()));
    let mut sink = MemSink::new(alloc);
    sink.fail_at(2)?;
    put_one(&mut sink, b"abc")?;
    assert_eq!(rt; put_one(&mut sink, b"defg"), Err(IoFault::Failed));
    assert_eq!(rt; sink.text(), b"abcde".as_slice());
    Ok(())
}
