//! The adapters over the system, and a source and a store in memory that fail.
use flow_io::{
    Clock, FileSource, FileStore, Got, Hand, MemSource, MemStore, RealClock, Sink, Source,
    StderrSink, StdoutSink, Took, TraceStore, write_all,
};
use std::fs;
use std::test::Fail;

#[test]
fn a_source_in_memory_fails_at_its_numbers(rt: HostRuntime) -> Result<(), Fail> {
    let alloc = rt.alloc();
    let mut files = Vec::new(alloc);
    files.push((
        String::from_str(alloc, "a")?,
        Vec::from_slice(alloc, b"first")?,
    ))?;
    files.push((
        String::from_str(alloc, "a")?,
        Vec::from_slice(alloc, b"second")?,
    ))?;
    let mut source = MemSource::new(files, 3, Vec::from_slice(alloc, &[2, 5])?);
    assert!(rt; !source.start("b"));
    assert!(rt; source.start("a"));
    let mut buf = [0; 4];
    for got in [Got::Failed, Got::Got(3), Got::Got(2), Got::Failed, Got::End] {
        assert_eq!(rt; source.read(&mut buf), got);
    }
    assert_eq!(rt; buf.as_slice(), b"str\0".as_slice());
    Ok(())
}

#[test]
fn a_store_in_memory_keeps_its_documents(rt: HostRuntime) -> Result<(), Fail> {
    let alloc = rt.alloc();
    let mut store = MemStore::new(alloc, 2, 9, 2, Vec::from_slice(alloc, &[1])?)?;
    assert!(rt; store.begin("a"));
    assert_eq!(rt; store.write(b"first"), Took::Failed);
    assert!(rt; write_all(&mut store, b"one"));
    // Of equal names both stand, and names take room too.
    assert!(rt; store.begin("a"));
    assert!(rt; !write_all(&mut store, b"other"));
    assert!(rt; !store.begin("b"));
    for (index, name, bytes) in [
        (0, Some("a"), Some(b"one".as_slice())),
        (1, Some("a"), Some(b"othe")),
        (2, None, None),
    ] {
        assert_eq!(rt; (store.name(index), store.bytes(index)), (name, bytes));
    }
    Ok(())
}

#[test]
fn a_refused_begin_keeps_room_and_documents(rt: HostRuntime) -> Result<(), Fail> {
    let alloc = rt.alloc();
    let mut store = MemStore::new(alloc, 2, 5, 9, Vec::from_slice(alloc, &[1])?)?;
    // The second call fails, and the third name doesn't fit.
    for (name, begun, documents) in [
        ("a", true, 1),
        ("b", false, 1),
        ("longer", false, 1),
        ("c", true, 2),
        ("d", false, 2),
    ] {
        assert_eq!(rt; store.begin(name), begun);
        assert_eq!(rt; store.documents(), documents);
    }
    assert_eq!(rt; store.name(1), Some("c"));
    assert_eq!(rt; store.write(b"four"), Took::Took(3));
    Ok(())
}

#[test]
fn the_system_keeps_what_was_written_and_counts_time(rt: HostRuntime) -> Result<(), Fail> {
    let clock = RealClock::new(&rt);
    let mut hand = clock.hand(0);
    let begun = hand.now();
    assert!(rt; begun > 0);
    let mut store = FileStore::new(&rt);
    for text in [b"a longer text".as_slice(), b"a text"] {
        assert!(rt; store.begin("flow_io_trace.txt"));
        assert!(rt; write_all(&mut store, text));
        let kept = fs::read(&rt, "flow_io_trace.txt")?;
        assert_eq!(rt; kept.as_slice(), text);
    }
    assert!(rt; !store.begin("no_such_folder/flow_io_trace.txt"));
    fs::remove_file(&rt, "flow_io_trace.txt")?;
    assert!(rt; begun <= hand.now());
    Ok(())
}

#[test]
fn reads_a_file_of_the_system(rt: HostRuntime) -> Result<(), Fail> {
    fs::write(&rt, "flow_io_read.txt", "some bytes")?;
    let mut source = FileSource::new(&rt);
    let mut buf = [0; 4];
    assert_eq!(rt; source.read(&mut buf), Got::End);
    assert!(rt; source.start("flow_io_read.txt"));
    for got in [Got::Got(4), Got::Got(4), Got::Got(2), Got::End] {
        assert_eq!(rt; source.read(&mut buf), got);
    }
    assert_eq!(rt; buf.as_slice(), b"esyt".as_slice());
    assert!(rt; !source.start("flow_io_no_such.txt"));
    fs::remove_file(&rt, "flow_io_read.txt")?;
    Ok(())
}

#[test]
fn writes_to_the_outputs_of_the_system(rt: HostRuntime) {
    assert!(rt; write_all(&mut StdoutSink::new(&rt), b"to the output\n"));
    let error = rt.stderr();
    let mut sink = StderrSink::new(&error);
    assert_eq!(rt; sink.write(b"x"), Took::Took(1));
}
