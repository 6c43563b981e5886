//! Each call once, both sides of the limits, and failures in mid-stream.

use super::*;
use std::alloc::{AllocError, Global};
use std::test::Fail;
use std::{env, fs, process};

/// A list of files with these names and bytes.
fn files_of(alloc: Global, files: &[(&str, &[u8])]) -> Result<Vec<(String, Vec<u8>)>, AllocError> {
    let mut list = Vec::new(alloc);
    for (name, bytes) in files {
        list.push((
            String::from_str(alloc, name)?,
            Vec::from_slice(alloc, bytes)?,
        ))?;
    }
    Ok(list)
}

#[test]
fn first_of_two_equal_names(rt: HostRuntime) -> Result<(), Fail> {
    let list = files_of(
        rt.alloc(),
        &[("a", b"first"), ("b", b"other"), ("a", b"second")],
    )?;
    let mut files = MemFiles::make(list, Vec::new(rt.alloc()));
    let mut into = [b'.'; 4];
    assert_eq!(rt; files.read_at("a", 2, &mut into)?, 3);
    assert_eq!(rt; into, *b"rst.");
    assert_eq!(rt; files.read_at("b", 0, &mut into)?, 4);
    assert_eq!(rt; into, *b"othe");
    assert_eq!(rt; files.read_at("b", 5, &mut into)?, 0, "at the end");
    assert_eq!(rt;
        files.read_at("c", 0, &mut into),
        Err(Failed),
        "no such file"
    );
    Ok(())
}

#[test]
fn failing_read(rt: HostRuntime) -> Result<(), Fail> {
    // Two reads give 20,000 bytes, and a third finds the end.
    let long = vec![in rt.alloc(); b'x'; 20000]?;
    for call in 1..=4 {
        let list = files_of(rt.alloc(), &[("long", long.as_slice())])?;
        let mut files = MemFiles::make(list, vec![in rt.alloc(); call]?);
        match read_all(rt.alloc(), &mut files, "long", 20000) {
            Ok(bytes) => assert!(rt; call == 4 && bytes.as_slice() == long.as_slice()),
            Err(ReadEnd::Failed) => assert!(rt; call < 4, "call {call} was not to fail"),
            Err(_end) => panic!(rt; "call {call}"),
        }
    }
    Ok(())
}

#[test]
fn limit_of_read_all(rt: HostRuntime) -> Result<(), Fail> {
    let list = files_of(rt.alloc(), &[("abc", b"abc")])?;
    let mut files = SureFiles::make(list);
    assert_eq!(rt;
        read_all(rt.alloc(), &mut files, "abc", 3)?.as_slice(),
        b"abc".as_slice()
    );
    assert!(rt; read_all(rt.alloc(), &mut files, "not given", 0)?.is_empty());
    match read_all(rt.alloc(), &mut files, "abc", 1) {
        Err(ReadEnd::Long(bytes)) => assert_eq!(rt; bytes.as_slice(), b"ab".as_slice()),
        _end => panic!(rt; "three bytes are more than one"),
    }
    match read_all(rt.alloc(), &mut files, "abc", 2) {
        Err(ReadEnd::Long(bytes)) => assert_eq!(rt; bytes.as_slice(), b"abc".as_slice()),
        // That this never comes is proved.
        Err(ReadEnd::Failed) => unreachable!(),
        _end => panic!(rt; "three bytes are more than two"),
    }
    Ok(())
}

#[test]
fn failing_write(rt: HostRuntime) -> Result<(), Fail> {
    let text = b"a text of twenty-two..";
    let mut out = MemSink::make(rt.alloc(), 22, 8, vec![in rt.alloc(); 3, 7]?)?;
    assert_eq!(rt; write_all(&mut out, text), Err(Failed));
    assert_eq!(rt; out.bytes(), b"a text of twenty".as_slice());
    write_all(&mut out, b"-two..")?;
    assert_eq!(rt; out.bytes(), text.as_slice());
    out.flush()?;
    out.write(b"")?;
    assert_eq!(rt; out.flush(), Err(Failed), "the seventh call");
    Ok(())
}

#[test]
fn full_room(rt: HostRuntime) -> Result<(), Fail> {
    let mut out = MemSink::make(rt.alloc(), 5, 8, Vec::new(rt.alloc()))?;
    assert_eq!(rt; write_all(&mut out, b"sixsix"), Err(Failed));
    assert_eq!(rt; out.bytes(), b"sixsi".as_slice());
    write_all(&mut out, b"")?;
    Ok(())
}

#[test]
fn sure_sink(rt: HostRuntime) {
    let mut out = SureSink::make();
    // That these succeed is proved.
    write_all(&mut out, b"dropped").unwrap();
    out.flush().unwrap();
    assert_eq!(rt; out.write(b"four"), Ok(4));
}

#[test]
fn disk_files(rt: HostRuntime) -> Result<(), Fail> {
    let folder = env::temp_dir(&rt)?;
    let id = process::id(rt.process());
    let path = format!(in rt.alloc(); "{}/ttw_io_{id}", folder.display())?;
    fs::write(&rt, path.as_str(), "on the disk")?;
    let mut files = DiskFiles::make(rt.alloc(), rt)?;
    let whole = read_all(rt.alloc(), &mut files, path.as_str(), 100);
    let mut into = [b'.'; 4];
    let part = files.read_at(path.as_str(), 7, &mut into);
    fs::remove_file(&rt, path.as_str())?;
    assert_eq!(rt; whole?.as_slice(), b"on the disk".as_slice());
    assert_eq!(rt; part, Ok(4));
    assert_eq!(rt; into, *b"disk");
    assert_eq!(rt; files.read_at("no such file", 0, &mut into), Err(Failed));
    assert_eq!(rt; files.read_at("/", 0, &mut into), Err(Failed), "a folder");
    Ok(())
}

#[test]
fn standard_output(rt: HostRuntime) -> Result<(), Fail> {
    let mut out = StdSink::make(rt);
    write_all(&mut out, b"standard output\n")?;
    assert_eq!(rt; out.write(b""), Ok(0));
    out.flush()?;
    Ok(())
}

#[test]
fn buffered_texts(rt: HostRuntime) -> Result<(), Fail> {
    // A sink that takes 1 byte, or 7, in a call, and a room that two of the texts fill.
    for piece in [1, 7] {
        let mut out = MemSink::make(rt.alloc(), 64, piece, Vec::new(rt.alloc()))?;
        let mut buffer = Buffer::make(rt.alloc(), 8)?;
        buffer.put(b"four", &mut out)?;
        buffer.put(b"more", &mut out)?;
        assert!(rt; out.bytes().is_empty(), "both have room");
        buffer.put_all(&[b"!", b"", b"longer than the room", b"end"], &mut out)?;
        assert_eq!(rt; out.bytes(), b"fourmore!longer than the room".as_slice());
        buffer.empty(&mut out)?;
        assert_eq!(rt; out.bytes(), b"fourmore!longer than the roomend".as_slice());
        buffer.empty(&mut out)?;
        assert_eq!(rt; out.bytes().len(), 32, "nothing is written twice");
    }
    Ok(())
}

#[test]
fn buffer_without_room(rt: HostRuntime) -> Result<(), Fail> {
    let mut out = MemSink::make(rt.alloc(), 8, 8, Vec::new(rt.alloc()))?;
    let mut buffer = Buffer::make(rt.alloc(), 0)?;
    buffer.put_all(&[b"at", b" once"], &mut out)?;
    assert_eq!(rt; out.bytes(), b"at once".as_slice());
    Ok(())
}

#[test]
fn buffer_before_a_failing_write(rt: HostRuntime) -> Result<(), Fail> {
    let mut out = MemSink::make(rt.alloc(), 64, 3, vec![in rt.alloc(); 2]?)?;
    let mut buffer = Buffer::make(rt.alloc(), 4)?;
    assert_eq!(rt; buffer.put_all(&[b"four", b"more"], &mut out), Err(Failed));
    assert_eq!(rt; out.bytes(), b"fou".as_slice());
    Ok(())
}
