//! Lines of files that are read in pieces of any sizes.

use super::*;
use std::alloc::{AllocError, Global};
use std::test::Fail;

/// The sizes of pieces in which the files of these tests are read.
const PIECES: [usize; 4] = [1, 2, 7, 65536];

/// Files of which one read gives at most so many bytes.
#[derive(Drop)]
struct Pieces {
    files: MemFiles,
    piece: usize,
}

impl Files for Pieces {
    ghost use Rattle.ttw_io.specs.Outside.{untold};

    ghost contents = { λ _ _. untold };

    ghost faults = { λ p. p.files.faults };

    fn read_at(&mut self, name: &str, at: u64, into: &mut [u8]) -> Result<usize, Failed> {
        let room = into.len().min(self.piece);
        self.files.read_at(name, at, &mut into[..room])
    }
}

/// The next line of the file.
fn next<'a>(reader: &'a mut LineReader, files: &mut Pieces) -> Result<Option<&'a [u8]>, LineEnd> {
    if reader.handed() > 1_000_000 {
        return Err(LineEnd::Failed);
    }
    reader.next_line(files, "plan")
}

/// One file with these bytes, read in pieces, where the reads of these numbers fail.
fn pieces_of(
    alloc: Global,
    bytes: &[u8],
    piece: usize,
    fail: Vec<u64>,
) -> Result<Pieces, AllocError> {
    let mut list = Vec::new(alloc);
    list.push((
        String::from_str(alloc, "plan")?,
        Vec::from_slice(alloc, bytes)?,
    ))?;
    Ok(Pieces {
        files: MemFiles::make(list, fail),
        piece,
    })
}

/// A text of so many bytes `x` and then a line feed.
fn long_line(alloc: Global, len: usize) -> Result<Vec<u8>, AllocError> {
    let mut text = vec![in alloc; b'x'; len]?;
    text.push(b'\n')?;
    Ok(text)
}

#[test]
fn lines_over_pieces(rt: HostRuntime) -> Result<(), Fail> {
    for piece in PIECES {
        let text = b"ab\n\nlonger \n\nlast";
        let mut files = pieces_of(rt.alloc(), text, piece, Vec::new(rt.alloc()))?;
        let mut reader = LineReader::make(rt.alloc(), 7)?;
        for line in [b"ab\n".as_slice(), b"\n", b"longer \n", b"\n", b"last"] {
            assert_eq!(rt; next(&mut reader, &mut files), Ok(Some(line)));
        }
        assert_eq!(rt; next(&mut reader, &mut files), Ok(None));
        assert_eq!(rt; next(&mut reader, &mut files), Ok(None), "again");
    }
    Ok(())
}

#[test]
fn last_line_feed(rt: HostRuntime) -> Result<(), Fail> {
    for piece in PIECES {
        let mut files = pieces_of(rt.alloc(), b"end\n", piece, Vec::new(rt.alloc()))?;
        let mut reader = LineReader::make(rt.alloc(), 3)?;
        assert_eq!(rt;
            next(&mut reader, &mut files),
            Ok(Some(b"end\n".as_slice()))
        );
        assert_eq!(rt; next(&mut reader, &mut files), Ok(None));
        let mut files = pieces_of(rt.alloc(), b"end", piece, Vec::new(rt.alloc()))?;
        let mut reader = LineReader::make(rt.alloc(), 3)?;
        assert_eq!(rt; next(&mut reader, &mut files), Ok(Some(b"end".as_slice())));
        assert_eq!(rt; next(&mut reader, &mut files), Ok(None));
        let mut files = pieces_of(rt.alloc(), b"", piece, Vec::new(rt.alloc()))?;
        let mut reader = LineReader::make(rt.alloc(), 0)?;
        assert_eq!(rt; next(&mut reader, &mut files), Ok(None), "an empty file");
    }
    Ok(())
}

#[test]
fn longest_line(rt: HostRuntime) -> Result<(), Fail> {
    for piece in PIECES {
        let mut text = long_line(rt.alloc(), 4096)?;
        text.extend_from_slice(b"x\n")?;
        text.extend_from_slice(long_line(rt.alloc(), 4097)?.as_slice())?;
        text.extend_from_slice(b"x\n")?;
        let mut files = pieces_of(rt.alloc(), text.as_slice(), piece, Vec::new(rt.alloc()))?;
        let mut reader = LineReader::make(rt.alloc(), 4096)?;
        assert!(rt; next(&mut reader, &mut files)?.is_some());
        assert_eq!(rt; reader.line().len(), 4097, "with its line feed");
        assert!(rt; next(&mut reader, &mut files)?.is_some());
        assert_eq!(rt; reader.line(), b"x\n".as_slice());
        assert_eq!(rt; next(&mut reader, &mut files), Err(LineEnd::Long));
        assert_eq!(rt; next(&mut reader, &mut files), Err(LineEnd::Long), "again");
    }
    Ok(())
}

#[test]
fn long_last_line(rt: HostRuntime) -> Result<(), Fail> {
    for piece in PIECES {
        let mut files = pieces_of(rt.alloc(), b"four", piece, Vec::new(rt.alloc()))?;
        let mut reader = LineReader::make(rt.alloc(), 4)?;
        assert_eq!(rt; next(&mut reader, &mut files), Ok(Some(b"four".as_slice())));
        let mut reader = LineReader::make(rt.alloc(), 3)?;
        assert_eq!(rt; next(&mut reader, &mut files), Err(LineEnd::Long));
    }
    Ok(())
}

#[test]
fn many_lines(rt: HostRuntime) -> Result<(), Fail> {
    let mut text = Vec::new(rt.alloc());
    for number in 0..20000 {
        let line = format!(in rt.alloc(); "line {number}\n")?;
        text.extend_from_slice(line.as_bytes())?;
    }
    let mut files = pieces_of(rt.alloc(), text.as_slice(), 65536, Vec::new(rt.alloc()))?;
    let mut reader = LineReader::make(rt.alloc(), 10)?;
    for number in 0..20000 {
        let line = format!(in rt.alloc(); "line {number}\n")?;
        assert_eq!(rt; next(&mut reader, &mut files), Ok(Some(line.as_bytes())));
    }
    assert_eq!(rt; next(&mut reader, &mut files), Ok(None));
    Ok(())
}

#[test]
fn failing_read_comes_after_its_lines(rt: HostRuntime) -> Result<(), Fail> {
    // The text has five bytes, so that the sixth read finds the end.
    for call in 1..=7 {
        let fail = vec![in rt.alloc(); call]?;
        let mut files = pieces_of(rt.alloc(), b"a\nb\nc", 1, fail)?;
        let mut reader = LineReader::make(rt.alloc(), 8)?;
        for (line, whole_by) in [(b"a\n".as_slice(), 2), (b"b\n", 4), (b"c", 6)] {
            let answer = next(&mut reader, &mut files);
            if whole_by < call {
                assert_eq!(rt; answer, Ok(Some(line)), "read {call} fails");
            } else {
                assert_eq!(rt; answer, Err(LineEnd::Failed), "read {call} fails");
            }
        }
        assert!(rt; next(&mut reader, &mut files).is_err() == (call < 7));
    }
    Ok(())
}

#[test]
fn missing_file(rt: HostRuntime) -> Result<(), Fail> {
    let files = MemFiles::make(Vec::new(rt.alloc()), Vec::new(rt.alloc()));
    let mut files = Pieces { files, piece: 8 };
    let mut reader = LineReader::make(rt.alloc(), 8)?;
    assert_eq!(rt; next(&mut reader, &mut files), Err(LineEnd::Failed));
    assert_eq!(rt;
        next(&mut reader, &mut files),
        Err(LineEnd::Failed),
        "again"
    );
    Ok(())
}
