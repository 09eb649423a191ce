//! Sources, sinks and shelves in memory, over readers and writers that fail, and over files.
ghost use Rattle.std.specs.Prelude.{◌≤◌, IfOk};

use crate::{
    Calls, Failed, File, FileShelf, MemoryShelf, MemorySink, MemorySource, ReadSource, Shelf,
    ShelfErr, Sink, Source, WriteSink, read_all, write_all,
};
use lf_base::{ListOf, Text};
use std::alloc::Global;
use std::io::{ErrorKind, Read, Write};
use std::test::Fail;
use std::{env, fs, io};

fn no_calls(alloc: Global) -> Calls {
    Calls::new(Vec::new(alloc))
}

#[test]
fn a_source_gives_its_bytes_in_pieces(rt: HostRuntime) -> Result<(), Fail> {
    let alloc = rt.alloc();
    let calls = Calls::new(vec![in alloc; 1]?);
    let mut source = MemorySource::new(b"abc".to_vec(alloc)?, 2, calls);
    let mut buf = [0u8; 8];
    assert_eq!(rt; source.read(&mut buf), Ok(2));
    assert_eq!(rt; source.read(&mut buf), Err(Failed));
    assert_eq!(rt; source.read(&mut buf), Ok(1));
    assert_eq!(rt; buf[0], b'c');
    assert_eq!(rt; source.read(&mut buf), Ok(0));
    Ok(())
}

#[test]
fn all_is_read_up_to_a_limit(rt: HostRuntime) -> Result<(), Fail> {
    let alloc = rt.alloc();
    for (limit, failing, fits) in [(3u64, 9u64, true), (2, 9, false), (3, 2, false)] {
        let calls = Calls::new(vec![in alloc; failing]?);
        let mut source = MemorySource::new(b"abc".to_vec(alloc)?, 1, calls);
        match read_all(alloc, &mut source, limit) {
            Ok(bytes) => assert!(rt; fits && bytes.as_slice() == b"abc".as_slice()),
            Err(ShelfErr::TooLong) => assert!(rt; !fits && limit < 3),
            Err(ShelfErr::Failed) => assert!(rt; !fits && failing < 9),
            Err(ShelfErr::Memory) => assert!(rt; false),
        }
    }
    Ok(())
}

#[test]
fn a_sink_takes_what_fits(rt: HostRuntime) -> Result<(), Fail> {
    let alloc = rt.alloc();
    let Ok(mut sink) = MemorySink::new(alloc, 5, 2, Calls::new(vec![in alloc; 3]?)) else {
        assert!(rt; false);
        return Ok(());
    };
    assert_eq!(rt; write_all(&mut sink, b"abc"), Ok(()));
    assert_eq!(rt; write_all(&mut sink, b"def"), Err(Failed));
    assert_eq!(rt; sink.bytes(), b"abcde".as_slice());
    assert_eq!(rt; sink.write(b"g"), Err(Failed));
    assert_eq!(rt; sink.write(b""), Ok(0));
    Ok(())
}

#[test]
fn a_shelf_gives_its_files(rt: HostRuntime) -> Result<(), Fail> {
    let alloc = rt.alloc();
    let mut files = ListOf::new(alloc);
    for (name, bytes) in [("f", b"one"), ("g", b"two")] {
        let Ok(name) = Text::of(alloc, name) else {
            assert!(rt; false);
            return Ok(());
        };
        let bytes = ListOf::from_vec(bytes.to_vec(alloc)?);
        assert!(rt; files.push(File { name, bytes }).is_ok());
    }
    let mut shelf = MemoryShelf::new(files, Calls::new(vec![in alloc; 3]?));
    let Ok(taken) = shelf.take(alloc, "g", 3) else {
        assert!(rt; false);
        return Ok(());
    };
    assert_eq!(rt; taken.as_slice(), b"two".as_slice());
    assert!(rt; matches!(shelf.take(alloc, "f", 2), Err(ShelfErr::TooLong)));
    assert!(rt; matches!(shelf.take(alloc, "h", 3), Err(ShelfErr::Failed)));
    assert!(rt; matches!(shelf.take(alloc, "f", 3), Err(ShelfErr::Failed)));
    assert!(rt; shelf.take(alloc, "f", 3).is_ok());
    Ok(())
}

#[test]
fn readers_and_writers_are_sources_and_sinks(rt: HostRuntime) -> Result<(), Fail> {
    let alloc = rt.alloc();
    let mut source = ReadSource::new(b"abc".as_slice());
    let mut buf = [0u8; 2];
    assert_eq!(rt; source.read(&mut buf), Ok(2));
    assert_eq!(rt; buf, *b"ab");
    assert_eq!(rt; source.read(&mut buf), Ok(1));
    assert_eq!(rt; source.read(&mut buf), Ok(0));
    let mut bytes = Vec::new(alloc);
    let mut sink = WriteSink::new(&mut bytes);
    assert_eq!(rt; write_all(&mut sink, b"abc"), Ok(()));
    assert_eq!(rt; bytes.as_slice(), b"abc".as_slice());
    Ok(())
}

// Takes and gives one byte a call. Its second call is interrupted, its fourth fails, and its sixth
// takes nothing.
#[derive(Drop)]
struct Shaky {
    calls: u32,
}

impl Shaky {
    fn next(&mut self) -> io::Result<usize>
        ensures { IfOk result (λ n. n ≤ 1) }
    {
        self.calls = self.calls.saturating_add(1);
        match self.calls {
            2 => Err(ErrorKind::Interrupted.into()),
            4 => Err(ErrorKind::Other.into()),
            6 => Ok(0),
            _ => Ok(1),
        }
    }
}

impl Read for Shaky {
    fn read(&mut self, buf: &mut [u8]) -> io::Result<usize> {
        let count = self.next()?;
        Ok(count.min(buf.len()))
    }
}

impl Write for Shaky {
    fn write(&mut self, buf: &[u8]) -> io::Result<usize> {
        let count = self.next()?;
        Ok(count.min(buf.len()))
    }

    fn flush(&mut self) -> io::Result<()> {
        Ok(())
    }
}

#[test]
fn an_interrupted_call_is_made_again_and_a_failed_one_is_told(rt: HostRuntime) -> Result<(), Fail> {
    let mut source = ReadSource::new(Shaky { calls: 0 });
    let mut sink = WriteSink::new(Shaky { calls: 0 });
    let mut buf = [0u8; 2];
    for (read, written) in [
        (Ok(1), Ok(1)),
        (Ok(1), Ok(1)),
        (Err(Failed), Err(Failed)),
        (Ok(1), Ok(1)),
        (Ok(0), Err(Failed)),
    ] {
        assert_eq!(rt; source.read(&mut buf), read);
        assert_eq!(rt; sink.write(b"ab"), written);
    }
    Ok(())
}

#[test]
fn files_lie_on_a_shelf(rt: HostRuntime) -> Result<(), Fail> {
    let alloc = rt.alloc();
    let folder = env::temp_dir(&rt)?;
    let path = format!(in alloc; "{}/ldframes-shelf-test", folder.as_str())?;
    fs::write(&rt, path.as_str(), b"abc")?;
    let mut shelf = FileShelf::new(&rt);
    match shelf.take(alloc, path.as_str(), 3) {
        Ok(bytes) => assert_eq!(rt; bytes.as_slice(), b"abc".as_slice()),
        Err(_) => assert!(rt; false),
    }
    assert!(rt; matches!(shelf.take(alloc, path.as_str(), 2), Err(ShelfErr::TooLong)));
    fs::remove_file(&rt, path.as_str())?;
    assert!(rt; matches!(shelf.take(alloc, path.as_str(), 3), Err(ShelfErr::Failed)));
    Ok(())
}
