use std::alloc::{AllocError, Global};
use std::io::Print;
use std::test::Fail;
use std::{env, fmt, fs, io};
use value_core::Text;
use value_core::lists::add;
use world_io::{
    CallList, Failed, FileItem, FileList, FileNo, Files, HostErr, HostFiles, HostOut, HostStream,
    MemFiles, MemSink, Sink, WriteNo, read_within, write_all,
};

/// The files of the table, in memory. The calls with these numbers fail.
fn mem_files(
    alloc: Global,
    table: &[(&str, &str)],
    failing: &[u64],
) -> Result<MemFiles, AllocError> {
    let held = file_list(alloc, table)?;
    Ok(MemFiles::new(held, CallList::from_slice(alloc, failing)?))
}

fn file_list(alloc: Global, table: &[(&str, &str)]) -> Result<FileList, AllocError> {
    let mut held = FileList::new(alloc);
    for (name, bytes) in table {
        let item = file(alloc, name.as_bytes(), bytes.as_bytes())?;
        add(&mut held, item)?;
    }
    Ok(held)
}

fn file(alloc: Global, name: &[u8], bytes: &[u8]) -> Result<FileItem, AllocError> {
    Ok(FileItem {
        name: Text::from_bytes(alloc, name)?,
        bytes: Text::from_bytes(alloc, bytes)?,
    })
}

fn read_named<F: Files + Send>(
    alloc: Global,
    files: &mut F,
    name: &[u8],
    limit: usize,
) -> Result<Vec<u8>, FileNo> {
    let name = Text::from_bytes(alloc, name).map_err(|_| FileNo::Memory)?;
    files.read(alloc, &name, limit)
}

fn write_named<F: Files + Send>(
    alloc: Global,
    files: &mut F,
    name: &[u8],
    bytes: &[u8],
) -> Result<(), WriteNo> {
    let name = Text::from_bytes(alloc, name).map_err(|_| WriteNo::Memory)?;
    files.write(alloc, &name, bytes)
}

/// Whether a read of that name answers these bytes.
fn reads<F: Files + Send>(
    alloc: Global,
    files: &mut F,
    name: &[u8],
    limit: usize,
    want: &[u8],
) -> bool {
    match read_named(alloc, files, name, limit) {
        Ok(bytes) => bytes.as_slice() == want,
        Err(_) => false,
    }
}

/// Why a read of that name is refused, where it is.
fn read_refusal<F: Files + Send>(
    alloc: Global,
    files: &mut F,
    name: &[u8],
    limit: usize,
) -> Option<FileNo> {
    read_named(alloc, files, name, limit).err()
}

fn send_all<K: Sink + Send>(bytes: &[u8], sink: &mut K) -> Result<(), Failed> {
    write_all(bytes, sink)
}

/// The calls are numbered: the first and the fourth fail here.
#[test]
fn files_in_memory(rt: HostRuntime) -> Result<(), Fail> {
    let alloc = rt.alloc();
    let table = [("a", "abc"), ("b", ""), ("a", "second")];
    let mut files = mem_files(alloc, &table, &[1, 4])?;
    assert!(rt; reads(alloc, &mut files, b"a", 3, b"abc"));
    let refusals = [
        ("a", 3, FileNo::Failed),
        ("a", 2, FileNo::TooLong),
        ("c", 9, FileNo::Absent),
        ("c", 9, FileNo::Failed),
    ];
    for (name, limit, want) in refusals {
        assert_eq!(rt;
            read_refusal(alloc, &mut files, name.as_bytes(), limit),
            Some(want)
        );
    }
    assert!(rt; reads(alloc, &mut files, b"b", 0, b""));
    Ok(())
}

/// Reads and writes are numbered together, and a write that fails changes nothing.
#[test]
fn writes_in_memory(rt: HostRuntime) -> Result<(), Fail> {
    let alloc = rt.alloc();
    let mut files = mem_files(alloc, &[("a", "abc"), ("a", "second")], &[1])?;
    let calls = [
        ("a", "new", Ok(())),
        ("a", "newer", Err(WriteNo::Failed)),
        ("b", "", Ok(())),
    ];
    for (name, bytes, want) in calls {
        assert_eq!(rt;
            write_named(alloc, &mut files, name.as_bytes(), bytes.as_bytes()),
            want
        );
    }
    assert!(rt; reads(alloc, &mut files, b"a", 9, b"new"));
    assert!(rt; reads(alloc, &mut files, b"b", 9, b""));
    Ok(())
}

/// Whether the bytes go into a sink that takes so many at a time and so many in all, and whose call with that number
/// fails, so that these are taken.
fn takes(
    alloc: Global,
    bounds: (usize, usize, u64),
    bytes: &str,
    whole: bool,
    taken: &str,
) -> Result<bool, AllocError> {
    let (at_most, room, fail) = bounds;
    if at_most == 0 {
        return Ok(false);
    }
    let failing = CallList::from_slice(alloc, &[fail])?;
    let mut sink = MemSink::new(alloc, at_most, room, failing)?;
    let is_whole = send_all(bytes.as_bytes(), &mut sink).is_ok();
    Ok(is_whole == whole && sink.taken() == taken.as_bytes())
}

#[test]
fn sinks_in_memory(rt: HostRuntime) -> Result<(), Fail> {
    let cases = [
        ((1, 9, 9), "hello", true, "hello"),
        ((3, 4, 9), "hello", false, "hell"),
        ((2, 9, 1), "hello", false, "he"),
        ((9, 0, 9), "", true, ""),
    ];
    for (bounds, bytes, whole, taken) in cases {
        assert!(rt;
            takes(rt.alloc(), bounds, bytes, whole, taken)?,
            "of {bytes}"
        );
    }
    Ok(())
}

/// A path in the folder for files that are soon gone, which no other test's process uses.
fn path_of(rt: &HostRuntime, name: &str) -> Result<String, Fail> {
    let folder = env::temp_dir(rt)?;
    let number = std::process::id(rt.process());
    Ok(format!(in rt.alloc(); "{}/{name}-{number}", folder.display())?)
}

/// A file of so many bytes is written there.
fn write_long(rt: &HostRuntime, path: &str, long: usize) -> Result<(), Fail> {
    let bytes = vec![in rt.alloc(); b'x'; long]?;
    fs::write(rt, path, bytes.as_slice())?;
    Ok(())
}

/// How many bytes a read of that name gives, where it gives some.
fn length_read<F: Files + Send>(
    alloc: Global,
    files: &mut F,
    name: &[u8],
    limit: usize,
) -> Option<usize> {
    match read_named(alloc, files, name, limit) {
        Ok(bytes) => Some(
            bytes
                .as_slice()
                .iter()
                .filter(|byte| **byte == b'x')
                .count(),
        ),
        Err(_) => None,
    }
}

/// A file that takes several reads, one that is not there, and a name that is no text.
#[test]
fn files_of_the_host(rt: HostRuntime) -> Result<(), Fail> {
    let path = path_of(&rt, "chocola-world-io")?;
    write_long(&rt, path.as_str(), 200000)?;
    let mut files = HostFiles::new(&rt);
    let name = path.as_bytes();
    assert_eq!(rt;
        length_read(rt.alloc(), &mut files, name, 200000),
        Some(200000)
    );
    assert_eq!(rt;
        read_refusal(rt.alloc(), &mut files, name, 199999),
        Some(FileNo::TooLong)
    );
    fs::remove_file(&rt, path.as_str())?;
    for name in [name, &[255]] {
        assert_eq!(rt;
            read_refusal(rt.alloc(), &mut files, name, 200000),
            Some(FileNo::Failed)
        );
    }
    Ok(())
}

/// A file that is made, and written over.
#[test]
fn writes_of_the_host(rt: HostRuntime) -> Result<(), Fail> {
    let path = path_of(&rt, "chocola-world-io-written")?;
    let mut files = HostFiles::new(&rt);
    let name = path.as_bytes();
    for bytes in ["first and longer", "second"] {
        assert_eq!(rt;
            write_named(rt.alloc(), &mut files, name, bytes.as_bytes()),
            Ok(())
        );
        assert!(rt; reads(rt.alloc(), &mut files, name, 99, bytes.as_bytes()));
    }
    fs::remove_file(&rt, path.as_str())?;
    Ok(())
}

/// A folder that is not there, and a name that is no text.
#[test]
fn writes_that_the_host_refuses(rt: HostRuntime) -> Result<(), Fail> {
    let path = path_of(&rt, "chocola-none/t")?;
    let mut files = HostFiles::new(&rt);
    for name in [path.as_bytes(), &[255]] {
        assert_eq!(rt;
            write_named(rt.alloc(), &mut files, name, b"x"),
            Err(WriteNo::Failed)
        );
    }
    Ok(())
}

#[test]
fn standard_output(rt: HostRuntime) {
    let mut out = HostOut::new(rt.stdout());
    assert_eq!(rt; send_all(b"to the standard output\n", &mut out), Ok(()));
    assert_eq!(rt; out.write(b""), Ok(0));
}

#[test]
fn standard_error(rt: HostRuntime) {
    let mut err = HostErr::new(rt.stderr());
    assert_eq!(rt; send_all(b"to the standard error\n", &mut err), Ok(()));
}

/// A reader that gives one byte at a time, and then fails.
#[derive(Drop)]
struct Broken(usize);

impl io::Read for Broken {
    fn read(&mut self, buf: &mut [u8]) -> io::Result<usize> {
        if self.0 == 0 || buf.is_empty() {
            return Err(io::Error::from(io::ErrorKind::Other));
        }
        self.0 -= 1;
        buf[0] = b'y';
        Ok(1)
    }
}

#[test]
fn a_read_fails_in_mid_stream(rt: HostRuntime) {
    assert_eq!(rt;
        read_within(rt.alloc(), &mut Broken(3), 9).err(),
        Some(FileNo::Failed)
    );
    assert_eq!(rt;
        read_within(rt.alloc(), &mut Broken(3), 2).err(),
        Some(FileNo::TooLong)
    );
}

/// A stream that takes so many bytes of a piece at most.
#[derive(Drop)]
struct Narrow(usize);

impl Print for Narrow {
    fn print<D: fmt::Display + Drop>(&self, _value: D) -> io::Result<()> {
        Ok(())
    }

    fn println<D: fmt::Display + Drop>(&self, _value: D) -> io::Result<()> {
        Ok(())
    }

    fn write_all(&self, _bytes: &[u8]) -> io::Result<()> {
        Ok(())
    }

    fn write_some(&self, bytes: &[u8]) -> io::Result<usize> {
        Ok(bytes.len().min(self.0))
    }
}

#[test]
fn a_short_write_is_told(rt: HostRuntime) {
    assert_eq!(rt; HostStream::new(Narrow(2)).write(b"abc"), Ok(2));
    assert_eq!(rt; HostStream::new(Narrow(0)).write(b"abc"), Err(Failed));
}
