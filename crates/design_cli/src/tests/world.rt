ghost use Rattle.std.specs.Prelude.{◌≡◌, IfOk, codes};
ghost use Rattle.design_world.specs.Files.{HasNamed};
ghost use Rattle.design_world.specs.InMemory.{files_of};

use design_world::{
    Content, Folder, HostFolder, HostSink, HostSource, MemoryFile, MemoryFolder, MemorySink,
    MemorySource, Sink, Source, WorldFault, put_all,
};
use order_core::{List, Text};
use std::alloc::{AllocError, Global};
use std::io::{self, ErrorKind, Read, Write};
use std::process::Abort;
use std::test::Fail;
use std::{env, fs};

fn text(alloc: Global, name: &str) -> Result<Text, AllocError>
    ensures { IfOk result (λ text. text ≡ name.now) }
{
    Ok(Text::of(String::from_str(alloc, name)?))
}

fn bytes(alloc: Global, items: &[u8]) -> Result<List<u8>, AllocError> {
    Ok(List::of(Vec::from_slice(alloc, items)?))
}

fn numbers(alloc: Global, items: &[u64]) -> Result<List<u64>, AllocError> {
    Ok(List::of(Vec::from_slice(alloc, items)?))
}

fn file(alloc: Global, name: &str, items: &[u8]) -> Result<MemoryFile, AllocError>
    ensures { IfOk result (λ file. file.name ≡ name.now) }
{
    Ok(MemoryFile {
        name: text(alloc, name)?,
        bytes: bytes(alloc, items)?,
    })
}

/// A folder whose first and third files are both named "a", and whose call 1 fails.
fn folder(alloc: Global) -> Result<MemoryFolder, AllocError>
    ensures { IfOk result (λ folder. HasNamed (files_of folder.files) (codes "a")) }
{
    let first = file(alloc, "a", &[1, 2, 3])?;
    let second = file(alloc, "b", &[])?;
    let third = file(alloc, "a", &[9])?;
    Ok(MemoryFolder {
        files: List::of(vec![in alloc; first, second, third]?),
        failing: numbers(alloc, &[1])?,
        calls: 0,
        failed: 0,
    })
}

fn expect_whole(rt: &impl Abort, content: &Content, want: &[u8]) {
    match content {
        Content::Whole(bytes) => assert_eq!(rt; bytes.items(), want),
        Content::Longer => assert!(rt; false, "longer than the limit"),
    }
}

#[test]
fn names_in_memory(rt: HostRuntime) -> Result<(), Fail> {
    let alloc = rt.alloc();
    let mut folder = folder(alloc)?;
    let names = folder.list(alloc, "any")?;
    let mut listed = String::new(alloc);
    for name in names.items() {
        listed.push_str(name.as_str())?;
    }
    assert_eq!(rt; listed.as_str(), "aba");
    assert!(rt; matches!(folder.list(alloc, "any"), Err(WorldFault::Failed)));
    assert_eq!(rt; (folder.calls, folder.failed), (2, 1));
    Ok(())
}

#[test]
fn contents_in_memory(rt: HostRuntime) -> Result<(), Fail> {
    let alloc = rt.alloc();
    let mut folder = folder(alloc)?;
    let name = text(alloc, "a")?;
    let at_limit = folder.read(alloc, "any", &name, 3)?;
    let failed = folder.read(alloc, "any", &name, 3);
    let above = folder.read(alloc, "other", &name, 2)?;
    expect_whole(&rt, &at_limit, &[1, 2, 3]);
    assert!(rt; matches!(failed, Err(WorldFault::Failed)));
    assert!(rt; matches!(above, Content::Longer));
    assert_eq!(rt; (folder.calls, folder.failed), (3, 1));
    Ok(())
}

#[test]
fn a_source_in_memory(rt: HostRuntime) -> Result<(), Fail> {
    let alloc = rt.alloc();
    let mut source = MemorySource {
        bytes: bytes(alloc, &[1, 2, 3, 4, 5])?,
        piece: 2,
        failing: numbers(alloc, &[1])?,
        calls: 0,
        failed: 0,
    };
    assert_eq!(rt; source.take(alloc, 3)?.items(), [1, 2].as_slice());
    assert!(rt; matches!(source.take(alloc, 3), Err(WorldFault::Failed)));
    assert_eq!(rt; source.take(alloc, 1)?.items(), [3].as_slice());
    assert_eq!(rt; source.take(alloc, 3)?.items(), [4, 5].as_slice());
    assert!(rt; source.take(alloc, 3)?.items().is_empty());
    assert_eq!(rt; (source.calls, source.failed), (5, 1));
    Ok(())
}

#[test]
fn a_sink_in_memory(rt: HostRuntime) -> Result<(), Fail> {
    let alloc = rt.alloc();
    let mut sink = MemorySink {
        written: bytes(alloc, &[])?,
        piece: 4,
        failing: numbers(alloc, &[1])?,
        calls: 0,
        failed: 0,
    };
    let digits = b"0123456789".as_slice();
    assert_eq!(rt; put_all(alloc, &mut sink, digits), Err(WorldFault::Failed));
    assert_eq!(rt; sink.written.items(), b"0123".as_slice());
    assert_eq!(rt; put_all(alloc, &mut sink, digits), Ok(()));
    assert_eq!(rt; sink.written.items(), b"01230123456789".as_slice());
    assert_eq!(rt; put_all(alloc, &mut sink, &[]), Ok(()));
    assert_eq!(rt; (sink.calls, sink.failed), (5, 1));
    assert_eq!(rt; sink.put(alloc, b"ab"), Ok(2));
    Ok(())
}

#[test]
fn a_folder_of_the_host(rt: HostRuntime) -> Result<(), Fail> {
    let alloc = rt.alloc();
    let place = format!(in alloc;
        "{}/design_world_{}",
        env::temp_dir(&rt)?.display(),
        std::process::id(rt.process())
    )?;
    fs::create_dir(&rt, place.as_str())?;
    let inner = format!(in alloc; "{}/inner", place.as_str())?;
    fs::create_dir(&rt, inner.as_str())?;
    let one = format!(in alloc; "{}/one", place.as_str())?;
    fs::write(&rt, one.as_str(), "abc")?;

    let mut folder = HostFolder { rt: &rt, failed: 0 };
    let names = folder.list(alloc, place.as_str())?;
    assert_eq!(rt; names.items().len(), 1);
    assert_eq!(rt; names.items()[0].as_str(), "one");
    let name = text(alloc, "one")?;
    expect_whole(&rt, &folder.read(alloc, place.as_str(), &name, 3)?, b"abc");
    expect_whole(
        &rt,
        &folder.read(alloc, place.as_str(), &name, u64::MAX)?,
        b"abc",
    );
    assert!(rt;
        matches!(
            folder.read(alloc, place.as_str(), &name, 2),
            Ok(Content::Longer)
        )
    );

    fs::remove_dir_all(&rt, place.as_str())?;
    assert!(rt; matches!(folder.list(alloc, place.as_str()), Err(WorldFault::Failed)));
    assert!(rt;
        matches!(
            folder.read(alloc, place.as_str(), &name, 3),
            Err(WorldFault::Failed)
        )
    );
    assert_eq!(rt; folder.failed, 2);
    Ok(())
}

/// A stream whose reads fail, and which takes no byte.
#[derive(Drop)]
struct Broken;

impl Read for Broken {
    fn read(&mut self, _buf: &mut [u8]) -> io::Result<usize> {
        Err(io::Error::from(ErrorKind::Other))
    }
}

impl Write for Broken {
    fn write(&mut self, _buf: &[u8]) -> io::Result<usize> {
        Ok(0)
    }

    fn flush(&mut self) -> io::Result<()> {
        Ok(())
    }
}

#[test]
fn streams_of_the_host(rt: HostRuntime) -> Result<(), Fail> {
    let alloc = rt.alloc();
    let mut source = HostSource {
        from: b"abc".as_slice(),
        failed: 0,
    };
    assert_eq!(rt; source.take(alloc, 2)?.items(), b"ab".as_slice());
    assert_eq!(rt; source.take(alloc, u64::MAX)?.items(), b"c".as_slice());
    assert!(rt; source.take(alloc, 2)?.items().is_empty());
    assert_eq!(rt; source.failed, 0);

    let mut sink = HostSink {
        to: Vec::new(alloc),
        failed: 0,
    };
    assert_eq!(rt; put_all(alloc, &mut sink, b"abc"), Ok(()));
    assert_eq!(rt; sink.to.as_slice(), b"abc".as_slice());

    let mut broken = HostSource {
        from: Broken,
        failed: 0,
    };
    assert!(rt; matches!(broken.take(alloc, 2), Err(WorldFault::Failed)));
    let mut full = HostSink {
        to: Broken,
        failed: u64::MAX,
    };
    assert_eq!(rt; full.put(alloc, b"a"), Err(WorldFault::Failed));
    assert_eq!(rt; (broken.failed, full.failed), (1, u64::MAX));
    Ok(())
}
