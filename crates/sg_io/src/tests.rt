use crate::{
    Failed, MemSink, MemSource, Sink, Source, StdSink, StdSource, SteadySink, SteadySource,
};
use sg_num::Row;
use std::alloc::{AllocError, Global};
use std::io;
use std::io::{ErrorKind, Read};
use std::test::Fail;

fn row_of<T: Copy + Drop>(alloc: Global, items: &[T]) -> Result<Row<T>, AllocError> {
    let mut row = Row::new(alloc);
    for item in items {
        row.push(*item)?;
    }
    Ok(row)
}

#[test]
fn sink_takes_what_step_and_room_allow(rt: HostRuntime) -> Result<(), Fail> {
    let fails = row_of(rt.alloc(), &[2u32])?;
    let mut sink = MemSink::new(rt.alloc(), 6, 4, fails)?;
    assert_eq!(rt; sink.write(b"closed m"), Ok(4));
    assert_eq!(rt; sink.write(b"ed m"), Err(Failed));
    assert_eq!(rt; sink.held(), b"clos".as_slice());
    assert_eq!(rt; sink.faults(), 1);
    assert_eq!(rt; sink.write(b"ed m"), Ok(2));
    assert_eq!(rt; sink.write(b" m"), Err(Failed));
    assert_eq!(rt; sink.write(b""), Ok(0));
    assert_eq!(rt; sink.held(), b"closed".as_slice());
    assert_eq!(rt; sink.faults(), 2);
    Ok(())
}

#[test]
fn source_gives_what_step_and_buffer_allow(rt: HostRuntime) -> Result<(), Fail> {
    let bytes = row_of(rt.alloc(), b"sum k")?;
    let fails = row_of(rt.alloc(), &[2u32])?;
    let mut source = MemSource::new(bytes, 2, fails);
    let mut buf = [0; 3];
    assert_eq!(rt; source.read(&mut buf), Ok(2));
    assert_eq!(rt; buf.as_slice(), b"su\0".as_slice());
    assert_eq!(rt; source.read(&mut buf), Err(Failed));
    assert_eq!(rt; source.faults(), 1);
    assert_eq!(rt; source.read(&mut buf[..1]), Ok(1));
    assert_eq!(rt; source.read(&mut buf), Ok(2));
    assert_eq!(rt; buf.as_slice(), b" k\0".as_slice());
    assert_eq!(rt; source.read(&mut buf), Ok(0));
    Ok(())
}

#[test]
fn steady_ones_never_fail(rt: HostRuntime) -> Result<(), Fail> {
    let mut source = SteadySource::new(row_of(rt.alloc(), b"sum")?);
    let mut buf = [0; 2];
    assert_eq!(rt; source.read(&mut buf), Ok(2));
    assert_eq!(rt; buf.as_slice(), b"su".as_slice());
    assert_eq!(rt; source.read(&mut buf), Ok(1));
    assert_eq!(rt; source.read(&mut buf), Ok(0));
    let mut sink = SteadySink::new();
    assert_eq!(rt; sink.write(b"sum"), Ok(3));
    assert_eq!(rt; source.faults(), 0);
    assert_eq!(rt; sink.faults(), 0);
    Ok(())
}

/// A reader that always fails.
#[derive(Drop)]
struct Broken;

impl Read for Broken {
    fn read(&mut self, _buf: &mut [u8]) -> io::Result<usize> {
        Err(io::Error::from(ErrorKind::BrokenPipe))
    }
}

#[test]
fn std_ones_pass_bytes_on(rt: HostRuntime) -> Result<(), Fail> {
    let mut source = StdSource::new(b"sum".as_slice());
    let mut buf = [0; 2];
    assert_eq!(rt; source.read(&mut buf), Ok(2));
    assert_eq!(rt; source.read(&mut buf), Ok(1));
    assert_eq!(rt; source.read(&mut buf), Ok(0));
    assert_eq!(rt; buf.as_slice(), b"mu".as_slice());
    let mut broken = StdSource::new(Broken);
    assert_eq!(rt; broken.read(&mut buf), Err(Failed));
    assert_eq!(rt; source.faults(), 0);
    assert_eq!(rt; broken.faults(), 1);

    let mut held = Vec::new(rt.alloc());
    let mut sink = StdSink::new(&mut held);
    assert_eq!(rt; sink.write(b"sum"), Ok(3));
    assert_eq!(rt; sink.faults(), 0);
    assert_eq!(rt; held.as_slice(), b"sum".as_slice());
    Ok(())
}

/// A full buffer takes nothing: that is a fault.
#[test]
fn a_writer_that_takes_nothing_has_failed(rt: HostRuntime) {
    let mut room = [0; 2];
    let mut sink = StdSink::new(room.as_mut_slice());
    assert_eq!(rt; sink.write(b"sum"), Ok(2));
    assert_eq!(rt; sink.write(b"m"), Err(Failed));
    assert_eq!(rt; sink.write(b""), Ok(0));
    assert_eq!(rt; sink.faults(), 1);
}
