use super::*;
use fx_base::{Bytes, Elems};
use std::alloc::Global;
use std::test::Fail;

fn bytes_of(alloc: Global, text: &str) -> Result<Bytes, Fail> {
    let mut bytes = Bytes::new(alloc);
    bytes.append(text.as_bytes())?;
    Ok(bytes)
}

fn numbers(alloc: Global, number: i64) -> Result<Elems, Fail> {
    let mut list = Elems::new(alloc);
    list.push(number)?;
    Ok(list)
}

#[test]
fn a_source_is_read_whole_or_too_long(rt: HostRuntime) -> Result<(), Fail> {
    let alloc = rt.alloc();
    let mut source = SureSource::new(bytes_of(alloc, "fenix 1\n")?);
    match read_whole(alloc, &mut source, 8) {
        Ok(bytes) => assert_eq!(rt; bytes.as_slice(), b"fenix 1\n".as_slice()),
        Err(_) => assert!(rt; false, "it has no more than the limit"),
    }
    let mut long = SureSource::new(bytes_of(alloc, "fenix 1\n")?);
    let answer = read_whole(alloc, &mut long, 7);
    assert_eq!(rt; answer.err(), Some(WholeEnd::TooLong));
    Ok(())
}

#[test]
fn a_source_fails_at_its_second_call(rt: HostRuntime) -> Result<(), Fail> {
    let alloc = rt.alloc();
    let mut source = MemSource::new(bytes_of(alloc, "fenix 1\n")?, 3, numbers(alloc, 2)?);
    let mut buffer = [0u8; 8];
    assert_eq!(rt; source.read_some(&mut buffer), ReadStep::Got(3));
    assert_eq!(rt; source.read_some(&mut buffer), ReadStep::Failed);
    assert_eq!(rt; source.read_some(&mut buffer), ReadStep::Got(3));
    assert_eq!(rt; source.read_some(&mut buffer), ReadStep::Got(2));
    assert_eq!(rt; source.read_some(&mut buffer), ReadStep::End);
    Ok(())
}

#[test]
fn sinks_hold_what_was_written(rt: HostRuntime) -> Result<(), Fail> {
    let alloc = rt.alloc();
    let mut sure = SureSink::new(alloc);
    assert_eq!(rt; write_whole(&mut sure, b"ab"), Ok(()));
    assert_eq!(rt; write_whole(&mut sure, b"c"), Ok(()));
    assert_eq!(rt; sure.written().as_slice(), b"abc".as_slice());
    let mut failing = MemSink::new(alloc, numbers(alloc, 2)?);
    assert_eq!(rt; write_whole(&mut failing, b"ab"), Ok(()));
    assert_eq!(rt; write_whole(&mut failing, b"c"), Err(PutEnd::Failed));
    assert_eq!(rt; failing.written().as_slice(), b"ab".as_slice());
    Ok(())
}
