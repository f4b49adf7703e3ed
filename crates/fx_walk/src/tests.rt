use super::*;
use fx_base::{Bytes, Elems, NoMemory};
use std::alloc::Global;
use std::test::Fail;

fn printed(alloc: Global, name: &[u8], value: i64) -> Result<Printed, NoMemory> {
    let mut text = Bytes::new(alloc);
    text.append(name)?;
    let mut values = Elems::new(alloc);
    values.push(value)?;
    Ok(Printed { name: text, values })
}

#[test]
fn a_run_of_callbacks_is_copied(rt: HostRuntime) -> Result<(), Fail> {
    let mut prints = Prints::new(rt.alloc());
    prints.push(printed(rt.alloc(), b"a", 7)?)?;
    prints.push(printed(rt.alloc(), b"c", -1)?)?;
    let mut name = Bytes::new(rt.alloc());
    name.append(b"note")?;
    let mut run = CallbackRun::new(rt.alloc());
    run.push(Called { name, prints })?;
    let copy = run.copy()?;
    assert!(rt; copy == run);
    let first = copy.nth(0).and_then(|called| called.prints.nth(0));
    assert_eq!(rt;
        first.map(|printed| printed.values.as_slice()),
        Some([7].as_slice())
    );
    assert!(rt; copy.nth(1).is_none());
    Ok(())
}
