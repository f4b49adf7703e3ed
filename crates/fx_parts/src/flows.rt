ghost use Rattle.std.specs.Prelude.{◌<◌, length, IfOk};

use fx_base::{Bytes, Role};
use fx_check::{Accepted, check_job};
use fx_flow::{At, Called, Flow, Printed, View};
use fx_script::read_job;
use std::alloc::Global;
use std::process::Abort;
use std::test::Fail;

// What is expected comes from a program written apart from this one. In a row a bar ends a line of
// the job, and a line feed says nothing.

const HEAD: &str = "
fenix 1|ranks 1|spares 0|separation 1|array a 3|array b 3|counter c|counter e|
callback f|let a + a 1|print a|endcallback|begin|";

const TAIL: &str = "|end|schedule|stop|";

fn seen(role: Role) -> View {
    View {
        role,
        rank: 0,
        size: 1,
        latest: [-1; 8],
    }
}

#[test]
fn survivors_run_their_callbacks(rt: HostRuntime) -> Result<(), Fail> {
    let job = accepted(&rt, rt.alloc(), "register f|register f|let b index")?;
    let mut flow = Flow::new(rt.alloc(), &job)?;
    let first = printed(rt.alloc(), &mut flow, &seen(Role::Initial))?;
    assert_eq!(rt; first.as_str(), "");
    for (role, text) in [
        (Role::Survivor, "f: a 1 1 1"),
        (Role::Survivor, "f: a 2 2 2"),
        (Role::Recovered, ""),
    ] {
        let told = told_behind(rt.alloc(), &mut flow, role)?;
        assert_eq!(rt; told.as_str(), text);
    }
    Ok(())
}

// What the callbacks of a flow print that goes back to the beginning of its body.
fn told_behind(alloc: Global, flow: &mut Flow, role: Role) -> Result<String, Fail> {
    flow.rewind(role);
    let run = flow.run_callbacks(&seen(role))?;
    let mut text = String::new(alloc);
    for called in run.as_slice() {
        add_called(alloc, &mut text, called)?;
    }
    Ok(text)
}

fn add_called(alloc: Global, text: &mut String, called: &Called) -> Result<(), Fail> {
    add_name(text, &called.name)?;
    text.push_str(": ")?;
    for printed in called.prints.as_slice() {
        add(alloc, text, printed)?;
    }
    Ok(())
}

// What a flow prints to its end, where each outward statement is passed.
fn printed(alloc: Global, flow: &mut Flow, view: &View) -> Result<String, Fail> {
    let mut text = String::new(alloc);
    for _ in 0..20_002 {
        match flow.at() {
            At::Finish => break,
            At::Outward => flow.pass(),
            At::Plain => {
                if let Some(printed) = flow.advance(view)? {
                    add(alloc, &mut text, &printed)?;
                }
            }
        }
    }
    Ok(text)
}

fn add_name(text: &mut String, name: &Bytes) -> Result<(), Fail> {
    for byte in name.as_slice() {
        text.push(char::from(*byte))?;
    }
    Ok(())
}

// Adds a name and its values.
fn add(alloc: Global, text: &mut String, printed: &Printed) -> Result<(), Fail> {
    add_name(text, &printed.name)?;
    for value in printed.values.as_slice() {
        let value = format!(in alloc; " {value}")?;
        text.push_str(value.as_str())?;
    }
    Ok(())
}

// The job of a body.
fn accepted(rt: &impl Abort, alloc: Global, body: &str) -> Result<Accepted, Fail> {
    let mut text = Bytes::new(alloc);
    for piece in [HEAD, body, TAIL] {
        for byte in piece.as_bytes() {
            match *byte {
                b'\n' => (),
                b'|' => text.push(b'\n')?,
                byte => text.push(byte)?,
            }
        }
    }
    assert!(rt; text.len() < 4096);
    Ok(check_job(alloc, read_job(alloc, text.as_slice())?)?)
}
