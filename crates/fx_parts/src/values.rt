use fx_base::{Bytes, Elems, Role, Sparse};
use fx_script::{Job, Stmt, read_job};
use fx_value::{Columns, Formula, Values, array_slot, counter_slot, is_array};
use fx_walk::View;
use std::alloc::Global;
use std::test::Fail;

const SOURCE: &str = "fenix 1
ranks 3
spares 0
separation 1
array a 4
array b 4
counter c
counter d
begin
group 0 0 0
set c 9223372036854775807
set d + c 2
let a * + index 3 rank
let b - a * index c
let a + * a a b
set d * d - size latest 0
let b + b - d index
end
schedule
stop
";

fn seen(role: Role, rank: u8) -> View {
    View {
        role,
        rank,
        size: 3,
        latest: [-1; 8],
    }
}

// The job's `let` and `set` lines.
fn computed(alloc: Global, job: &Job, view: &View, values: &mut Values) -> Result<(), Fail> {
    let names = job.names.as_slice();
    let mut columns = Columns::new(alloc);
    for statement in job.body.as_slice() {
        match statement {
            Stmt::Let { array, value, .. } => {
                let formula = Formula::new(alloc, names, value)?;
                let slot = array_slot(names, array.as_slice());
                values.set_computed(slot, &formula, view, &mut columns)?;
            }
            Stmt::Set { counter, value, .. } => {
                let value = Formula::new(alloc, names, value)?.value(view, values);
                values.set_counter(counter_slot(names, counter.as_slice()), value);
            }
            _ => {}
        }
    }
    Ok(())
}

#[test]
fn arrays_and_counters_are_computed(rt: HostRuntime) -> Result<(), Fail> {
    let job = read_job(rt.alloc(), SOURCE.as_bytes())?;
    for (rank, a, b) in [
        (
            0,
            [0, -9223372036854775807, 2, -9223372036854775805],
            [4, -9223372036854775804, 4, -9223372036854775804],
        ),
        (
            1,
            [12, -9223372036854775787, 32, -9223372036854775763],
            [7, -9223372036854775800, 9, -9223372036854775798],
        ),
        (
            2,
            [42, -9223372036854775735, 112, -9223372036854775649],
            [10, -9223372036854775796, 14, -9223372036854775792],
        ),
    ] {
        let mut values = Values::new(rt.alloc(), job.names.as_slice())?;
        computed(rt.alloc(), &job, &seen(Role::Initial, rank), &mut values)?;
        assert_eq!(rt; values.array(0), a.as_slice());
        assert_eq!(rt; values.array(1), b.as_slice());
        assert_eq!(rt; values.counter(0), 9223372036854775807);
        assert_eq!(rt; values.counter(1), 4);
    }
    Ok(())
}

fn filled(alloc: Global, job: &Job) -> Result<Values, Fail> {
    let mut name = Bytes::new(alloc);
    name.append(b"note")?;
    let mut some = Sparse::new(alloc);
    some.put(1, 7)?;
    some.put(3, 9)?;
    let mut values = Values::new(alloc, job.names.as_slice())?;
    values.set_array(0, repeated(alloc, 5)?);
    values.set_array(1, repeated(alloc, 6)?);
    values.set_counter(1, 8);
    values.write_some(0, &some);
    values.register(&name)?;
    values.register(&name)?;
    Ok(values)
}

#[test]
fn a_role_keeps_what_it_keeps(rt: HostRuntime) -> Result<(), Fail> {
    let job = read_job(rt.alloc(), SOURCE.as_bytes())?;
    for (role, a, b, callbacks) in [
        (Role::Survivor, [5, 7, 5, 9], [6; 4], 1),
        (Role::Recovered, [0; 4], [0; 4], 0),
        (Role::Initial, [0; 4], [0; 4], 0),
    ] {
        let mut values = filled(rt.alloc(), &job)?;
        values.reset(role);
        assert_eq!(rt; values.array(0), a.as_slice());
        assert_eq!(rt; values.array(1), b.as_slice());
        assert_eq!(rt; values.counter(1), 0);
        assert_eq!(rt; values.callbacks().len(), callbacks);
    }
    Ok(())
}

fn repeated(alloc: Global, value: i64) -> Result<Elems, Fail> {
    let mut elements = Elems::new(alloc);
    for _ in 0..4 {
        elements.push(value)?;
    }
    Ok(elements)
}

#[test]
fn names_have_slots(rt: HostRuntime) -> Result<(), Fail> {
    let job = read_job(rt.alloc(), SOURCE.as_bytes())?;
    let names = job.names.as_slice();
    for (name, array, counter, is_of_array) in [
        ("a", 0, 2, true),
        ("b", 1, 2, true),
        ("d", 2, 1, false),
    ] {
        assert_eq!(rt; array_slot(names, name.as_bytes()), array);
        assert_eq!(rt; counter_slot(names, name.as_bytes()), counter);
        assert_eq!(rt; is_array(names, name.as_bytes()), is_of_array);
    }
    Ok(())
}
