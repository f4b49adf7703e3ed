use fx_base::Proc;
use fx_check::check_job;
use fx_sched::{Moment, moments};
use fx_script::read_job;
use std::test::Fail;

const JOB: &str = "fenix 1
ranks 2
spares 1
separation 1
begin
end
schedule
step 2
rest 0
deliver 1 2
kill 1
notice 1 0
run 1000
stop
";

#[test]
fn a_schedule_is_its_events(rt: HostRuntime) -> Result<(), Fail> {
    let alloc = rt.alloc();
    let job = check_job(alloc, read_job(alloc, JOB.as_bytes())?)?;
    let happens = moments(alloc, &job)?;
    assert!(rt;
        happens.as_slice()
            == [
                Moment::Step(Proc(2)),
                Moment::Rest(Proc(0)),
                Moment::Deliver(Proc(1), Proc(2)),
                Moment::Kill(Proc(1)),
                Moment::Notice(Proc(1), Proc(0)),
                Moment::Run(1000),
            ]
            .as_slice()
    );
    Ok(())
}
