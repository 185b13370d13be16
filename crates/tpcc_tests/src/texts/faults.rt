//! The fault of a run that no case of the built program brings about.
use tpcc_program::ProgramFault;
use tpcc_run::RunFault;

#[test]
fn a_purse_that_is_missing_is_status_5(rt: HostRuntime) {
    let fault = ProgramFault::Run(RunFault::Missing);
    let line = fault.to_string(rt.alloc()).expect(&rt, "memory for a line");
    let seen = (line.as_str() == "fault 1 Missing", fault.status());
    drop(line);
    assert!(rt; seen == (true, 5));
}
