//! A replay of two texts.
use crate::tests::readers::same::same;
use crate::tests::texts::REDUCED;
use apex_module::ConfigFault;
use apex_texts::{Fault, TraceFault, replay_text};
use std::test::Fail;

#[test]
fn two_texts_give_a_report(rt: HostRuntime) -> Result<(), Fail> {
    let report = replay_text(rt.alloc(), REDUCED.as_bytes(), b"1 FMS mode 3\n")?;
    let wanted = "1 1 FMS mode NO_ERROR
partition FMS mode NORMAL calls 1
partition DSP mode COLD_START calls 0
queuing NAV accepted 0 received 0 waiting 0
";
    same(&rt, report.as_str(), wanted);
    Ok(())
}

#[test]
fn the_first_faulty_text_is_answered(rt: HostRuntime) {
    let refused = replay_text(rt.alloc(), b"partition = []", b"x").err();
    same(&rt, &refused, &Some(Fault::Config(ConfigFault::Counts)));
}

#[test]
fn a_faulty_trace_is_answered(rt: HostRuntime) {
    let fault = TraceFault::Line { line: 2, fault: 2 };
    let refused = replay_text(rt.alloc(), REDUCED.as_bytes(), b"\nx").err();
    same(&rt, &refused, &Some(Fault::Trace(fault)));
}
