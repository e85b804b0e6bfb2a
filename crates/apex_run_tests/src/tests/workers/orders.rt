//! Orders of calls that gates force.
use crate::tests::texts::{REDUCED, SENDER, WAITING_RECEIVER};
use crate::tests::workers::gates::After;
use crate::tests::workers::runs_left::{DSP, FMS, Left, run_leaves};
use std::test::Fail;

/// The replies to FMS.
const SENT: &str = "NO_ERROR id 1\nNO_ERROR\nNO_ERROR\n";

#[test]
fn a_receive_after_the_send(rt: HostRuntime) -> Result<(), Fail> {
    let gate = After::new((DSP, 3), (FMS, 3));
    let left = Left {
        replies: &[SENT, "NO_ERROR id 1\nNO_ERROR\nNO_ERROR message 01\n"],
        totals: "partition FMS mode NORMAL calls 3
partition DSP mode NORMAL calls 3
queuing NAV accepted 1 received 1 waiting 0
",
    };
    run_leaves(&rt, REDUCED, &[SENDER, WAITING_RECEIVER], &gate, left)
}

#[test]
fn a_receive_before_the_send(rt: HostRuntime) -> Result<(), Fail> {
    let gate = After::new((FMS, 3), (DSP, 3));
    let left = Left {
        replies: &[SENT, "NO_ERROR id 1\nNO_ERROR\nNOT_AVAILABLE\n"],
        totals: "partition FMS mode NORMAL calls 3
partition DSP mode NORMAL calls 3
queuing NAV accepted 1 received 0 waiting 1 01
",
    };
    run_leaves(&rt, REDUCED, &[SENDER, WAITING_RECEIVER], &gate, left)
}
