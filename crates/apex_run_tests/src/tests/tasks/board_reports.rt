//! The report of a board: first the lines of the calls that it answered, and then those of its partitions and channels.
use crate::tests::texts::REDUCED;
use apex_board::Board;
use apex_config::ReadConfig;
use apex_module::Config;
use apex_types::{Call, Message, Moment, Name};
use apex_workers::report;
use std::alloc::Global;
use std::process::Abort;
use std::sync::Wait;
use std::test::Fail;

/// The report after the first partition has created its port, entered NORMAL and sent a message.
fn report_after_calls<R: Abort + Wait>(
    rt: &R,
    alloc: Global,
    board: &mut Board,
) -> Result<String, Fail> {
    assert!(rt; board.config().partitions() == 2);
    let create = Call::CreateQueuing {
        name: Name::read("NAV_OUT")?,
        size: 4,
        depth: 2,
        direction: 0,
        discipline: 0,
    };
    board.call(rt, 0, Moment(1), &create)?;
    board.call(rt, 0, Moment(2), &Call::SetMode { mode: 3 })?;
    let send = Call::SendQueuing {
        id: 1,
        message: Message::from_hex("01")?,
    };
    board.call(rt, 0, Moment(3), &send)?;
    Ok(report(alloc, board)?)
}

#[test]
fn a_board_reports_its_log(rt: HostRuntime) -> Result<(), Fail> {
    let config = Config::read(rt.alloc(), REDUCED.as_bytes())?;
    let mut board = Board::new(&rt, rt.alloc(), config)?;
    let text = report_after_calls(&rt, rt.alloc(), &mut board);
    board.close(&rt);
    let wanted = "1 1 FMS create-queuing NO_ERROR id 1
2 2 FMS mode NO_ERROR
3 3 FMS send NO_ERROR
partition FMS mode NORMAL calls 3
partition DSP mode COLD_START calls 0
queuing NAV accepted 1 received 0 waiting 1 01
";
    assert_eq!(rt; text?.as_str(), wanted);
    Ok(())
}
