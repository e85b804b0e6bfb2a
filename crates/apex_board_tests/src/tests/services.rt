//! Each service of the ports by its name, once with what it is for.
use crate::tests::boards::{config_of, holds};
use apex_ports::{Ports, ReplyRef};
use apex_types::{Direction, Moment, Name, ReturnCode, Validity};
use std::alloc::{AllocGlobal, Allocator};
use std::process::Abort;
use std::test::Fail;

const AT: Moment = Moment(5);

const FMS: usize = 0;

const DSP: usize = 1;

const AIR: usize = 2;

fn is_done(reply: ReplyRef<'_>) -> bool {
    matches!(reply, ReplyRef::Code(ReturnCode::NoError))
}

// A message is sent, and received or cleared.
fn queuing_services<A: Allocator>(
    rt: &impl Abort,
    ports: &mut Ports<A>,
    source: &Name,
    destination: &Name,
) {
    assert!(rt; 2 < ports.config().partitions());
    let made = ports.create_queuing(FMS, AT, source, 4, 2, 0, 0);
    holds(rt, matches!(made, ReplyRef::Id(1)), 1);
    let made = ports.create_queuing(DSP, AT, destination, 4, 2, 1, 0);
    holds(rt, matches!(made, ReplyRef::Id(1)), 2);
    holds(rt, is_done(ports.set_mode(DSP, AT, 3)), 3);
    let found = ports.queuing_id(DSP, AT, destination);
    holds(rt, matches!(found, ReplyRef::Id(1)), 4);
    holds(rt, is_done(ports.send(FMS, AT, 1, &[10])), 5);
    holds(rt, is_done(ports.send(FMS, AT, 1, &[11])), 6);
    let mut buffer = [0; 4];
    assert!(rt; ports.size_at(DSP, 1) <= buffer.len());
    let received = ports.receive(DSP, AT, 1, &mut buffer);
    holds(rt, received == Ok(1) && buffer == [10, 0, 0, 0], 7);
    let status = ports.queuing_status(DSP, AT, 1);
    let wanted = matches!(
        status,
        ReplyRef::QueuingStatus {
            waiting: 1,
            depth: 2,
            size: 4,
            direction: Direction::Destination,
        }
    );
    holds(rt, wanted, 8);
    holds(rt, is_done(ports.clear(DSP, AT, 1)), 9);
    assert!(rt; ports.size_at(DSP, 1) <= buffer.len());
    let received = ports.receive(DSP, AT, 1, &mut buffer);
    holds(rt, received == Err(Some(ReturnCode::NotAvailable)), 10);
}

// A sample is written and read.
fn sampling_services<A: Allocator>(
    rt: &impl Abort,
    ports: &mut Ports<A>,
    source: &Name,
    destination: &Name,
) {
    assert!(rt; 2 < ports.config().partitions());
    let made = ports.create_sampling(AIR, AT, source, 4, 0, 50);
    holds(rt, matches!(made, ReplyRef::Id(1)), 1);
    let made = ports.create_sampling(DSP, AT, destination, 4, 1, 50);
    holds(rt, matches!(made, ReplyRef::Id(2)), 2);
    let found = ports.sampling_id(DSP, AT, destination);
    holds(rt, matches!(found, ReplyRef::Id(2)), 3);
    holds(rt, is_done(ports.write(AIR, AT, 1, &[0, 255])), 4);
    let mut buffer = [7; 4];
    assert!(rt; ports.size_at(DSP, 2) <= buffer.len());
    let read = ports.read(DSP, Moment(56), 2, &mut buffer);
    let wanted = read == Ok((2, Validity::Invalid));
    holds(rt, wanted && buffer == [0, 255, 7, 7], 5);
    let status = ports.sampling_status(DSP, AT, 2);
    let wanted = matches!(
        status,
        ReplyRef::SamplingStatus {
            refresh: 50,
            size: 4,
            direction: Direction::Destination,
            last: Validity::Invalid,
        }
    );
    holds(rt, wanted, 6);
}

#[test]
fn services_of_queuing_ports(rt: HostRuntime) -> Result<(), Fail> {
    let mut ports = Ports::new(rt.alloc(), config_of(&rt)?)?;
    let (source, destination) = (Name::read("NAV_OUT")?, Name::read("NAV_IN")?);
    queuing_services(&rt, &mut ports, &source, &destination);
    Ok(())
}

#[test]
fn services_of_sampling_ports(rt: HostRuntime) -> Result<(), Fail> {
    let mut ports = Ports::new(rt.alloc(), config_of(&rt)?)?;
    let (source, destination) = (Name::read("SPD_OUT")?, Name::read("SPD_IN")?);
    sampling_services(&rt, &mut ports, &source, &destination);
    Ok(())
}
