//! The remarks on a trace that has ended.
ghost use Rattle.std.specs.Prelude.{◌≡◌, ◌<◌, ◌++◌, length, IfOk, OnOk};
ghost use Rattle.dekarino_texts.specs.Prelude.{ports_of, name_of_partition};
ghost use Rattle.dekarino_texts.specs.Notes.{ArePortsNoted};
ghost use Rattle.dekarino_texts.specs.Remarks.{is_unread, port_remark, port_remarks, partition_remarks, waiting_remark, channel_remarks};

use crate::notes::Notes;
use crate::port_notes::PortNotes;
use crate::remark::Remark;
use apex_module::Port;
use apex_ports::Ports;
use apex_types::{Direction, Name};
use std::alloc::AllocError;

/// All remarks, where these notes are of the calls that the ports have served.
pub(crate) fn remarks_of(ports: &Ports, notes: Notes) -> Result<Vec<Remark>, AllocError>
    requires noted { ArePortsNoted ports.now.history notes.ports }
    ensures { let config = ports.now.config in
        let history = ports.now.history in
        let noted = notes.earlier.items ++ notes.not_made.items in
        let on_ports = partition_remarks config history 0 config.partitions in
        let on_channels = channel_remarks config history 0 config.channels in
        IfOk result (λ remarks. remarks.items ≡ noted ++ on_ports ++ on_channels) }
{
    let mut notes = notes;
    let mut remarks = notes.earlier;
    remarks.append(&mut notes.not_made)?;
    push_partitions(&mut remarks, ports, &notes.ports)?;
    push_channels(&mut remarks, ports)?;
    Ok(remarks)
}

/// The remarks on the ports of all partitions.
fn push_partitions(
    remarks: &mut Vec<Remark>,
    ports: &Ports,
    notes: &PortNotes,
) -> Result<(), AllocError>
    requires noted { ArePortsNoted ports.now.history notes.now }
    ensures { let config = ports.now.config in
        OnOk result (remarks.new.items ≡ remarks.old.items
        ++ partition_remarks config ports.now.history 0 config.partitions) }
{
    for p in 0..ports.config().partitions() {
        push_ports(remarks, ports, notes, p)?;
    }
    Ok(())
}

/// The remarks on the ports of partition `p`.
fn push_ports(
    remarks: &mut Vec<Remark>,
    ports: &Ports,
    notes: &PortNotes,
    p: usize,
) -> Result<(), AllocError>
    requires noted { ArePortsNoted ports.now.history notes.now }
    requires partition { p < length ports.now.config.partitions }
    ensures { let config = ports.now.config in
        let name = name_of_partition config p in
        OnOk result (remarks.new.items ≡ remarks.old.items
        ++ port_remarks config ports.now.history p name 1 (ports_of config p)) }
{
    let config = ports.config();
    for index in 0..config.ports(p) {
        let id = index as u32 + 1;
        let port = config.port(p, id).unwrap();
        push_port(remarks, ports, notes, p, id, port)?;
    }
    Ok(())
}

/// The remarks on a port.
fn push_port(
    remarks: &mut Vec<Remark>,
    ports: &Ports,
    notes: &PortNotes,
    p: usize,
    id: u32,
    port: &Port,
) -> Result<(), AllocError>
    requires noted { ArePortsNoted ports.now.history notes.now }
    requires partition { p < length ports.now.config.partitions }
    requires channel { port.now.channel < length ports.now.config.channels }
    ensures { let config = ports.now.config in
        let name = name_of_partition config p in
        OnOk result (remarks.new.items ≡ remarks.old.items
        ++ port_remark config ports.now.history p name id port.now) }
{
    let partition = ports.config().partition_name(p);
    if !notes.is_created(p, id) {
        remarks.push(Remark::PortNotCreated {
            partition: partition.copy(),
            port: port.name.copy(),
        })?;
        return Ok(());
    }
    if !ports.created(p, id) {
        remarks.push(Remark::PortLost {
            partition: partition.copy(),
            port: port.name.copy(),
        })?;
    }
    if is_unread(ports, notes, p, id, port) {
        remarks.push(Remark::NoSampleRead {
            partition: partition.copy(),
            port: port.name.copy(),
        })?;
    }
    Ok(())
}

/// Whether no sample was read at a destination port, though one was written into its channel.
fn is_unread(ports: &Ports, notes: &PortNotes, p: usize, id: u32, port: &Port) -> bool
    requires noted { ArePortsNoted ports.now.history notes.now }
    requires channel { port.now.channel < length ports.now.config.channels }
    ensures { result ≡ is_unread ports.now.config ports.now.history p id port.now }
{
    port.direction == Direction::Destination
        && ports.last_sample(port.channel).is_some()
        && !notes.is_read(p, id)
}

/// The remarks on channels on which messages wait.
fn push_channels(remarks: &mut Vec<Remark>, ports: &Ports) -> Result<(), AllocError>
    ensures { let config = ports.now.config in
        OnOk result (remarks.new.items ≡ remarks.old.items
        ++ channel_remarks config ports.now.history 0 config.channels) }
{
    for c in 0..ports.config().channels() {
        let name = &ports.config().channel(c).name;
        push_waiting(remarks, name, ports.waiting_count(c))?;
    }
    Ok(())
}

/// The remark on a channel on which this number of messages wait.
fn push_waiting(remarks: &mut Vec<Remark>, name: &Name, count: usize) -> Result<(), AllocError>
    ensures { OnOk result (remarks.new.items
        ≡ remarks.old.items ++ waiting_remark name.now count) }
{
    if count != 0 {
        let channel = name.copy();
        remarks.push(Remark::MessagesWaiting { channel, count })?;
    }
    Ok(())
}
