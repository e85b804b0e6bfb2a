//! The table of a configuration's ports, partition by partition, as data.
ghost use Rattle.std.specs.Prelude.{◌≡◌, ◌<◌, ◌++◌, length, map, IfOk, OnOk};
ghost use Rattle.dekarino_texts.specs.Prelude.{ports_of};
ghost use Rattle.dekarino_texts.specs.PortTable.{place_if, places_in, partners_of, row_data, port_rows, table_rows};

use apex_module::{Config, Port};
use std::alloc::{AllocError, Global};

/// A port, by its partition's number, from 0, and its identifier.
#[derive(Clone, Copy, Debug, Drop, PartialEq, Eq)]
pub struct PortPlace {
    pub partition: usize,
    pub id: u32,
}

/// A row of the table.
#[derive(Debug, Drop)]
pub enum TableRow {
    /// A partition, whose ports have the rows that follow.
    Partition {
        partition: usize,
    },
    /// A port, and the ports at the other end of its channel.
    Port {
        place: PortPlace,
        partners: Vec<PortPlace>,
    },
}

/// The table of a configuration's ports: a row for each partition, and after it one for each of its ports.
pub fn port_table(alloc: Global, config: &Config) -> Result<Vec<TableRow>, AllocError>
    ensures { IfOk result (λ rows. map row_data rows.items ≡ table_rows config.now) }
{
    let mut rows = Vec::new(alloc);
    for partition in 0..config.partitions() {
        rows.push(TableRow::Partition { partition })?;
        push_ports(&mut rows, config, partition)?;
    }
    Ok(rows)
}

/// Adds a row for each port of partition `p`.
fn push_ports(rows: &mut Vec<TableRow>, config: &Config, p: usize) -> Result<(), AllocError>
    requires { p < length config.now.partitions }
    ensures { OnOk result (map row_data rows.new.items
        ≡ map row_data rows.old.items ++ port_rows config.now p 1 (ports_of config.now p)) }
{
    for index in 0..config.ports(p) {
        let id = index as u32 + 1;
        let port = config.port(p, id).unwrap();
        let partners = partners_of(*rows.allocator(), config, port)?;
        rows.push(TableRow::Port {
            place: PortPlace { partition: p, id },
            partners,
        })?;
    }
    Ok(())
}

/// The ports at the other end of a port's channel, in the order of the partitions and their ports.
fn partners_of(alloc: Global, config: &Config, port: &Port) -> Result<Vec<PortPlace>, AllocError>
    ensures { IfOk result
        (λ places. places.items ≡ partners_of port.now 0 config.now.partitions) }
{
    let mut places = Vec::new(alloc);
    for p in 0..config.partitions() {
        push_partners(&mut places, config, port, p)?;
    }
    Ok(places)
}

/// Adds those of them that are ports of partition `p`.
fn push_partners(
    places: &mut Vec<PortPlace>,
    config: &Config,
    port: &Port,
    p: usize,
) -> Result<(), AllocError>
    requires { p < length config.now.partitions }
    ensures { OnOk result (places.new.items
        ≡ places.old.items ++ places_in port.now p 1 (ports_of config.now p)) }
{
    for index in 0..config.ports(p) {
        let id = index as u32 + 1;
        let other = config.port(p, id).unwrap();
        push_partner(places, port, p, id, other)?;
    }
    Ok(())
}

/// Adds the place of a port that is a partner.
fn push_partner(
    places: &mut Vec<PortPlace>,
    port: &Port,
    p: usize,
    id: u32,
    other: &Port,
) -> Result<(), AllocError>
    ensures { OnOk result (places.new.items
        ≡ places.old.items ++ place_if port.now p id other.now) }
{
    if other.channel == port.channel && other.direction != port.direction {
        places.push(PortPlace { partition: p, id })?;
    }
    Ok(())
}
