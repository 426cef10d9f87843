//! The tables, from what each type has.
ghost use Rattle.std.specs.Prelude.{◌≡◌, map, IfOk};
ghost use Rattle.prod_model.specs.Taxonomy.{declared_tables_of, made_attribute, made_port};
ghost use Rattle.type_taxonomy.specs.steps.Built.{IsBuilt};

use crate::entry::Entry;
use crate::forest::Forest;
use prod_model::{AttrAt, AttrDecl, Items, PortAt, PortDecl, PortRows, Tables};
use std::alloc::{AllocError, Global};

fn attributes_of(alloc: Global, row: &[Entry<AttrDecl>]) -> Result<Items<AttrAt>, AllocError>
    ensures { IfOk result (λ attributes. attributes
        ≡ map (λ e. made_attribute e.id e.declared.now) row.now) }
{
    let mut attributes = Items::new(alloc);
    for e in row {
        let domain = e.declared.domain.copy(alloc)?;
        attributes.push(AttrAt { id: e.id, domain })?;
    }
    Ok(attributes)
}

fn ports_of(alloc: Global, row: &[Entry<PortDecl>]) -> Result<Items<PortAt>, AllocError>
    ensures { IfOk result (λ ports. ports ≡ map (λ e. made_port e.id e.declared.now) row.now) }
{
    let mut ports = Items::new(alloc);
    for e in row {
        ports.push(PortAt {
            id: e.id,
            kind: e.declared.kind,
            target: e.declared.target,
            low: e.declared.low,
            high: e.declared.high,
            inverse: None,
        })?;
    }
    Ok(ports)
}

fn all_attributes(
    alloc: Global,
    rows: &[Items<Entry<AttrDecl>>],
) -> Result<Items<Items<AttrAt>>, AllocError>
    ensures { IfOk result (λ table. table
        ≡ map (map (λ e. made_attribute e.id e.declared.now)) rows.now) }
{
    let mut table = Items::new(alloc);
    for row in rows {
        table.push(attributes_of(alloc, row.as_slice())?)?;
    }
    Ok(table)
}

fn all_ports(alloc: Global, rows: &[Items<Entry<PortDecl>>]) -> Result<PortRows, AllocError>
    ensures { IfOk result (λ table. table
        ≡ map (map (λ e. made_port e.id e.declared.now)) rows.now) }
{
    let mut table = PortRows::new(alloc);
    for row in rows {
        table.push(ports_of(alloc, row.as_slice())?)?;
    }
    Ok(table)
}

/// The tables of the model. It copies each domain.
pub(crate) fn tables_of(alloc: Global, forest: &Forest) -> Result<Tables, AllocError>
    requires { IsBuilt forest.now }
    ensures { IfOk result (λ tables. tables ≡ declared_tables_of forest.now.model.now) }
{
    Ok(Tables {
        attributes: all_attributes(alloc, forest.attributes.as_slice())?,
        ports: all_ports(alloc, forest.ports.as_slice())?,
    })
}
