//! The ports of each type, as rows whose ports can be written in place.
ghost use Rattle.std.specs.Prelude.{◌≡◌, ◌<◌, [], ◌∷◌, ◌++◌, length, slice_get, slice_set, slice_index_or, OnOk, OnErr, OnSome};
ghost use Rattle.std.specs.Option.{option_copied};

use crate::model::PortAt;
use sqlite_items::Items;
use std::alloc::{AllocError, Global};
use std::marker::Model;

/// A row of ports for each type, seen as the list of the rows. Unlike a list of lists it lets a
/// port be replaced where it stands.
#[derive(Debug, Drop)]
pub struct PortRows {
    rows: Vec<Items<PortAt>>,
}

impl Model for PortRows {
    ghost use Rattle.std.specs.Prelude.{List};
    ghost use Rattle.prod_model.specs.declared.model.PortAt.{PortAt};

    ghost Value = { List (List PortAt) };

    ghost view = { λ r. r.rows.items };
}

impl PortRows {
    /// No rows.
    pub fn new(alloc: Global) -> PortRows
        ensures { result ≡ [] }
    {
        PortRows {
            rows: Vec::new(alloc),
        }
    }

    /// The rows in order.
    pub fn as_slice(&self) -> &[Items<PortAt>]
        ensures { result.now ≡ self.now }
    {
        self.rows.as_slice()
    }

    /// How many rows there are.
    pub fn len(&self) -> usize
        ensures { result ≡ length self.now }
    {
        self.rows.len()
    }

    /// The row at a place, if there is one.
    pub fn get(&self, at: usize) -> Option<&Items<PortAt>>
        ensures value { option_copied result ≡ slice_get self.now at }
        ensures within { OnSome result (at < length self.now) }
    {
        self.rows.get(at)
    }

    /// Puts a row at the end. `AllocError` where memory runs out, and then the rows stay.
    pub fn push(&mut self, row: Items<PortAt>) -> Result<(), AllocError>
        ensures ok { OnOk result (self.new ≡ self.old ++ row ∷ []) }
        ensures err { OnErr result (self.new ≡ self.old) }
    {
        self.rows.push(row)?;
        Ok(())
    }

    /// Replaces the port at a place of a type's row. It takes no memory, and one step.
    pub fn set(&mut self, kind: usize, place: usize, port: PortAt)
        requires known { kind < length self.old }
        requires within { place < length (slice_index_or self.old kind []) }
        ensures { self.new
            ≡ slice_set self.old kind (slice_set (slice_index_or self.old kind []) place port) }
    {
        self.rows[kind].set(place, port);
    }
}
