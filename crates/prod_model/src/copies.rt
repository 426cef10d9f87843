//! Copies of data, lists too.
ghost use Rattle.std.specs.Prelude.{◌≡◌, IfOk};

use crate::expr::Expr;
use crate::model::{
    AttrAt, AttrDecl, CountBound, Criterion, Domain, Model, PortAt, PortDecl, Request, Rule,
    Tables, TypeDecl,
};
use crate::name::Name;
use crate::port_rows::PortRows;
use sqlite_items::Items;
use std::alloc::{AllocError, Global};

/// What can be copied, and lists of it. `Clone` can't be derived here, since `Items` has none.
pub(crate) trait Copies: Drop {
    fn copy(&self, alloc: Global) -> Result<Self, AllocError>
        ensures { IfOk result (λ c. c ≡ self.now) };
}

impl<T: Copies> Copies for Items<T> {
    fn copy(&self, alloc: Global) -> Result<Items<T>, AllocError> {
        copy_slice(alloc, self.as_slice())
    }
}

impl<T: Copies> Copies for Option<T> {
    fn copy(&self, alloc: Global) -> Result<Option<T>, AllocError> {
        match self {
            Some(value) => Ok(Some(value.copy(alloc)?)),
            None => Ok(None),
        }
    }
}

pub(crate) fn copy_slice<T: Copies>(alloc: Global, items: &[T]) -> Result<Items<T>, AllocError>
    ensures { IfOk result (λ c. c ≡ items.now) }
{
    let mut copies = Items::new(alloc);
    for item in items {
        copies.push(item.copy(alloc)?)?;
    }
    Ok(copies)
}

impl Copies for Name {
    fn copy(&self, alloc: Global) -> Result<Name, AllocError> {
        Name::copy(self, alloc)
    }
}

impl Copies for Expr {
    fn copy(&self, alloc: Global) -> Result<Expr, AllocError> {
        Expr::copy(self, alloc)
    }
}

impl Copies for Domain {
    fn copy(&self, alloc: Global) -> Result<Domain, AllocError> {
        Domain::copy(self, alloc)
    }
}

impl Copies for AttrDecl {
    fn copy(&self, alloc: Global) -> Result<AttrDecl, AllocError> {
        Ok(AttrDecl {
            name: self.name.copy(alloc)?,
            domain: self.domain.copy(alloc)?,
        })
    }
}

impl Copies for PortDecl {
    fn copy(&self, alloc: Global) -> Result<PortDecl, AllocError> {
        Ok(PortDecl {
            name: self.name.copy(alloc)?,
            kind: self.kind,
            target: self.target,
            low: self.low,
            high: self.high,
            inverse: self.inverse.copy(alloc)?,
        })
    }
}

impl Copies for TypeDecl {
    fn copy(&self, alloc: Global) -> Result<TypeDecl, AllocError> {
        Ok(TypeDecl {
            name: self.name.copy(alloc)?,
            parent: self.parent,
            attributes: self.attributes.copy(alloc)?,
            ports: self.ports.copy(alloc)?,
        })
    }
}

impl Copies for CountBound {
    fn copy(&self, _alloc: Global) -> Result<CountBound, AllocError> {
        Ok(*self)
    }
}

impl Copies for Rule {
    fn copy(&self, alloc: Global) -> Result<Rule, AllocError> {
        Ok(Rule {
            name: self.name.copy(alloc)?,
            kind: self.kind,
            holds: self.holds.copy(alloc)?,
        })
    }
}

impl Copies for Model {
    fn copy(&self, alloc: Global) -> Result<Model, AllocError> {
        Ok(Model {
            root: self.root,
            instances: self.instances,
            types: self.types.copy(alloc)?,
            bounds: self.bounds.copy(alloc)?,
            rules: self.rules.copy(alloc)?,
        })
    }
}

impl Copies for AttrAt {
    fn copy(&self, alloc: Global) -> Result<AttrAt, AllocError> {
        Ok(AttrAt {
            id: self.id,
            domain: self.domain.copy(alloc)?,
        })
    }
}

impl Copies for PortAt {
    fn copy(&self, _alloc: Global) -> Result<PortAt, AllocError> {
        Ok(*self)
    }
}

fn copy_rows(alloc: Global, rows: &[Items<PortAt>]) -> Result<PortRows, AllocError>
    ensures { IfOk result (λ c. c ≡ rows.now) }
{
    let mut copies = PortRows::new(alloc);
    for row in rows {
        copies.push(row.copy(alloc)?)?;
    }
    Ok(copies)
}

impl Copies for Tables {
    fn copy(&self, alloc: Global) -> Result<Tables, AllocError> {
        Ok(Tables {
            attributes: self.attributes.copy(alloc)?,
            ports: copy_rows(alloc, self.ports.as_slice())?,
        })
    }
}

impl Copies for Request {
    fn copy(&self, alloc: Global) -> Result<Request, AllocError> {
        Ok(Request {
            name: self.name.copy(alloc)?,
            holds: self.holds.copy(alloc)?,
        })
    }
}

impl Copies for Criterion {
    fn copy(&self, alloc: Global) -> Result<Criterion, AllocError> {
        Ok(Criterion {
            name: self.name.copy(alloc)?,
            maximise: self.maximise,
            value: self.value.copy(alloc)?,
        })
    }
}
