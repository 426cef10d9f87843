//! A valid model and the questions about its types.
ghost use Rattle.std.specs.Prelude.{◌≡◌, ◌↔◌, IsTrue, IsSome, IfOk, ℕ, ◌<◌, length, slice_index_or, [], if◌then◌else◌, ◌&&◌};
ghost use Rattle.std.specs.Int.{bit_at};
ghost use Rattle.prod_model.specs.Forest.{is_a, is_leaf};
ghost use Rattle.prod_model.specs.Valid.{IsValid};
ghost use Rattle.prod_model.specs.Taxonomy.{tables_of, attributes_at, ports_at, attribute_of as attribute_at, port_of as port_at, first_words as words_at};
ghost use Rattle.std.specs.Option.{option_copied};
ghost use Rattle.prod_model.specs.TypeMasks.{IsMask};

use crate::copies::Copies;
use crate::model::{self, AttrAt, PortAt, Tables};
use crate::name::Name;
use crate::same::Same;
use crate::tables::{find_port, row};
use crate::type_masks::TypeMasks;
use sqlite_items::Items;
use std::alloc::{AllocError, Global};
use std::marker::Model;

/// A valid model with what is computed from it once: the attributes and ports of each type, and
/// masks of its types. Contracts see it as the model. Types are numbers, which count them from 0 in
/// file order.
#[derive(Drop)]
pub struct Problem {
    model: model::Model,
    tables: Tables,
    masks: TypeMasks,
}

impl Model for Problem {
    ghost use Rattle.prod_model.specs.declared.model.Model.{Model};
    ghost use Rattle.prod_model.specs.Problem.{IsProblem};
    ghost use Rattle.prod_model.specs.contracts.expr.Expr as e;
    ghost use Rattle.std.specs.Coded.{codes};

    ghost Value = { Model };

    ghost coded = { Prim.hlevel (codes, e.the_row.coded) };

    ghost view = { λ p. p.model };

    ghost invariant = { λ p. IsProblem p.model p.tables p.masks };
}

impl Problem {
    /// The problem of a valid model and its tables. The masks are computed here, so that no later
    /// call walks the forest.
    pub fn from_parts(model: model::Model, tables: Tables) -> Problem
        requires valid { IsValid model }
        requires tables { tables ≡ tables_of model }
        ensures model { result ≡ model }
        ensures valid { IsValid result }
    {
        let masks = TypeMasks::of(&model);
        Problem {
            model,
            tables,
            masks,
        }
    }

    /// The model, as it was given.
    pub fn model(&self) -> &model::Model
        ensures model { result.now ≡ self.now }
        ensures valid { IsValid self.now }
    {
        &self.model
    }

    /// Whether type `t` is the type `of`, or `of` is an ancestor of `t`.
    #[tactic(auto, using(crate::proofs::ValidModels::few_types))]
    pub fn is_a(&self, t: u32, of: u32) -> bool
        requires known { t < length self.now.types }
        requires known_other { of < length self.now.types }
        ensures { result ≡ is_a self.now t of }
    {
        self.masks.is_a(t, of)
    }

    /// Whether no type has type `t` as its parent. Only leaves have instances.
    #[tactic(auto, using(crate::proofs::ValidModels::few_types))]
    pub fn is_leaf(&self, t: u32) -> bool
        requires { t < length self.now.types }
        ensures { result ≡ is_leaf self.now t }
    {
        self.masks.is_leaf(t)
    }

    /// The leaves that are type `t` or under it, as a mask: bit k stands for the type of number k.
    #[tactic(auto, using(crate::proofs::ValidModels::few_types, std::proofs::lemmas::Nat::Bits::bit_at_and))]
    pub fn leaves_under(&self, t: u32) -> u128
        requires { t < length self.now.types }
        ensures { IsMask result (λ k. is_leaf self.now k && is_a self.now k t) }
    {
        self.masks.leaves_under(t)
    }

    /// The attributes and ports of all types.
    pub fn tables(&self) -> &Tables
        ensures { result.now ≡ tables_of self.now }
    {
        &self.tables
    }

    /// The attributes of type `t`: those of its parent in the parent's order, each narrowed as `t`
    /// declares, and then its new ones in file order.
    #[tactic(auto, using(crate::proofs::TaxonomyLaws::length_attributes, crate::proofs::TaxonomyLaws::attributes_row))]
    pub fn attrs_of(&self, t: u32) -> &[AttrAt]
        requires { t < length self.now.types }
        ensures { result.now ≡ attributes_at self.now t }
    {
        row_at(self.tables.attributes.as_slice(), t)
    }

    /// The ports of type `t`, in the same order as attributes.
    #[tactic(auto, using(crate::proofs::TaxonomyLaws::length_ports, crate::proofs::TaxonomyLaws::ports_row))]
    pub fn ports_of(&self, t: u32) -> &[PortAt]
        requires { t < length self.now.types }
        ensures { result.now ≡ ports_at self.now t }
    {
        row_at(self.tables.ports.as_slice(), t)
    }

    /// The attribute that type `t` has under the id. A number that is no type has nothing.
    pub fn attribute_of(&self, t: u32, id: u32) -> Option<&AttrAt>
        ensures { option_copied result ≡ attribute_at self.now t id }
    {
        self.tables.attribute_of(&self.model, t, id)
    }

    /// The port that type `t` has under the id. A number that is no type has nothing.
    #[tactic(auto, using(crate::proofs::Rows::ports_row))]
    pub fn port_of(&self, t: u32, id: u32) -> Option<&PortAt>
        ensures { option_copied result ≡ port_at self.now t id }
    {
        find_port(row(self.tables.ports.as_slice(), t), id)
    }

    /// The words of the first declaration of an attribute that type `t` has, and none where it is
    /// a range. The value of a word is its place in them.
    pub fn first_words(&self, t: u32, id: u32) -> &[Name]
        requires { IsSome (attribute_at self.now t id) }
        ensures { result.now ≡ words_at self.now id }
    {
        self.tables.first_words(&self.model, t, id)
    }

    /// Whether the two have the same model. The tables and masks follow from it.
    pub fn same(&self, other: &Problem) -> bool
        ensures { IsTrue result ↔ (self.now ≡ other.now) }
    {
        self.model.same(&other.model)
    }

    /// A copy of all parts, the masks too. `AllocError` where memory runs out.
    pub fn copy(&self, alloc: Global) -> Result<Problem, AllocError>
        ensures { IfOk result (λ p. p ≡ self.now) }
    {
        Ok(Problem {
            model: self.model.copy(alloc)?,
            tables: self.tables.copy(alloc)?,
            masks: self.masks,
        })
    }
}

/// The row of type `t`.
fn row_at<T>(rows: &[Items<T>], t: u32) -> &[T]
    requires { t < length rows.now }
    ensures { result.now ≡ slice_index_or rows.now t [] }
{
    rows[t as usize].as_slice()
}
