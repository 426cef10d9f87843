//! The small model that the tests are about.
ghost use Rattle.std.specs.Prelude.{◌≡◌, ◌∷◌, [], map, pos, neg_ℤ, IfOk};
ghost use Rattle.model_literals.specs.Literals.{name_of};
ghost use Rattle.expr_bounds.specs.steps.Sample.{box as box_decl, card as card_decl, blue as blue_decl, sample, sample_tables, range_at, colour_at, slot_at};

use model_literals::{
    Values, domain_of, model_of, one, port, range, two, type_literal, type_of, words,
};
use prod_model::{AttrAt, Domain, Items, Model, PortAt, PortKind, PortRows, Tables, TypeDecl};
use std::alloc::{AllocError, Global};

/// A model of three types with its tables.
#[derive(Drop)]
pub(crate) struct Sample {
    pub(crate) model: Model,
    pub(crate) tables: Tables,
    ghost same: { model ≡ sample },
    ghost own_tables: { tables ≡ sample_tables },
}

impl Sample {
    pub(crate) fn new(alloc: Global) -> Result<Sample, AllocError> {
        Ok(Sample {
            model: model(alloc)?,
            tables: tables(alloc)?,
        })
    }
}

fn model(alloc: Global) -> Result<Model, AllocError>
    ensures { IfOk result (λ m. m ≡ sample) }
{
    let types = three(alloc, box_type(alloc)?, card(alloc)?, blue(alloc)?)?;
    Ok(model_of(alloc, 0, 5, types))
}

fn box_type(alloc: Global) -> Result<TypeDecl, AllocError>
    ensures { IfOk result (λ d. d ≡ box_decl) }
{
    let attributes = [
        range(b"width", -4, 1_000_000),
        words(b"colour", &[b"red", b"green", b"blue"]),
    ];
    let slot = [port(b"slot", PortKind::Part, 1, 2, 3)];
    type_of(alloc, &type_literal(b"Box", None, &attributes, &slot))
}

fn card(alloc: Global) -> Result<TypeDecl, AllocError>
    ensures { IfOk result (λ d. d ≡ card_decl) }
{
    let attributes = [range(b"power", -5, 7), range(b"loss", -9, -3)];
    type_of(alloc, &type_literal(b"Card", None, &attributes, &[]))
}

fn blue(alloc: Global) -> Result<TypeDecl, AllocError>
    ensures { IfOk result (λ d. d ≡ blue_decl) }
{
    let colour = [words(b"colour", &[b"blue"])];
    let slot = [port(b"slot", PortKind::Part, 1, 2, 2)];
    type_of(alloc, &type_literal(b"Blue", Some(0), &colour, &slot))
}

fn tables(alloc: Global) -> Result<Tables, AllocError>
    ensures { IfOk result (λ t. t ≡ sample_tables) }
{
    let of_box = two(alloc, width(), colour(alloc, &[b"red", b"green", b"blue"])?)?;
    let of_card = two(alloc, of_range(2, -5, 7), of_range(3, -9, -3))?;
    let of_blue = two(alloc, width(), colour(alloc, &[b"blue"])?)?;
    let slots = one(alloc, of_slot(2, 3))?;
    let blue_slots = one(alloc, of_slot(2, 2))?;
    Ok(Tables {
        attributes: three(alloc, of_box, of_card, of_blue)?,
        ports: rows(alloc, slots, blue_slots)?,
    })
}

fn width() -> AttrAt
    ensures { result ≡ range_at 0 (neg_ℤ (pos 4)) (pos 1000000) }
{
    of_range(0, -4, 1_000_000)
}

fn of_range(id: u32, low: i64, high: i64) -> AttrAt
    ensures { result ≡ range_at id low high }
{
    AttrAt {
        id,
        domain: Domain::Range { low, high },
    }
}

fn colour(alloc: Global, words: &[&[u8]]) -> Result<AttrAt, AllocError>
    ensures { IfOk result (λ a. a ≡ colour_at (map (λ word. name_of word.now) words.now)) }
{
    let domain = domain_of(alloc, &Values::OneOf(words))?;
    Ok(AttrAt { id: 1, domain })
}

fn of_slot(low: u32, high: u32) -> PortAt
    ensures { result ≡ slot_at low high }
{
    PortAt {
        id: 0,
        kind: PortKind::Part,
        target: 1,
        low,
        high,
        inverse: None,
    }
}

/// The rows of the ports of the box, of the card and of the blue one.
fn rows(
    alloc: Global,
    slots: Items<PortAt>,
    blue_slots: Items<PortAt>,
) -> Result<PortRows, AllocError>
    ensures { IfOk result (λ rows. rows ≡ slots ∷ [] ∷ blue_slots ∷ []) }
{
    let mut rows = PortRows::new(alloc);
    rows.push(slots)?;
    rows.push(Items::new(alloc))?;
    rows.push(blue_slots)?;
    Ok(rows)
}

fn three<T: Drop>(alloc: Global, a: T, b: T, c: T) -> Result<Items<T>, AllocError>
    ensures { IfOk result (λ items. items ≡ a ∷ b ∷ c ∷ []) }
{
    let mut items = two(alloc, a, b)?;
    items.push(c)?;
    Ok(items)
}
