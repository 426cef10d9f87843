//! Writes the pieces of an instance's line.
ghost use Rattle.std.specs.Prelude.{◌≡◌, ◌++◌, map, length, IsTrue, OnOk};
ghost use Rattle.std.specs.List.{list_all, flat_map, zip};
ghost use Rattle.prod_model.specs.Taxonomy.{words_of};
ghost use Rattle.canonical_form.specs.steps.Pieces.{word_piece, value_piece, is_written_value, is_written, attribute_piece, port_piece};
ghost use Rattle.config_value.specs.Spelled.{is_word_place};

use crate::numbers::{put_numbers, put_signed};
use prod_model::{AttrAt, AttrDecl, Domain, Items, Name, PortDecl};
use std::alloc::AllocError;

/// Appends a word, by its place.
fn put_word(out: &mut Vec<u8>, words: &[Name], value: i64) -> Result<(), AllocError>
    requires { IsTrue (is_word_place (length words.now) value) }
    ensures { OnOk result (out.new.items ≡ out.old.items ++ word_piece words.now value) }
{
    out.extend_from_slice(words[value as usize].bytes())
}

/// Appends a value: a number, or one of the words of the first declaration.
fn put_value(
    out: &mut Vec<u8>,
    words: &[Name],
    domain: &Domain,
    value: i64,
) -> Result<(), AllocError>
    requires { IsTrue (is_written_value (length words.now) domain.now value) }
    ensures { OnOk result (out.new.items
        ≡ out.old.items ++ value_piece words.now domain.now value) }
{
    match domain {
        Domain::Range { .. } => put_signed(out, value),
        Domain::Words(_) => put_word(out, words, value),
    }
}

/// Appends an attribute with its value.
#[tactic(auto, unfolding(crate::specs::steps::Pieces::attribute_piece))]
fn put_attribute(
    out: &mut Vec<u8>,
    first: &AttrDecl,
    at: &AttrAt,
    value: i64,
) -> Result<(), AllocError>
    requires { IsTrue (is_written_value (length (words_of first.now.domain)) at.now.domain value) }
    ensures { OnOk result (out.new.items
        ≡ out.old.items ++ attribute_piece (first.now, (at.now, value))) }
{
    out.push(b' ')?;
    out.extend_from_slice(first.name.bytes())?;
    out.push(b'=')?;
    put_value(out, first.domain.words(), &at.domain, value)
}

/// Appends the attributes of an instance.
pub fn put_attributes(
    out: &mut Vec<u8>,
    firsts: &[&AttrDecl],
    attrs: &[AttrAt],
    values: &[i64],
) -> Result<(), AllocError>
    requires firsts { length firsts.now ≡ length attrs.now }
    requires values { length values.now ≡ length attrs.now }
    requires written { IsTrue (list_all is_written
        (zip (map (λ d. d.now) firsts.now) (zip attrs.now values.now))) }
    ensures { OnOk result (out.new.items ≡ out.old.items
        ++ flat_map attribute_piece
        (zip (map (λ d. d.now) firsts.now) (zip attrs.now values.now))) }
{
    for k in 0..attrs.len() {
        put_attribute(out, firsts[k], &attrs[k], values[k])?;
    }
    Ok(())
}

/// Appends a port with its links.
#[tactic(auto, unfolding(crate::specs::steps::Pieces::port_piece))]
fn put_port(out: &mut Vec<u8>, first: &PortDecl, links: &[u32]) -> Result<(), AllocError>
    ensures { OnOk result (out.new.items ≡ out.old.items ++ port_piece (first.now, links.now)) }
{
    out.push(b' ')?;
    out.extend_from_slice(first.name.bytes())?;
    out.push(b':')?;
    put_numbers(out, links)
}

/// Appends the ports of an instance.
pub fn put_ports(
    out: &mut Vec<u8>,
    firsts: &[&PortDecl],
    links: &[Items<u32>],
) -> Result<(), AllocError>
    requires { length firsts.now ≡ length links.now }
    ensures { OnOk result (out.new.items ≡ out.old.items
        ++ flat_map port_piece (zip (map (λ d. d.now) firsts.now) links.now)) }
{
    for k in 0..links.len() {
        put_port(out, firsts[k], links[k].as_slice())?;
    }
    Ok(())
}

#[cfg(test)]
mod tests {
    use super::*;
    use model_literals::{Values, attribute_of, domain_of, port, port_of, words};
    use prod_model::PortKind;
    use std::test::Fail;

    #[test]
    fn parts_links_by_commas(rt: HostRuntime) -> Result<(), Fail> {
        let wheel = port_of(rt.alloc(), &port(b"wheel", PortKind::Part, 0, 0, 3))?;
        let mut out = Vec::new(rt.alloc());
        put_port(&mut out, &wheel, &[])?;
        put_port(&mut out, &wheel, &[1])?;
        put_port(&mut out, &wheel, &[1, 2, 10])?;
        assert_eq!(rt; out.as_slice(), b" wheel: wheel:1 wheel:1,2,10".as_slice());
        Ok(())
    }

    #[test]
    fn writes_words_of_the_first_declaration(rt: HostRuntime) -> Result<(), Fail> {
        let alloc = rt.alloc();
        let first = attribute_of(alloc, &words(b"color", &[b"red", b"blue"]))?;
        let domain = domain_of(alloc, &Values::OneOf(&[b"blue"]))?;
        let at = AttrAt { id: 0, domain };
        let mut out = Vec::new(alloc);
        put_attribute(&mut out, &first, &at, 1)?;
        assert_eq!(rt; out.as_slice(), b" color=blue".as_slice());
        Ok(())
    }
}
