//! The text of a place.
ghost use Rattle.std.specs.Prelude.{◌≡◌, ◌++◌, IsTrue, OnOk, IfOk};
ghost use Rattle.file_values.specs.Places.{is_known_key, has_known_keys, part_text, rest_text, place_text};

use crate::key::key_text;
use crate::part::Part;
use itoa::Buffer;
use std::alloc::{AllocError, Global};

/// The text of a place: `/` and its steps, joined with `/`. Each key that it has is one of the
/// list. `AllocError` where memory runs out.
pub fn write_place(alloc: Global, place: &[Part]) -> Result<Vec<u8>, AllocError>
    requires { IsTrue (has_known_keys place.now) }
    ensures { IfOk result (λ text. text.items ≡ place_text place.now) }
{
    let mut text = Vec::new(alloc);
    if place.is_empty() {
        text.push(b'/')?;
    } else {
        put_parts(&mut text, place)?;
    }
    Ok(text)
}

/// Appends each step behind a `/`.
fn put_parts(out: &mut Vec<u8>, parts: &[Part]) -> Result<(), AllocError>
    requires { IsTrue (has_known_keys parts.now) }
    ensures { OnOk result (out.new.items ≡ out.old.items ++ rest_text parts.now) }
{
    for part in parts {
        out.push(b'/')?;
        put_part(out, *part)?;
    }
    Ok(())
}

/// Appends a step: the text of a key, or a number in decimal digits.
fn put_part(out: &mut Vec<u8>, part: Part) -> Result<(), AllocError>
    requires { IsTrue (is_known_key part) }
    ensures { OnOk result (out.new.items ≡ out.old.items ++ part_text part) }
{
    match part {
        Part::Key(number) => out.extend_from_slice(key_text(number).as_bytes()),
        Part::At(index) => out.extend_from_slice(Buffer::new().format(index).as_bytes()),
    }
}
