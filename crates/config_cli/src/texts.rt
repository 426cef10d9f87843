// The lines of files that are refused.
ghost use Rattle.std.specs.Prelude.{◌≡◌, IfOk, IsTrue};
ghost use Rattle.file_values.specs.Places.{has_known_keys};
ghost use Rattle.config_cli.specs.Texts.{refused_text};

use model_reader::{Fault, write_place};
use std::alloc::{AllocError, Global};

/// `refused FILE CODE PLACE`. The fault is told by its number, in two digits after `F`.
#[tactic(auto, unfolding(crate::specs::Texts::refused_text))]
pub fn refused_text(alloc: Global, file: &str, fault: &Fault) -> Result<Vec<u8>, AllocError>
    requires { IsTrue (has_known_keys fault.now.place) }
    ensures { IfOk result
        (λ text. text.items ≡ refused_text file.now fault.now.code fault.now.place) }
{
    let number = fault.code.number();
    let place = write_place(alloc, fault.place.as_slice())?;
    let mut text = Vec::from_slice(alloc, b"refused ")?;
    text.extend_from_slice(file.as_bytes())?;
    text.extend_from_slice(b" F")?;
    text.push(b'0' + (number / 10) as u8)?;
    text.push(b'0' + (number % 10) as u8)?;
    text.push(b' ')?;
    text.extend_from_slice(&place)?;
    text.push(b'\n')?;
    Ok(text)
}
