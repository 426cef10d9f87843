//! The JSON value of a file.
ghost use Rattle.std.specs.Prelude.{◌≡◌, [], IfOk, IfErr};
ghost use Rattle.serde_json.specs.View.{view};
ghost use Rattle.file_values.specs.declared.fault.FaultCode.TheVariants.{TooLong, NoJson};
ghost use Rattle.file_meaning.specs.declared.refusal.Refusal.TheVariants.{Fault as refused_by};
ghost use Rattle.file_meaning.specs.Faults.{fault};
ghost use Rattle.model_reader.specs.Files.{IsValueOfFile, IsRefusalOfBytes};

use file_meaning::Refusal;
use file_values::{Fault, FaultCode};
use prod_model::Items;
use prod_model::limits::MOST_FILE_BYTES;
use serde_json::Value;
use std::alloc::{AllocError, Global};

/// The refusal of a file with more than 4,194,304 bytes.
pub fn too_long(alloc: Global) -> Refusal
    ensures { result ≡ refused_by (fault TooLong []) }
{
    Refusal::Fault(Fault {
        code: FaultCode::TooLong,
        place: Items::new(alloc),
    })
}

/// The refusal of a file that is no JSON text.
fn no_json(alloc: Global) -> Refusal
    ensures { result ≡ refused_by (fault NoJson []) }
{
    Refusal::Fault(Fault {
        code: FaultCode::NoJson,
        place: Items::new(alloc),
    })
}

/// The value of a file.
///
/// # Errors
///
/// `TooLong` comes where the file has more than 4,194,304 bytes, and `NoJson` where it has no more
/// and is no JSON text. `Memory` where memory runs out.
pub fn value_of(alloc: Global, bytes: &[u8]) -> Result<Value, Refusal>
    ensures value { IfOk result (λ v. IsValueOfFile bytes.now (view v)) }
    ensures fault { IfErr result (IsRefusalOfBytes bytes.now) }
{
    if bytes.len() > MOST_FILE_BYTES {
        return Err(too_long(alloc));
    }
    match Value::from_slice(alloc, bytes) {
        Ok(value) => Ok(value),
        Err(e) if e.is_memory() => Err(Refusal::Memory(AllocError)),
        Err(_) => Err(no_json(alloc)),
    }
}
