//! Writes numbers in decimal digits.
ghost use Rattle.std.specs.Prelude.{◌≡◌, ◌++◌, OnOk};
ghost use Rattle.std.specs.Fmt.{decimal, signed_decimal};
ghost use Rattle.canonical_form.specs.steps.Pieces.{numbers_piece};

use itoa::Buffer;
use std::alloc::AllocError;

/// Appends a number in decimal digits.
pub fn put_number(out: &mut Vec<u8>, n: u64) -> Result<(), AllocError>
    ensures { OnOk result (out.new.items ≡ out.old.items ++ decimal n) }
{
    let mut buffer = Buffer::new();
    out.extend_from_slice(buffer.format(n).as_bytes())
}

/// Appends a number in decimal digits, with `-` before a negative one.
pub fn put_signed(out: &mut Vec<u8>, n: i64) -> Result<(), AllocError>
    ensures { OnOk result (out.new.items ≡ out.old.items ++ signed_decimal n) }
{
    let mut buffer = Buffer::new();
    out.extend_from_slice(buffer.format(n).as_bytes())
}

/// Appends numbers with commas between them.
pub fn put_numbers(out: &mut Vec<u8>, numbers: &[u32]) -> Result<(), AllocError>
    ensures { OnOk result (out.new.items ≡ out.old.items ++ numbers_piece numbers.now) }
{
    let Some((first, rest)) = numbers.split_first() else {
        return Ok(())
    };
    put_number(out, u64::from(*first))?;
    for n in rest {
        out.push(b',')?;
        put_number(out, u64::from(*n))?;
    }
    Ok(())
}

#[cfg(test)]
mod tests {
    use super::*;
    use std::test::Fail;

    #[test]
    fn writes_signs(rt: HostRuntime) -> Result<(), Fail> {
        let mut out = Vec::new(rt.alloc());
        for n in [-12, 0, 7] {
            put_signed(&mut out, n)?;
            out.push(b' ')?;
        }
        assert_eq!(rt; out.as_slice(), b"-12 0 7 ".as_slice());
        Ok(())
    }
}
