ghost use Rattle.std.specs.Prelude.{◌≡◌, ◌++◌, OnOk, decimal};
ghost use Rattle.cmd_explain.specs.Decimals.{decimal_text, fraction_text};

use itoa::Buffer;
use std::alloc::AllocError;

/// Appends thousandths as a decimal.
///
/// # Errors
///
/// If an allocation failed.
pub fn push_decimal(out: &mut Vec<u8>, thousandths: u32) -> Result<(), AllocError>
    ensures { OnOk result (out.new.items ≡ out.old.items ++ decimal_text thousandths) }
{
    push_number(out, u64::from(thousandths / 1000))?;
    push_fraction(out, thousandths % 1000)
}

/// Appends a number.
///
/// # Errors
///
/// If an allocation failed.
pub fn push_number(out: &mut Vec<u8>, number: u64) -> Result<(), AllocError>
    ensures { OnOk result (out.new.items ≡ out.old.items ++ decimal number) }
{
    out.extend_from_slice(Buffer::new().format(number).as_bytes())
}

fn push_fraction(out: &mut Vec<u8>, thousandths: u32) -> Result<(), AllocError>
    ensures { OnOk result (out.new.items ≡ out.old.items ++ fraction_text thousandths) }
{
    if thousandths == 0 {
        return Ok(());
    }
    out.push(b'.')?;
    push_number(out, u64::from(thousandths / 100))?;
    if !thousandths.is_multiple_of(100) {
        push_number(out, u64::from(thousandths / 10 % 10))?;
        if !thousandths.is_multiple_of(10) {
            push_number(out, u64::from(thousandths % 10))?;
        }
    }
    Ok(())
}
