ghost use Rattle.std.specs.Prelude.{◌≡◌, ◌++◌, OnOk, decimal, replicate};
ghost use Rattle.cmd_explain.specs.Decimals.{decimal_text};
ghost use Rattle.cmd_cues.specs.Table.{cell};

use cmd_explain::push_decimal;
use itoa::Buffer;
use std::alloc::{AllocError, Global};

/// Appends thousandths as a decimal at the right of a column.
pub fn push_decimal_cell(
    alloc: Global,
    out: &mut Vec<u8>,
    width: usize,
    thousandths: u32,
) -> Result<(), AllocError>
    ensures { OnOk result (out.new.items ≡ out.old.items ++ cell width (decimal_text thousandths)) }
{
    let mut text = Vec::new(alloc);
    push_decimal(&mut text, thousandths)?;
    push_cell(out, width, text.as_slice())
}

/// Appends a number at the right of a column.
pub fn push_number_cell(out: &mut Vec<u8>, width: usize, number: u64) -> Result<(), AllocError>
    ensures { OnOk result (out.new.items ≡ out.old.items ++ cell width (decimal number)) }
{
    push_cell(out, width, Buffer::new().format(number).as_bytes())
}

/// Appends a text at the right of a column.
pub fn push_cell(out: &mut Vec<u8>, width: usize, text: &[u8]) -> Result<(), AllocError>
    ensures { OnOk result (out.new.items ≡ out.old.items ++ cell width text.now) }
{
    push_spaces(out, width.saturating_sub(text.len()))?;
    out.extend_from_slice(text)
}

fn push_spaces(out: &mut Vec<u8>, count: usize) -> Result<(), AllocError>
    ensures { OnOk result (out.new.items ≡ out.old.items ++ replicate count 32) }
{
    for _space in 0..count {
        out.push(b' ')?;
    }
    Ok(())
}
