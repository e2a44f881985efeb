ghost use Rattle.std.specs.Prelude.{◌≡◌, ◌≤◌, ◌<◌, drop, length, true};
ghost use Rattle.std.specs.List.{position_or_len, prefix_len};
ghost use Rattle.std.specs.Char.{digit_value, is_ascii_hexdigit};
ghost use Rattle.network_tables.specs.Fields.{field, fields_of, flags_of, hex_number, is_blank};

// The field at this place of a line, from 0; empty where the line has none there.
pub(crate) fn field(line: &[u8], place: usize) -> &[u8]
    ensures { result.now ≡ field place line.now }
{
    let mut rest = line;
    for _ in 0..place {
        let (_, behind) = front_field(rest);
        rest = behind;
    }
    let (front, _) = front_field(rest);
    front
}

// The first field of a line, and what stands behind it.
fn front_field(line: &[u8]) -> (&[u8], &[u8])
    ensures front { result.0.now ≡ field 0 line.now }
    ensures behind { fields_of result.1.now ≡ drop 1 (fields_of line.now) }
{
    let (_, line) = line.split_at(blanks(line));
    line.split_at(field_end(line))
}

// How many blanks stand first.
fn blanks(line: &[u8]) -> usize
    ensures count { result ≡ prefix_len is_blank line.now }
    ensures within { result ≤ length line.now }
{
    let mut end = 0;
    while end < line.len() && is_blank(line[end]) {
        end += 1;
    }
    end
}

// Where the first blank stands, or the length.
fn field_end(line: &[u8]) -> usize
    ensures place { result ≡ position_or_len is_blank line.now }
    ensures within { result ≤ length line.now }
{
    let mut end = 0;
    while end < line.len() && !is_blank(line[end]) {
        end += 1;
    }
    end
}

fn is_blank(byte: u8) -> bool
    ensures { result ≡ is_blank byte }
{
    byte == b' '
}

// The number that 1 to 8 hex digits spell.
pub(crate) fn hex_number(digits: &[u8]) -> Option<u32>
    ensures { result ≡ hex_number digits.now }
{
    if digits.is_empty() || digits.len() > 8 {
        return None;
    }
    let mut number = 0_u32;
    for &digit in digits {
        if !digit.is_ascii_hexdigit() {
            return None;
        }
        number = number * 16 + hex_digit(digit);
    }
    Some(number)
}

fn hex_digit(digit: u8) -> u32
    requires { is_ascii_hexdigit digit ≡ true }
    ensures value { result ≡ digit_value digit }
    ensures below { result < 16 }
{
    u32::from((digit & 0xf) + 9 * (digit >> 6))
}

// The number of flags, behind `0x`.
pub(crate) fn flags(field: &[u8]) -> Option<u32>
    ensures { result ≡ flags_of field.now }
{
    if field.len() < 2 {
        return None;
    }
    let (mark, digits) = field.split_at(2);
    if mark == b"0x".as_slice() {
        hex_number(digits)
    } else {
        None
    }
}
