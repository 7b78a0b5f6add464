ghost use Rattle.std.specs.Prelude.{◌≡◌, ◌+◌, ◌*◌, ◌-◌, ◌^◌, nat_lt, Some, None, if◌then◌else◌};
ghost use Rattle.std.specs.List.{list_all};
ghost use Rattle.fb_frame.specs.Numbers.{is_digit, is_digit_row, digits_worth, read_dec, read_hex8, hex8};

/// The number that a decimal text spells: `0`, or 1 to 20 digits without a leading zero whose value
/// fits 64 bits. None exactly for every other text.
pub fn read_dec(bytes: &[u8]) -> Option<u64>
    ensures { result ≡ read_dec bytes.now }
{
    if is_digit_row(bytes) {
        digits_worth(bytes)
    } else {
        None
    }
}

/// The number that eight digits of `0-9a-f` spell, as the length of a download is told (fastboot
/// README). None exactly for every other text.
pub fn read_hex8(bytes: &[u8]) -> Option<u32>
    ensures { result ≡ read_hex8 bytes.now }
{
    let mut value = [0; 4];
    hex::decode_to_slice(bytes, &mut value).ok()?;
    let n = u32::from_be_bytes(value);
    if write_hex8(n).as_slice() == bytes {
        Some(n)
    } else {
        None
    }
}

/// The number as eight lower-case hexadecimal digits.
#[tactic(auto, using(crate::proofs::HexBytes::hex_bytes))]
pub fn write_hex8(n: u32) -> [u8; 8]
    ensures { result ≡ hex8 n }
{
    let mut digits = [0; 8];
    match hex::encode_to_slice(n.to_be_bytes(), &mut digits) {
        Ok(()) => digits,
        Err(_) => unreachable!(),
    }
}

/// 1 to 20 digits with no leading zero.
fn is_digit_row(bytes: &[u8]) -> bool
    ensures { result ≡ is_digit_row bytes.now }
{
    match bytes {
        [] => false,
        [_] => are_digits(bytes),
        [first, ..] => bytes.len() <= 20 && are_digits(bytes) && *first > b'0',
    }
}

fn are_digits(bytes: &[u8]) -> bool
    ensures { result ≡ list_all is_digit bytes.now }
{
    bytes.iter().all(|b| is_digit(*b))
}

fn is_digit(b: u8) -> bool
    ensures { result ≡ is_digit b }
{
    b.is_ascii_digit()
}

/// What the digits are worth, None where that passes 64 bits.
fn digits_worth(bytes: &[u8]) -> Option<u64>
    ensures { result ≡
        (if nat_lt (digits_worth bytes.now) (2 ^ 64) then Some (digits_worth bytes.now) else None) }
{
    let mut n = 0;
    for b in bytes {
        n = add_digit(n, *b)?;
    }
    Some(n)
}

/// The number with one digit more, None where that passes 64 bits.
fn add_digit(n: u64, b: u8) -> Option<u64>
    ensures { result ≡ (if nat_lt (10 * n + (b - 48)) (2 ^ 64) then Some (10 * n + (b - 48)) else None) }
{
    let tens = n.checked_mul(10)?;
    tens.checked_add(u64::from(b.saturating_sub(b'0')))
}
