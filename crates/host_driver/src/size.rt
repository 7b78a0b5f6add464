//! The size that a device tells.
ghost use Rattle.std.specs.Prelude.{◌≡◌, ◌≤◌, Option, option_copied, IfSome};
ghost use Rattle.std.specs.List.{list_all};
ghost use Rattle.host_driver.specs.SizeText.{hex_digits, is_hex, hex_number, size_read, download_size};

use fb_frame::number::read_dec;

/// The most digits of a hexadecimal number of 64 bits.
const MOST_DIGITS: usize = 16;

/// The least and the most that a device takes in one download. A greater number counts as the most.
const LEAST_DOWNLOAD: u64 = 131_072;

const MOST_DOWNLOAD: u64 = 268_435_456;

fn is_hex(b: u8) -> bool
    ensures { result ≡ is_hex b }
{
    matches!(b, b'0'..=b'9' | b'A'..=b'F' | b'a'..=b'f')
}

fn are_hex(digits: &[u8]) -> bool
    ensures { result ≡ list_all is_hex digits.now }
{
    digits.iter().all(|b| is_hex(*b))
}

/// The number of 1 to 16 hexadecimal digits of either case.
#[tactic(auto, using(crate::proofs::SizeLemmas::numerals))]
fn read_hex(digits: &[u8]) -> Option<u64>
    ensures { result ≡ hex_number digits.now }
{
    if digits.is_empty() || digits.len() > MOST_DIGITS || !are_hex(digits) {
        return None;
    }
    let text = match str::from_utf8(digits) {
        Ok(text) => text,
        Err(_) => unreachable!(),
    };
    u64::from_str_radix(text, 16).ok()
}

/// The digits after `0x`.
fn hex_digits(text: &[u8]) -> Option<&[u8]>
    ensures { option_copied result ≡ hex_digits text.now }
{
    text.strip_prefix(b"0x".as_slice())
}

/// The number that a text tells: `0x` and hexadecimal digits, or decimal.
fn read_size(text: &[u8]) -> Option<u64>
    ensures { result ≡ size_read text.now }
{
    match hex_digits(text) {
        Some(digits) => read_hex(digits),
        None => read_dec(text),
    }
}

/// How many bytes a device takes in one download, by the text of max-download-size. None of a text
/// that tells fewer than 131,072, or no number.
pub fn read_download_size(text: &[u8]) -> Option<u64>
    ensures size { result ≡ download_size text.now }
    ensures large { IfSome result (λ n. 131072 ≤ n) }
    ensures small { IfSome result (λ n. n ≤ 268435456) }
{
    match read_size(text) {
        Some(n) if n >= LEAST_DOWNLOAD => Some(n.min(MOST_DOWNLOAD)),
        _ => None,
    }
}
