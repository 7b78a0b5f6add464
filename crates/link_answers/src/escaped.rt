use std::alloc::{AllocError, Global};

/// Bytes as a text: a byte that isn't printed as `\x` and its two digits.
pub fn escaped(alloc: Global, bytes: &[u8]) -> Result<String, AllocError> {
    let mut text = String::new(alloc);
    for byte in bytes {
        add_byte(alloc, &mut text, *byte)?;
    }
    Ok(text)
}

fn add_byte(alloc: Global, text: &mut String, byte: u8) -> Result<(), AllocError> {
    if byte == b' ' || byte.is_ascii_graphic() {
        return text.push(char::from(byte));
    }
    let escape = format!(in alloc; "\\x{byte:02x}")?;
    text.push_str(escape.as_str())
}

/// Prints a word and bytes.
pub fn print<R: Print + Alloc<A = Global>>(rt: &R, word: &str, bytes: &[u8]) -> anyhow::Result<()> {
    let text = escaped(rt.alloc(), bytes)?;
    println!(rt; "{word}: {text}")?;
    Ok(())
}
