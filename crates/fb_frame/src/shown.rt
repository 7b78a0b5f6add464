ghost use Rattle.std.specs.Prelude.{◌≡◌, ◌++◌, OnOk};
ghost use Rattle.fb_frame.specs.Shown.{shown_byte, shown};

use std::alloc::AllocError;

/// A byte as it is printed: `?` where it isn't printed ASCII.
pub fn shown_byte(b: u8) -> u8
    ensures { result ≡ shown_byte b }
{
    if 0x20 <= b && b <= 0x7e { b } else { b'?' }
}

/// Adds a text of the outside to a line, as it is printed.
pub fn add_shown(line: &mut Vec<u8>, text: &[u8]) -> Result<(), AllocError>
    ensures { OnOk result (line.new.items ≡ line.old.items ++ shown text.now) }
{
    for b in text {
        line.push(shown_byte(*b))?;
    }
    Ok(())
}
