ghost use Rattle.std.specs.Prelude.{◌≡◌, ◌≤◌};
ghost use Rattle.std.specs.Result.{result_ok};
ghost use Rattle.fb_frame.specs.Greeting.{handshake, read_handshake};

use thiserror::Error;

/// The peer's first four bytes are no handshake, or one of version 0.
#[derive(Debug, Drop, Error)]
#[error("no fastboot handshake")]
pub struct BadHandshake;

/// The handshake that either end sends first: `FB` and the version in two decimal digits (fastboot
/// README, TCP).
pub fn handshake(version: u8) -> [u8; 4]
    requires low { 1 ≤ version }
    requires high { version ≤ 99 }
    ensures spelled { result ≡ handshake version }
{
    [b'F', b'B', b'0' + version / 10, b'0' + version % 10]
}

/// The version that a handshake tells, 1 to 99. `BadHandshake` comes exactly where the form differs
/// or the version is 0.
pub fn read_handshake(bytes: &[u8; 4]) -> Result<u8, BadHandshake>
    ensures { result_ok result ≡ read_handshake bytes.now }
{
    let [f, b, tens, ones] = *bytes;
    if f == b'F' && b == b'B' && tens.is_ascii_digit() && ones.is_ascii_digit() {
        let version = 10 * (tens - b'0') + (ones - b'0');
        if version > 0 {
            return Ok(version);
        }
    }
    Err(BadHandshake)
}
