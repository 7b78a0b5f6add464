ghost use Rattle.std.specs.Prelude.{◌≡◌};
ghost use Rattle.std.specs.Int.{w64, from_be_bytes};
ghost use Rattle.fb_frame.specs.Framing.{head};

/// The head of a frame with a payload of this length: eight big-endian bytes (fastboot README, TCP).
pub fn frame_head(len: u64) -> [u8; 8]
    ensures { result ≡ head len }
{
    len.to_be_bytes()
}

/// The length whose head these bytes are.
pub fn head_length(bytes: &[u8; 8]) -> u64
    ensures told { result ≡ from_be_bytes w64 bytes.now }
    ensures head { bytes.now ≡ head result }
{
    u64::from_be_bytes(*bytes)
}
