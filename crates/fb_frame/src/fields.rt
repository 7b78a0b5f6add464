ghost use Rattle.std.specs.Prelude.{◌≡◌, ◌+◌, ◌≤◌, length};
ghost use Rattle.fb_frame.specs.Fields.{u16_at, u32_at, u64_at};

/// The little-endian number of two bytes at a place.
#[tactic(auto, unfolding(crate::specs::Fields::u16_at))]
pub fn u16_at(bytes: &[u8], place: usize) -> u16
    requires inside { place + 2 ≤ length bytes.now }
    ensures number { result ≡ u16_at place bytes.now }
{
    let mut field = [0; 2];
    field.copy_from_slice(&bytes[place..place + 2]);
    u16::from_le_bytes(field)
}

/// The little-endian number of four bytes at a place.
#[tactic(auto, unfolding(crate::specs::Fields::u32_at))]
pub fn u32_at(bytes: &[u8], place: usize) -> u32
    requires inside { place + 4 ≤ length bytes.now }
    ensures number { result ≡ u32_at place bytes.now }
{
    let mut field = [0; 4];
    field.copy_from_slice(&bytes[place..place + 4]);
    u32::from_le_bytes(field)
}

/// The little-endian number of eight bytes at a place.
#[tactic(auto, unfolding(crate::specs::Fields::u64_at))]
pub fn u64_at(bytes: &[u8], place: usize) -> u64
    requires inside { place + 8 ≤ length bytes.now }
    ensures number { result ≡ u64_at place bytes.now }
{
    let mut field = [0; 8];
    field.copy_from_slice(&bytes[place..place + 8]);
    u64::from_le_bytes(field)
}
