ghost use Rattle.std.specs.Prelude.{◌≡◌, option_map};
ghost use Rattle.wire_model.specs.Wire.{Command, Shake, first_frame, front};
ghost use Rattle.wire_model.specs.Connections.{item_of, phase_of};

use crate::connection::Phase;

/// What may stand whole at the front of a list: a handshake's four bytes, a frame's payload, or a head
/// that gives more bytes than may follow (fastboot README, TCP).
#[derive(Clone, Copy, Debug)]
pub enum Item<'a> {
    Greeting([u8; 4]),
    TooLong,
    Payload(&'a [u8]),
}

/// The most bytes of a command.
const LONGEST_COMMAND: u64 = 4096;

/// The four bytes of a handshake at the front, and what follows them.
fn first_four(bytes: &[u8]) -> Option<(Item<'_>, &[u8])>
    ensures { option_map (λ found. (item_of found.0, found.1.now)) result ≡ front Shake bytes.now }
{
    let (four, behind) = bytes.split_first_chunk::<4>()?;
    Some((Item::Greeting(*four), behind))
}

/// The frame at the front, where it has at most so many bytes, and what follows it.
fn first_frame(most: u64, bytes: &[u8]) -> Option<(Item<'_>, &[u8])>
    ensures { option_map (λ found. (item_of found.0, found.1.now)) result ≡ first_frame most bytes.now }
{
    let (head, behind) = bytes.split_first_chunk::<8>()?;
    let announced = u64::from_be_bytes(*head);
    if most < announced {
        return Some((Item::TooLong, behind));
    }
    if (behind.len() as u64) < announced {
        return None;
    }
    let (payload, behind) = behind.split_at(announced as usize);
    Some((Item::Payload(payload), behind))
}

/// The item at the front of the bytes in this phase, and what follows it, None where none stands there
/// whole.
pub fn front<'a>(phase: &Phase, bytes: &'a [u8]) -> Option<(Item<'a>, &'a [u8])>
    ensures { option_map (λ found. (item_of found.0, found.1.now)) result
        ≡ front (phase_of phase.now) bytes.now }
{
    match phase {
        Phase::Shake => first_four(bytes),
        Phase::Command => first_frame(LONGEST_COMMAND, bytes),
        Phase::Data(count, got) => {
            let left = (*count as u64).saturating_sub(got.len() as u64);
            first_frame(left, bytes)
        }
    }
}
