//! The state record: 32 bytes, their SHA-256 digest, and zeros up to the end of its block.
ghost use Rattle.std.specs.Prelude.{◌≡◌, ◌+◌, ◌≤◌, ◌++◌, length, bytes_eq};
ghost use Rattle.sha2.specs.Sha256.{sha256};
ghost use Rattle.fb_frame.specs.Bytes.{zeros};
ghost use Rattle.dev_disk.specs.Files.{written};
ghost use Rattle.dev_model.specs.Validity.{is_blank};
ghost use Rattle.dev_store.specs.States.{slot_byte, flags_bytes, record_head, record_block};
ghost use Rattle.dev_store.specs.States.{flags_at, state_at, is_state, is_record, record_of};

use crate::state::State;
use dev_model::device::SlotFlags;
use fb_frame::digest::digest;
use fb_frame::slot::Slot;

/// How many bytes the block of a record has.
pub const BLOCK: usize = 4096;

/// How many bytes stand before the digest.
const HEAD: usize = 32;

/// 0 for slot a, 1 for slot b.
fn slot_byte(slot: Slot) -> u8
    ensures { result ≡ slot_byte slot }
{
    match slot {
        Slot::A => 0,
        Slot::B => 1,
    }
}

/// The three bytes of a slot's flags.
fn flags_bytes(flags: SlotFlags) -> [u8; 3]
    ensures { result ≡ flags_bytes flags }
{
    [
        u8::from(flags.successful),
        u8::from(flags.unbootable),
        flags.retries,
    ]
}

/// A mark, the version, the lock, the active slot, the flags of both slots and the start mode.
#[tactic(auto, unfolding(crate::specs::States::record_head))]
fn fields(version: u32, state: &State) -> [u8; 17]
    ensures { result ++ zeros 15 ≡ record_head version state.now }
{
    let [v0, v1, v2, v3] = version.to_le_bytes();
    let [a, b] = state.flags;
    let ([a0, a1, a2], [b0, b1, b2]) = (flags_bytes(a), flags_bytes(b));
    let (locked, slot) = (u8::from(state.locked), slot_byte(state.active));
    [
        b'F',
        b'B',
        b'S',
        b'T',
        v0,
        v1,
        v2,
        v3,
        locked,
        slot,
        a0,
        a1,
        a2,
        b0,
        b1,
        b2,
        u8::from(state.userspace),
    ]
}

/// What stands before the digest.
#[tactic(auto, unfolding(fb_frame::specs::Bytes::zeros))]
fn record_head(version: u32, state: &State) -> [u8; 32]
    ensures head { result ≡ record_head version state.now }
    ensures length { length result ≡ 32 }
{
    let mut head = [0; HEAD];
    head[..17].copy_from_slice(&fields(version, state));
    head
}

/// Writes bytes over those of a block from a place on.
#[tactic(auto, unfolding(dev_disk::specs::Files::written))]
pub fn put(block: &mut [u8], at: usize, bytes: &[u8])
    requires { at + length bytes.now ≤ length block.old }
    ensures put { block.new ≡ written block.old at bytes.now }
    ensures length { length block.new ≡ length block.old }
{
    let end = at + bytes.len();
    block[at..end].copy_from_slice(bytes);
}

/// Fills a block with zeros.
#[tactic(auto, unfolding(fb_frame::specs::Bytes::zeros))]
fn clear(block: &mut [u8])
    ensures zeros { block.new ≡ zeros (length block.old) }
    ensures length { length block.new ≡ length block.old }
{
    block.fill(0);
}

/// The digest of what stands before it.
fn seal(head: &[u8; 32]) -> [u8; 32]
    ensures digest { result ≡ sha256 head.now }
    ensures length { length result ≡ 32 }
{
    digest(head)
}

/// Writes the record of a state in one of the versions.
fn spell(version: u32, state: &State, block: &mut [u8])
    requires { length block.old ≡ 4096 }
    ensures { block.new ≡ record_block version state.now }
{
    let head = record_head(version, state);
    clear(block);
    put(block, 0, &head);
    put(block, HEAD, &seal(&head));
}

/// Writes the record of a state, in version 2, over a block of 4,096 bytes.
pub fn write_record(state: &State, block: &mut [u8])
    requires { length block.old ≡ 4096 }
    ensures { block.new ≡ record_block 2 state.now }
{
    spell(2, state, block);
}

/// The flags in three bytes from a place on.
fn flags_at(block: &[u8], place: usize) -> SlotFlags
    requires { place + 3 ≤ length block.now }
    ensures { result ≡ flags_at place block.now }
{
    SlotFlags {
        successful: block[place] == 1,
        unbootable: block[place + 1] == 1,
        retries: block[place + 2],
    }
}

/// The state that a block's bytes tell.
#[tactic(auto, unfolding(crate::specs::States::state_at))]
fn state_at(block: &[u8]) -> State
    requires { 17 ≤ length block.now }
    ensures { result ≡ state_at block.now }
{
    State {
        locked: block[8] == 1,
        active: if block[9] == 1 { Slot::B } else { Slot::A },
        flags: [flags_at(block, 10), flags_at(block, 13)],
        userspace: block[16] == 1,
    }
}

/// No flag is set, and no retry is left.
fn is_blank(flags: SlotFlags) -> bool
    ensures { result ≡ is_blank flags }
{
    !flags.successful && !flags.unbootable && flags.retries == 0
}

impl State {
    /// Whether a device with so many slots may have this state: up to 7 retries, and without slots slot a
    /// and nothing set.
    #[tactic(auto, unfolding(crate::specs::States::is_state))]
    pub fn fits(&self, slots: u8) -> bool
        ensures fits { result ≡ is_state slots self.now }
    {
        let [a, b] = self.flags;
        if slots == 2 {
            return a.retries <= 7 && b.retries <= 7;
        }
        slots == 0 && matches!(self.active, Slot::A) && is_blank(a) && is_blank(b)
    }
}

/// Whether the block is the spelling of the state.
fn is_spelled(version: u32, state: &State, block: &[u8]) -> bool
    ensures { result ≡ bytes_eq block.now (record_block version state.now) }
{
    let mut spelled = [0; BLOCK];
    spell(version, state, &mut spelled);
    block == &spelled[..]
}

/// Whether the block is the record of a state in this version.
#[tactic(auto, unfolding(crate::specs::States::is_record))]
fn is_record(slots: u8, version: u32, state: &State, block: &[u8]) -> bool
    requires { state.now ≡ state_at block.now }
    ensures { result ≡ is_record slots version block.now }
{
    state.fits(slots) && (version == 2 || !state.userspace) && is_spelled(version, state, block)
}

/// The version and the state of a block of 4,096 bytes, where it is the record of a state of a device
/// with so many slots.
#[tactic(auto, unfolding(crate::specs::States::record_of))]
pub fn read_record(slots: u8, block: &[u8]) -> Option<(u32, State)>
    requires { length block.now ≡ 4096 }
    ensures { result ≡ record_of slots block.now }
{
    let state = state_at(block);
    if is_record(slots, 2, &state, block) {
        return Some((2, state));
    }
    if is_record(slots, 1, &state, block) {
        return Some((1, state));
    }
    None
}
