ghost use Rattle.std.specs.Prelude.{◌≡◌, ◌+◌, ◌*◌, ◌^◌, ◌<◌, ◌≤◌, length, IfOk, OnOk};
ghost use Rattle.std.specs.Result.{result_err};
ghost use Rattle.super_meta.specs.Flaws.{or_flaw};
ghost use Rattle.super_meta.specs.HeaderText.{header_size, header_at, flags_at, lists_size, describes, are_described, header_holds, tables_hold, size_flaw, seal_flaw, header_of};
ghost use Rattle.fb_frame.specs.Fields.{u16_at, u32_at};

use crate::errors::MetaError;
use crate::sealed::digest_around;
use fb_frame::digest::digest;
use fb_frame::fields::{u16_at, u32_at};

/// How many bytes the header of versions 10.0 and 10.1 has.
pub const HEADER: usize = 128;

/// How many bytes the header of version 10.2 has.
pub const LONG_HEADER: usize = 256;

/// How many bytes the entry of a partition has.
pub const PARTITION: usize = 52;

/// How many bytes the entry of an extent has.
pub const EXTENT: usize = 24;

/// How many bytes the entry of a group has.
pub const GROUP: usize = 48;

/// How many bytes the entry of a block device has.
pub const DEVICE: usize = 64;

pub const MAGIC: u32 = 0x414C_5030;

pub const MAJOR: u16 = 10;

/// What a header tells of the tables after it: version and flags, and how many entries each has.
#[derive(Clone, Copy, Debug, PartialEq, Eq)]
pub struct Header {
    pub minor: u16,
    pub flags: u32,
    pub partitions: u32,
    pub extents: u32,
    pub groups: u32,
}

/// How many bytes the header of a version has.
pub fn header_size(minor: u16) -> usize
    ensures { result ≡ header_size minor }
{
    if minor == 2 { LONG_HEADER } else { HEADER }
}

/// A descriptor at a place of the header tells this place and this entry size.
fn describes(bytes: &[u8], at: usize, place: u64, size: usize) -> bool
    requires { at + 12 ≤ length bytes.now }
    ensures { result ≡ describes bytes.now at place size }
{
    u64::from(u32_at(bytes, at)) == place && u32_at(bytes, at + 8) as usize == size
}

impl Header {
    /// The header as it stands.
    #[tactic(auto, unfolding(crate::specs::HeaderText::header_at, crate::specs::HeaderText::flags_at))]
    fn at(bytes: &[u8]) -> Header
        requires { header_size (u16_at 6 bytes.now) ≤ length bytes.now }
        ensures { result ≡ header_at bytes.now }
    {
        let minor = u16_at(bytes, 6);
        let flags = if minor == 2 { u32_at(bytes, HEADER) } else { 0 };
        Header {
            minor,
            flags,
            partitions: u32_at(bytes, 84),
            extents: u32_at(bytes, 96),
            groups: u32_at(bytes, 108),
        }
    }

    /// How many bytes the tables before the block devices have.
    pub fn lists_size(&self) -> u64
        ensures { result ≡ lists_size self.now }
    {
        PARTITION as u64 * u64::from(self.partitions)
            + EXTENT as u64 * u64::from(self.extents)
            + GROUP as u64 * u64::from(self.groups)
    }

    /// The header of bytes in which form and sizes are right.
    #[tactic(auto, using(crate::proofs::HeaderLemmas::parts))]
    fn sized(bytes: &[u8]) -> Result<Header, MetaError>
        ensures header { result ≡ or_flaw (size_flaw bytes.now (header_at bytes.now)) (header_at bytes.now) }
        ensures minor { IfOk result (λ header. header.minor ≤ 2) }
        ensures long { IfOk result
            (λ header. header_size header.minor + u32_at 44 bytes.now ≤ length bytes.now) }
        ensures tables { IfOk result
            (λ header. u32_at 44 bytes.now ≡ lists_size header + 64 * u32_at 120 bytes.now) }
    {
        if bytes.len() < HEADER {
            return Err(MetaError::ShortInput);
        }
        if u32_at(bytes, 0) != MAGIC {
            return Err(MetaError::BadMagic);
        }
        let minor = u16_at(bytes, 6);
        if u16_at(bytes, 4) != MAJOR || minor > 2 {
            return Err(MetaError::BadVersion);
        }
        let size = header_size(minor);
        if u32_at(bytes, 8) as usize != size {
            return Err(MetaError::BadSize);
        }
        let tables = u32_at(bytes, 44);
        if (bytes.len() as u64) < size as u64 + u64::from(tables) {
            return Err(MetaError::ShortInput);
        }
        let header = Header::at(bytes);
        let devices = DEVICE as u64 * u64::from(u32_at(bytes, 120));
        if u64::from(tables) != header.lists_size() + devices {
            return Err(MetaError::BadSize);
        }
        Ok(header)
    }

    /// The digest of the header is that of the header without it.
    #[tactic(auto, unfolding(crate::specs::HeaderText::header_holds))]
    fn holds(bytes: &[u8], size: usize) -> bool
        requires low { 44 ≤ size }
        requires high { size ≤ length bytes.now }
        ensures { result ≡ header_holds bytes.now size }
    {
        let digest = digest_around(&bytes[..12], &bytes[44..size]);
        bytes[12..44] == digest[..]
    }

    /// The digest of the tables is theirs.
    #[tactic(auto, unfolding(crate::specs::HeaderText::tables_hold))]
    fn tables_hold(bytes: &[u8], size: usize, tables: usize) -> bool
        requires low { 80 ≤ size }
        requires high { size + tables ≤ length bytes.now }
        ensures { result ≡ tables_hold bytes.now size tables }
    {
        let digest = digest(&bytes[size..size + tables]);
        bytes[48..80] == digest[..]
    }

    /// The tables follow one another, with entries of their own sizes, and there is one block device.
    #[tactic(auto, unfolding(crate::specs::HeaderText::are_described))]
    fn are_described(&self, bytes: &[u8]) -> bool
        requires { 128 ≤ length bytes.now }
        ensures { result ≡ are_described bytes.now self.now }
    {
        let extents = PARTITION as u64 * u64::from(self.partitions);
        let groups = extents + EXTENT as u64 * u64::from(self.extents);
        describes(bytes, 80, 0, PARTITION)
            && describes(bytes, 92, extents, EXTENT)
            && describes(bytes, 104, groups, GROUP)
            && describes(bytes, 116, self.lists_size(), DEVICE)
            && u32_at(bytes, 120) == 1
    }

    /// Tries the digests and the descriptors.
    fn check_seals(&self, bytes: &[u8]) -> Result<(), MetaError>
        requires { header_size self.now.minor + u32_at 44 bytes.now ≤ length bytes.now }
        ensures { result_err result ≡ seal_flaw bytes.now self.now }
    {
        let size = header_size(self.minor);
        let tables = u32_at(bytes, 44) as usize;
        if !Header::holds(bytes, size) || !Header::tables_hold(bytes, size, tables) {
            return Err(MetaError::BadChecksum);
        }
        if !self.are_described(bytes) {
            return Err(MetaError::BadDescriptor);
        }
        Ok(())
    }

    /// The header with which the bytes begin, or the first thing that is wrong with it.
    #[tactic(auto, using(crate::proofs::HeaderLemmas::seals))]
    pub fn read(bytes: &[u8]) -> Result<Header, MetaError>
        ensures header { result ≡ header_of bytes.now }
        ensures minor { IfOk result (λ header. header.minor ≤ 2) }
        ensures long { IfOk result
            (λ header. header_size header.minor + (lists_size header + 64) ≤ length bytes.now) }
    {
        let header = Header::sized(bytes)?;
        header.check_seals(bytes)?;
        Ok(header)
    }
}
