ghost use Rattle.std.specs.Prelude.{◌≡◌, ◌^◌, ◌<◌, ◌≤◌, ◌++◌, length, IsTrue, IfOk, Ok};
ghost use Rattle.super_meta.specs.declared.geometry.Geometry.{Geometry};
ghost use Rattle.super_meta.specs.GeometryText.{is_geometry, geometry_at, geometry_front, geometry_back, geometry_of, geometry_bytes, GeometryBytes};
ghost use Rattle.fb_frame.specs.Bytes.{zeros};

use crate::errors::MetaError;
use crate::put::{clear, put, put_sealed};
use crate::sealed::digest_around;
use fb_frame::fields::u32_at;

/// How many bytes a geometry has.
pub const GEOMETRY: usize = 52;

/// How many bytes a block of super has.
pub const BLOCK: usize = 4096;

const MAGIC: u32 = 0x616C_4467;

/// How much room super keeps for each copy of its table, in bytes, for how many metadata slots, and
/// how many bytes a logical block has (liblp metadata_format.h, LpMetadataGeometry).
#[derive(Clone, Copy, Debug, PartialEq, Eq)]
pub struct Geometry {
    pub max_size: u32,
    pub slots: u32,
    pub block_size: u32,
}

impl Geometry {
    /// Whether the room is a multiple of 512 above 0, there is a metadata slot, and a block has 4,096 bytes.
    pub fn is_good(&self) -> bool
        ensures { result ≡ is_geometry self.now }
    {
        self.max_size > 0 && self.max_size % 512 == 0 && self.slots > 0 && self.block_size == 4096
    }

    /// The numbers as they stand after the digest.
    #[tactic(auto, using(crate::proofs::PutLemmas::wholes), unfolding(crate::specs::GeometryText::geometry_back))]
    fn back(&self) -> [u8; 12]
        ensures back { result ≡ geometry_back self.now }
        ensures max_size { self.now.max_size < 2 ^ 32 }
        ensures slots { self.now.slots < 2 ^ 32 }
    {
        let (max_size, slots) = (self.max_size, self.slots);
        let mut back = [0; 12];
        let at = put(&mut back, 0, &max_size.to_le_bytes());
        let at = put(&mut back, at, &slots.to_le_bytes());
        put(&mut back, at, &self.block_size.to_le_bytes());
        back
    }

    /// The numbers after the digest.
    fn at(bytes: &[u8]) -> Geometry
        requires { 52 ≤ length bytes.now }
        ensures { result ≡ geometry_at bytes.now }
    {
        Geometry {
            max_size: u32_at(bytes, 40),
            slots: u32_at(bytes, 44),
            block_size: u32_at(bytes, 48),
        }
    }
}

/// What stands before the digest: the magic number and the structure's size.
#[tactic(auto, using(crate::proofs::PutLemmas::wholes), unfolding(crate::specs::GeometryText::geometry_front))]
fn front() -> [u8; 8]
    ensures { result ≡ geometry_front }
{
    let mut front = [0; 8];
    let at = put(&mut front, 0, &MAGIC.to_le_bytes());
    put(&mut front, at, &(GEOMETRY as u32).to_le_bytes());
    front
}

/// The geometry with which the bytes begin, or the first thing that is wrong with it.
fn checked(bytes: &[u8]) -> Result<Geometry, MetaError>
    ensures { result ≡ geometry_of bytes.now }
{
    if bytes.len() < GEOMETRY {
        return Err(MetaError::ShortInput);
    }
    if u32_at(bytes, 0) != MAGIC {
        return Err(MetaError::BadMagic);
    }
    let geometry = Geometry::at(bytes);
    if u32_at(bytes, 4) != GEOMETRY as u32 || !geometry.is_good() {
        return Err(MetaError::BadSize);
    }
    let digest = digest_around(&bytes[..8], &bytes[40..52]);
    if bytes[8..40] != digest[..] {
        return Err(MetaError::BadChecksum);
    }
    Ok(geometry)
}

/// The geometry with which the bytes begin, or the first thing that is wrong with it, in the order of
/// the errors' numbers. What follows the 52 bytes is ignored.
pub fn read_geometry(bytes: &[u8]) -> Result<Geometry, MetaError>
    ensures exact { result ≡ geometry_of bytes.now }
    ensures found { IfOk result (λ geometry. GeometryBytes geometry bytes.now) }
    ensures only { (geometry : Geometry) → GeometryBytes geometry bytes.now → result ≡ Ok geometry }
{
    checked(bytes)
}

/// Writes the geometry at the front of a block, and zeros after it.
#[tactic(auto, using(crate::proofs::PutLemmas::padded))]
pub fn write_geometry(geometry: &Geometry, block: &mut [u8; 4096])
    requires good { IsTrue (is_geometry geometry.now) }
    ensures block { block.new ≡ geometry_bytes geometry.now ++ zeros 4044 }
    ensures holds { GeometryBytes geometry.now block.new }
{
    clear(block);
    put_sealed(block, 0, &front(), &geometry.back());
}
