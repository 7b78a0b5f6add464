//! Files that a device's image lies in: the trait `Disk`, a disk in memory and a real one, and twin
//! copies of small blocks.
#![tactic(auto)]

ghost use Rattle.std.specs.Prelude.{ℕ, List, Option};
ghost use Rattle.dev_disk.specs.declared.memory.MemoryDisk.{MemoryDisk};
ghost use Rattle.dev_disk.specs.Files.{StaysTorn};
ghost use Rattle.dev_disk.specs.Twins.{IsLeft};
ghost use Rattle.dev_disk.specs.Honest.{ReadsAs, ReadsHonestly};
ghost use Rattle.dev_disk.specs.Memory.{memory_told};

pub mod disk;
pub mod file;
pub mod memory;
mod memory_files;
#[cfg(test)]
mod tests;
pub mod twin;

use crate::disk::Disk;

/// What failed writes of a disk left, under the premise that it reads honestly in some way of reading.
#[tactic(auto, using(crate::proofs::HonestLemmas::honest))]
pub fn laws<K: Disk, X>()
    ensures memory { (disk : MemoryDisk) (read : List ℕ → Option X) →
        ReadsHonestly read (memory_told disk).torn }
    ensures before { (old new : K) (read : List ℕ → Option X) →
        StaysTorn (K.told old).torn (K.told new).torn → ReadsHonestly read (K.told new).torn →
        ReadsHonestly read (K.told old).torn }
    ensures left { (disk : K) (read : List ℕ → Option X) (old block now : List ℕ) →
        ReadsHonestly read (K.told disk).torn → IsLeft (K.told disk).torn old block now →
        ReadsAs (read old) (read block) (read now) }
{}
