//! The call of a store that installs the table of a file.
ghost use Rattle.std.specs.Prelude.{◌≡◌, ◌≢◌, ◌≤◌, length, nat_lt, IsTrue, IsFalse, OnOk, OnErr};
ghost use Rattle.std.specs.List.{list_all};
ghost use Rattle.std.specs.Result.{IsErrOf};
ghost use Rattle.unit_alloc.specs.Owning.{OneOwner};
ghost use Rattle.super_meta.specs.Contents.{Content, content};
ghost use Rattle.super_meta.specs.Held.{tables_of_image};
ghost use Rattle.dev_store.specs.Building.{is_short};
ghost use Rattle.dev_store.specs.Changes.{install_flaw, installed};
ghost use Rattle.dev_store.specs.Faults.{IsHonest};
ghost use Rattle.dev_store.specs.Held.{IsWhole, DiskKept, image_of};
ghost use Rattle.dev_store.specs.InstallParts.{with_room, IsTaken, IsRefused, IsInstallPlanned, HasSpaceFor};
ghost use Rattle.dev_store.specs.InstallTests.{merged_count};
ghost use Rattle.dev_store.specs.SuperBounds.{IsBounded};
ghost use Rattle.dev_store.specs.SuperReads.{IsMap, HasRooms};
ghost use Rattle.dev_store.specs.StoreCalls.{Decided, Changes, StandsAround, KeepsUsedUnits, IsTableWritten};

use crate::errors::StoreError;
use crate::install_parts::fill_parts;
use crate::install_read::read_tables;
use crate::layout::{PhysicalPart, SuperPart};
use crate::store::Store;
use crate::super_read::SuperRead;
use crate::table_install::Keeps;
use crate::table_write::put_next;
use dev_disk::disk::Disk;

impl SuperRead {
    /// Frees the units of what isn't kept, gives each entry a part, and plans the next table with the one in
    /// the room.
    fn take_tables(&mut self, s: &SuperPart, keeps: Keeps)
        requires bounded { IsBounded s.now }
        requires mapped { IsMap s.now self.old }
        requires rooms { HasRooms s.now self.old }
        requires one { OneOwner self.old.owners }
        requires few { length (content self.old.table).partitions ≤ 128 }
        requires listed { merged_count keeps self.old.room (content self.old.table) ≤ 128 }
        requires groups { length self.old.room.groups ≤ 64 }
        requires grouped { IsTrue (list_all (λ p. nat_lt p.group (length (content self.old.table).groups))
            (content self.old.table).partitions) }
        requires short { IsTrue (list_all (is_short (content self.old.table))
            (content self.old.table).partitions) }
        requires space { HasSpaceFor s.now keeps self.old }
        ensures planned { IsInstallPlanned s.now keeps self.old self.new }
    {
        keeps.release_others(&self.table, &self.parts, &mut self.owners);
        keeps.choose_parts(self.room.table(), &self.table, &mut self.parts);
        fill_parts(&mut self.parts);
        s.build_installed(
            &mut self.next,
            self.room.table(),
            &self.table,
            &self.owners,
            &self.parts,
            keeps,
        );
    }

    /// Reads the tables of a file, and plans the next table with them unless they are refused.
    fn plan_install(
        &mut self,
        s: &SuperPart,
        physical: &[PhysicalPart],
        keeps: Keeps,
        file: &[u8],
    ) -> Result<(), StoreError>
        requires bounded { IsBounded s.now }
        requires mapped { IsMap s.now self.old }
        requires rooms { HasRooms s.now self.old }
        requires one { OneOwner self.old.owners }
        requires few { length (content self.old.table).partitions ≤ 128 }
        requires grouped { IsTrue (list_all (λ p. nat_lt p.group (length (content self.old.table).groups))
            (content self.old.table).partitions) }
        requires short { IsTrue (list_all (is_short (content self.old.table))
            (content self.old.table).partitions) }
        requires space { (room : Content) → IsTaken physical.now s.now keeps (content self.old.table) file.now
            room → HasSpaceFor s.now keeps (with_room self.old room) }
        ensures refused { (e : StoreError) → IsErrOf result e →
            IsRefused physical.now s.now keeps (content self.old.table) file.now e }
        ensures unchanged { OnErr result (self.new ≡ with_room self.old self.new.room) }
        ensures taken { OnOk result (IsTaken physical.now s.now keeps (content self.old.table) file.now
            self.new.room) }
        ensures planned { OnOk result
            (IsInstallPlanned s.now keeps (with_room self.old self.new.room) self.new) }
    {
        let Some(geometry) = read_tables(&mut self.room, file) else {
            return Err(StoreError::BadTable);
        };
        let new = self.room.table();
        if let Some(refusal) = keeps.refusal(s, physical, geometry, new, &self.table) {
            return Err(refusal);
        }
        self.take_tables(s, keeps);
        Ok(())
    }
}

impl<K: Disk> Store<K> {
    /// Installs the table of a file, an image of an empty super, over the logical partitions. Kept are those
    /// that were there, but for `scratch` and those of the active slot; none where all are wiped. The
    /// partitions are then those that the table lists, with the bytes of the kept ones or empty, and behind
    /// them the kept ones that it doesn't list. After a fault of the disk the store may only be closed.
    pub fn install_table(&mut self, file: &[u8], wipe: bool) -> Result<(), StoreError>
        requires usable { IsFalse self.old.broken }
        ensures decided { Decided K.told (install_flaw (tables_of_image file.now) wipe self.old.device)
            self.old self.new result }
        ensures unchanged { (e : StoreError) → IsErrOf result e → e ≢ StoreError.Disk →
            self.new ≡ self.old }
        ensures changed { OnOk result (Changes K.told (installed (tables_of_image file.now) wipe)
            self.old self.new) }
        ensures around { IsErrOf result StoreError.Disk → IsHonest (K.told self.new.disk).torn →
            StandsAround (image_of K.told self.new) self.old.device
            (installed (tables_of_image file.now) wipe self.old.device) }
        ensures handed { OnOk result (KeepsUsedUnits self.old self.new) }
        ensures table { OnOk result (IsTableWritten K.told self.new) }
        ensures whole { OnOk result (IsWhole K.told self.new) }
        ensures kept { DiskKept K.told K.lent self.old.disk self.new.disk }
    {
        let Some(s) = self.layout.super_part() else {
            return Err(StoreError::BadTable);
        };
        let Some(within) = &mut self.within else {
            unreachable!();
        };
        let keeps = Keeps {
            wipe,
            slots: self.layout.slots() == 2,
            active: self.state.active,
        };
        let at = self.layout.parts_end();
        match within.plan_install(&s, self.layout.physical(), keeps, file) {
            Ok(()) => {}
            Err(refusal) => return Err(refusal),
        }
        let Ok(()) = put_next(&mut self.disk, &s, at, within) else {
            self.broken = true;
            return Err(StoreError::Disk);
        };
        Ok(())
    }
}
