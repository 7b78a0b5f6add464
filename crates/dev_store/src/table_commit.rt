//! What the calls that change the table plan in super, before it is written.
ghost use Rattle.std.specs.Prelude.{◌≡◌, ◌+◌, ◌<◌, ◌≤◌, ◌++◌, length, take, drop, None, IsTrue};
ghost use Rattle.std.specs.List.{list_all};
ghost use Rattle.super_meta.specs.Contents.{content};
ghost use Rattle.dev_store.specs.SuperBounds.{IsBounded};
ghost use Rattle.dev_store.specs.SuperReads.{IsMap, HasRooms};
ghost use Rattle.dev_store.specs.Building.{is_short};
ghost use Rattle.dev_store.specs.TableCalls.{plans, released_at, HavePlace, IsPlanned};

use crate::layout::SuperPart;
use crate::super_read::SuperRead;

impl SuperRead {
    /// Frees the units of the partition at a place, and plans the next table without it.
    pub(crate) fn take_away(&mut self, s: &SuperPart, place: usize)
        requires bounded { IsBounded s.now }
        requires mapped { IsMap s.now self.old }
        requires rooms { HasRooms s.now self.old }
        requires groups { length (content self.old.table).groups ≤ 64 }
        requires short { IsTrue (list_all (is_short (content self.old.table))
            (content self.old.table).partitions) }
        requires there { place < length (content self.old.table).partitions }
        requires fits { HavePlace s.now (released_at self.old place) (plans self.old place None) }
        ensures planned { IsPlanned s.now (released_at self.old place) (plans self.old place None)
            self.old self.new }
        ensures parts { self.new.parts.items
            ≡ take place self.old.parts.items ++ drop (place + 1) self.old.parts.items }
    {
        let part = self.parts[place];
        self.owners.release(part);
        s.build_next(
            &mut self.next,
            &self.table,
            &self.owners,
            &self.parts,
            place,
            None,
        );
        self.parts.remove(place);
    }
}
