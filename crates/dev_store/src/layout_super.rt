ghost use Rattle.std.specs.Prelude.{◌≡◌, ◌≤◌, ◌^◌, IsTrue};
ghost use Rattle.dev_store.specs.declared.entries.Entry.TheVariants.{SuperLine};
ghost use Rattle.dev_store.specs.LayoutLines.{is_sized, first_unit, unit_count, has_room};

use crate::layout::SuperPart;

impl SuperPart {
    /// Where the first unit lies, in bytes from super's beginning: after the geometry and two copies of
    /// the table for each metadata slot, at a whole unit.
    pub(crate) fn first_unit(&self) -> u64
        requires { IsTrue (is_sized (SuperLine self.now)) }
        ensures first { result ≡ first_unit self.now }
        ensures bounded { result ≤ 2 ^ 31 }
    {
        let tables = 2 * u64::from(self.slots) * u64::from(self.max_size);
        (12288 + tables).next_multiple_of(u64::from(self.unit))
    }

    /// How many whole units follow.
    pub(crate) fn unit_count(&self) -> u64
        requires { IsTrue (is_sized (SuperLine self.now)) }
        ensures count { result ≡ unit_count self.now }
        ensures bounded { result ≤ 2 ^ 32 }
    {
        self.size.saturating_sub(self.first_unit()) / u64::from(self.unit)
    }

    /// Whether there is a unit, and a table has room for an extent of each.
    pub(crate) fn has_room(&self) -> bool
        requires { IsTrue (is_sized (SuperLine self.now)) }
        ensures { result ≡ has_room (SuperLine self.now) }
    {
        let units = self.unit_count();
        units > 0 && 10048 + 24 * units <= u64::from(self.max_size)
    }
}
