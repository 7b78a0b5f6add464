use fb_frame::tables::Tables;
use std::alloc::{AllocError, Global};
use super_meta::geometry::Geometry;
use super_meta::table::{BlockDevice, Extent, Group, Partition, Table};

/// What was read, a line each.
#[derive(Drop)]
pub struct Lines {
    alloc: Global,
    text: Vec<u8>,
    given: usize,
}

impl Lines {
    pub fn new(alloc: Global) -> Lines {
        Lines {
            alloc,
            text: Vec::new(alloc),
            given: 0,
        }
    }

    /// Whether the next line is this one. It is then taken.
    pub fn next_is(&mut self, line: &str) -> bool {
        let rest = self.text.get(self.given..).unwrap_or(b"");
        let Some(after) = rest.strip_prefix(line.as_bytes()) else {
            return false;
        };
        if after.first() != Some(&b'\n') {
            return false;
        }
        self.given = self
            .text
            .len()
            .saturating_sub(after.len())
            .saturating_add(1);
        true
    }

    /// Whether all lines were taken.
    pub fn at_end(&self) -> bool {
        self.given >= self.text.len()
    }

    fn add(&mut self, line: &str) -> Result<(), AllocError> {
        self.text.extend_from_slice(line.as_bytes())?;
        self.text.extend_from_slice(b"\n")
    }

    /// A word, and a name behind it.
    fn add_name(&mut self, word: &str, name: &[u8]) -> Result<(), AllocError> {
        self.text.extend_from_slice(word.as_bytes())?;
        self.text.extend_from_slice(b" ")?;
        self.text.extend_from_slice(name)
    }

    pub fn add_geometry(&mut self, geometry: &Geometry) -> anyhow::Result<()> {
        let (size, slots, block) = (geometry.max_size, geometry.slots, geometry.block_size);
        let line = format!(in self.alloc; "geometry {size} {slots} {block}")?;
        self.add(line.as_str())?;
        Ok(())
    }

    fn add_partition(&mut self, part: &Partition) -> anyhow::Result<()> {
        self.add_name("partition", part.name.bytes())?;
        let (attributes, first, count, group) = (
            part.attributes,
            part.first,
            part.count,
            part.group,
        );
        let line = format!(in self.alloc; " {attributes} {first} {count} {group}")?;
        self.add(line.as_str())?;
        Ok(())
    }

    fn add_extent(&mut self, extent: &Extent) -> anyhow::Result<()> {
        let (sectors, target) = (extent.sectors, extent.target);
        let line = format!(in self.alloc; "extent {sectors} {target}")?;
        self.add(line.as_str())?;
        Ok(())
    }

    fn add_group(&mut self, group: &Group) -> anyhow::Result<()> {
        self.add_name("group", group.name.bytes())?;
        let limit = group.limit;
        let line = format!(in self.alloc; " {limit}")?;
        self.add(line.as_str())?;
        Ok(())
    }

    fn add_device(&mut self, device: &BlockDevice) -> anyhow::Result<()> {
        self.add_name("device", device.name.bytes())?;
        let (size, first) = (device.size, device.first_sector);
        let (alignment, offset) = (device.alignment, device.offset);
        let line = format!(in self.alloc; " {size} {first} {alignment} {offset}")?;
        self.add(line.as_str())?;
        Ok(())
    }

    pub fn add_table(&mut self, table: &Table) -> anyhow::Result<()> {
        let (minor, flags) = (table.minor, table.flags);
        let line = format!(in self.alloc; "version 10.{minor} {flags}")?;
        self.add(line.as_str())?;
        for part in table.partitions.as_slice() {
            self.add_partition(part)?;
        }
        for extent in table.extents.as_slice() {
            self.add_extent(extent)?;
        }
        for group in table.groups.as_slice() {
            self.add_group(group)?;
        }
        self.add_device(&table.device)
    }

    /// A partition of a product's tables, and its group.
    pub fn add_listed(&mut self, name: &[u8], group: &[u8]) -> Result<(), AllocError> {
        self.add_name("partition", name)?;
        self.add_name("", group)?;
        self.add("")
    }

    pub fn add_limit(&mut self, name: &[u8], limit: u64) -> anyhow::Result<()> {
        self.add_name("group", name)?;
        let line = format!(in self.alloc; " {limit}")?;
        self.add(line.as_str())?;
        Ok(())
    }

    /// What a product's tables say of super.
    pub fn add_sizes(&mut self, tables: &Tables) -> anyhow::Result<()> {
        self.add_name("super", tables.device.name.bytes())?;
        let (size, alignment) = (tables.device.size, tables.device.alignment);
        let (room, minor, flags) = (tables.geometry.max_size, tables.minor, tables.flags);
        let line = format!(in self.alloc; " {size} {alignment} {room} 10.{minor} {flags}")?;
        self.add(line.as_str())?;
        Ok(())
    }
}
