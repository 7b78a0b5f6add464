//! Whether each group holds at most its limit, where a partition has another length or one is added.
ghost use Rattle.std.specs.Prelude.{◌≡◌, ℕ, List, [], ◌∷◌, ◌++◌, ◌+◌, ◌^◌, ◌<◌, ◌≤◌, ◌==◌, ◌||◌, length, map};
ghost use Rattle.std.specs.Prelude.{nat_le, codes, bytes_eq, if◌then◌else◌};
ghost use Rattle.std.specs.List.{list_all};
ghost use Rattle.dev_model.specs.Images.{round_up};
ghost use Rattle.dev_model.specs.Refusals.{created_size};
ghost use Rattle.dev_model.specs.Sizes.{size_changed, resized, share_of, group_bytes, groups_fit};
ghost use Rattle.super_meta.specs.Contents.{content};
ghost use Rattle.super_meta.specs.Held.{limited};
ghost use Rattle.dev_store.specs.Supers.{size_in};

use crate::units::{bytes_in, extents_of, group_bytes, is_in_group};
use super_meta::table::{Group, Partition, Table};

/// How many bytes a partition has, where the one of a name has another length.
fn changed_length(table: &Table, partition: &Partition, name: &[u8], size: u64) -> u128
    ensures long { result
        ≡ (size_changed name.now size (size_in (content table.now) partition.now)).bytes }
    ensures bounded { result < 2 ^ 105 }
{
    if partition.name.bytes() == name {
        return size as u128;
    }
    bytes_in(extents_of(&table.extents, partition))
}

/// How many bytes of a group a partition takes, where the one of a name has another length.
fn changed_share(
    table: &Table,
    partition: &Partition,
    group: &Group,
    name: &[u8],
    size: u64,
) -> u128
    ensures share { result
        ≡ share_of group.now.name (size_changed name.now size (size_in (content table.now) partition.now)) }
    ensures bounded { result < 2 ^ 105 }
{
    if is_in_group(table, partition, group) {
        changed_length(table, partition, name, size)
    } else {
        0
    }
}

/// How many bytes the partitions of a group hold together, where the one of a name has another length.
fn changed_bytes(table: &Table, group: &Group, name: &[u8], size: u64) -> u128
    requires { length (content table.now).partitions ≤ 128 }
    ensures { let c = content table.now in
        result ≡ group_bytes group.now.name (resized name.now size (map (size_in c) c.partitions)) }
{
    let mut bytes = 0;
    for partition in &table.partitions {
        bytes += changed_share(table, partition, group, name, size);
    }
    bytes
}

/// Whether a group has no limit, or its partitions hold at most that, where the one of a name has another
/// length.
fn group_holds(table: &Table, group: &Group, name: &[u8], size: u64) -> bool
    requires { length (content table.now).partitions ≤ 128 }
    ensures { let c = content table.now in
        result ≡ (group.now.limit == 0 || nat_le (group_bytes group.now.name
        (resized name.now size (map (size_in c) c.partitions))) group.now.limit) }
{
    group.limit == 0 || changed_bytes(table, group, name, size) <= group.limit as u128
}

/// Whether each group does so.
fn each_holds(table: &Table, name: &[u8], size: u64) -> bool
    requires { length (content table.now).partitions ≤ 128 }
    ensures { let c = content table.now in
        result ≡ list_all (λ g. g.limit == 0 || nat_le (group_bytes g.name
        (resized name.now size (map (size_in c) c.partitions))) g.limit) c.groups }
{
    table
        .groups
        .iter()
        .all(|group| group_holds(table, group, name, size))
}

/// Whether each group with a limit holds at most its limit, where the partition of a name has another
/// length in bytes.
pub(crate) fn groups_hold(table: &Table, name: &[u8], size: u64) -> bool
    requires { length (content table.now).partitions ≤ 128 }
    ensures { let c = content table.now in
        result ≡ groups_fit (map limited c.groups) (resized name.now size (map (size_in c) c.partitions)) }
{
    each_holds(table, name, size)
}

/// How many bytes of a group a new partition takes, which is in `default`.
fn added_share(group: &Group, bytes: u64) -> u64
    ensures { result ≡ share_of group.now.name
        (record { name = []; group = codes "default"; bytes = bytes }) }
{
    if b"default".as_slice() == group.name.bytes() {
        bytes
    } else {
        0
    }
}

/// Whether a group has no limit, or its partitions and a new one in `default` hold at most that.
fn group_holds_more(table: &Table, group: &Group, bytes: u64) -> bool
    requires { length (content table.now).partitions ≤ 128 }
    ensures { let sizes = map (size_in (content table.now)) (content table.now).partitions in
        result ≡ (group.now.limit == 0 || nat_le (group_bytes group.now.name
        (sizes ++ record { name = []; group = codes "default"; bytes = bytes } ∷ [])) group.now.limit) }
{
    let more = added_share(group, bytes);
    group.limit == 0
        || more <= group.limit && group_bytes(table, group) <= (group.limit - more) as u128
}

/// Whether each group does so.
fn each_holds_more(table: &Table, bytes: u64) -> bool
    requires { length (content table.now).partitions ≤ 128 }
    ensures { let sizes = map (size_in (content table.now)) (content table.now).partitions in
        result ≡ list_all (λ g. g.limit == 0 || nat_le (group_bytes g.name
        (sizes ++ record { name = []; group = codes "default"; bytes = bytes } ∷ [])) g.limit)
        (content table.now).groups }
{
    table
        .groups
        .iter()
        .all(|group| group_holds_more(table, group, bytes))
}

/// Whether each group with a limit holds at most its limit with a new partition in `default`, of whole
/// blocks.
pub(crate) fn groups_hold_more(table: &Table, bytes: u64) -> bool
    requires { length (content table.now).partitions ≤ 128 }
    ensures { (name : List ℕ) (size : ℕ) → bytes ≡ round_up size → let c = content table.now in
        result ≡ groups_fit (map limited c.groups)
        (map (size_in c) c.partitions ++ created_size name size ∷ []) }
{
    each_holds_more(table, bytes)
}
