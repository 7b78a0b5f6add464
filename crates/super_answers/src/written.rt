use std::alloc::Global;
use super_meta::reading::read_table;
use super_meta::table::Table;
use super_meta::writing::write_table;

/// Whether all of these bytes are 0xEE.
fn are_kept(bytes: &[u8]) -> bool {
    bytes.iter().all(|b| *b == 0xEE)
}

/// Whether a table isn't written where there are only so many bytes, which stay as they are.
fn is_refused(alloc: Global, table: &Table, room: usize) -> anyhow::Result<bool> {
    let mut room = vec![in alloc; 0xEE; room]?;
    Ok(table.is_sound() && write_table(table, &mut room).is_err() && are_kept(&room))
}

/// Whether a table that was read from these bytes is sound, gives them when it is written, and nothing behind them,
/// and isn't written where there is a byte less.
pub fn gives(alloc: Global, table: &Table, bytes: &[u8]) -> anyhow::Result<bool> {
    if !table.is_sound() {
        return Ok(false);
    }
    let mut room = vec![in alloc; 0xEE; bytes.len().saturating_add(100)]?;
    let Ok(size) = write_table(table, &mut room) else {
        return Ok(false);
    };
    let Some((front, rest)) = room.as_slice().split_at_checked(size) else {
        return Ok(false);
    };
    let again = read_table(alloc, front)?;
    Ok(
        front == bytes
            && are_kept(rest)
            && again.says_same(table)
            && is_refused(alloc, table, size.saturating_sub(1))?,
    )
}
