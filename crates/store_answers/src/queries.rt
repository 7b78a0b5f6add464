use crate::states::{is_userspace, show_state};
use crate::world::{Answer, World, say};
use dev_disk::memory::MemoryDisk;
use dev_store::store::Store;
use fb_frame::name::Name;
use fb_message::line::Line;
use std::alloc::Global;
use std::str;

/// A number, or that there is none.
fn say_number(alloc: Global, number: Option<u64>) -> Answer {
    match number {
        Some(number) => Ok(Some(number.to_string(alloc)?)),
        None => say(alloc, "none"),
    }
}

fn say_name(alloc: Global, name: Option<Name>) -> Answer {
    match name {
        Some(name) => say(alloc, str::from_utf8(name.bytes())?),
        None => say(alloc, "none"),
    }
}

fn say_kind(alloc: Global, is_logical: Option<bool>) -> Answer {
    let kind = match is_logical {
        None => "none",
        Some(true) => "logical",
        Some(false) => "physical",
    };
    say(alloc, kind)
}

/// A variable's text, where there is one.
fn say_line(alloc: Global, is_there: bool, line: &Line) -> Answer {
    if is_there {
        say(alloc, str::from_utf8(line.bytes())?)
    } else {
        say(alloc, "none")
    }
}

/// What a store tells of a partition.
fn ask_part(alloc: Global, store: &Store<MemoryDisk>, word: &str, text: &str) -> Answer {
    let Some(name) = Name::read(text.as_bytes()) else {
        return Ok(None);
    };
    match word {
        "size" => say_number(alloc, store.length(&name)),
        "kind" => say_kind(alloc, store.is_logical(&name)),
        "part" => say_number(alloc, store.place(&name).map(u64::from)),
        "group-of" => say_name(alloc, store.group_of(&name)),
        _ => Ok(None),
    }
}

/// What a store tells by a place.
fn ask_place(alloc: Global, store: &Store<MemoryDisk>, word: &str, text: &str) -> Answer {
    let Ok(place) = text.parse() else {
        return Ok(None);
    };
    match word {
        "name" => say_name(alloc, store.name_at(place)),
        "group" => ask_group(alloc, store, place),
        _ => Ok(None),
    }
}

fn ask_group(alloc: Global, store: &Store<MemoryDisk>, place: u32) -> Answer {
    let Some(group) = store.group(place) else {
        return say(alloc, "none");
    };
    let name = str::from_utf8(group.name.bytes())?;
    Ok(Some(format!(in alloc; "{name} {}", group.limit)?))
}

/// What a store tells of itself.
fn ask_all(alloc: Global, store: &Store<MemoryDisk>, word: &str) -> Answer {
    match word {
        "state" => Ok(Some(show_state(alloc, &store.state())?)),
        "slots" => say_number(alloc, Some(u64::from(store.slots()))),
        "max-download" => say_number(alloc, Some(u64::from(store.max_download()))),
        "free" => say_number(alloc, store.owners().map(|owners| u64::from(owners.free()))),
        "table-version" => ask_version(alloc, store),
        _ => Ok(None),
    }
}

fn ask_version(alloc: Global, store: &Store<MemoryDisk>) -> Answer {
    let (minor, flags) = store.table_version();
    Ok(Some(format!(in alloc; "{minor} {flags}")?))
}

/// A variable, by its name or by its place in the order of all, as a mode and that tell.
fn ask_variable(alloc: Global, store: &Store<MemoryDisk>, word: &str, text: &str) -> Answer {
    let Some((mode, of)) = text.split_once(" ") else {
        return Ok(None);
    };
    let (Some(userspace), Some(mut line)) = (is_userspace(mode), Line::read(b"")) else {
        return Ok(None);
    };
    let is_there = match (word, of.parse()) {
        ("value", _) => store.value(of.as_bytes(), userspace, &mut line),
        ("variable", Ok(place)) => store.variable(place, userspace, &mut line),
        _ => return Ok(None),
    };
    say_line(alloc, is_there, &line)
}

/// What a store tells.
fn ask(alloc: Global, store: &Store<MemoryDisk>, word: &str, text: &str) -> Answer {
    match word {
        "size" | "kind" | "part" | "group-of" => ask_part(alloc, store, word, text),
        "name" | "group" => ask_place(alloc, store, word, text),
        "value" | "variable" => ask_variable(alloc, store, word, text),
        _ => ask_all(alloc, store, word),
    }
}

/// Whether a word asks a store.
fn is_query(word: &str) -> bool {
    match word {
        "size" | "kind" | "part" | "group-of" | "name" | "group" | "value" | "variable" => true,
        "state" | "slots" | "max-download" | "free" | "table-version" => true,
        _ => false,
    }
}

impl World {
    /// Takes a line that asks a store.
    pub fn query_word(&self, alloc: Global, word: &str, text: &str) -> Answer {
        match &self.store {
            Some(open) => ask(alloc, open.store(), word, text),
            None if is_query(word) => say(alloc, "shut"),
            None => Ok(None),
        }
    }
}
