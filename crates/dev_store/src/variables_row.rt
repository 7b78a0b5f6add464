ghost use Rattle.std.specs.Prelude.{◌<◌, ◌^◌};
ghost use Rattle.dev_store.specs.Supers.{bytes_in};

use crate::layout::PhysicalPart;
use dev_model::device::{BothFlags, Variable};
use fb_frame::name::Name;
use fb_frame::slot::Slot;
use super_meta::table::{Extent, Partition};

/// Extents whose bytes can be counted in 64 bits.
#[derive(Clone, Copy)]
pub struct Extents<'a> {
    pub list: &'a [Extent],
    ghost small: { bytes_in list.now < 2 ^ 64 },
}

/// What a variable's text is written from.
#[derive(Clone, Copy)]
pub enum Text<'a> {
    Bytes(&'a [u8]),
    Size(u64),
    Extents(Extents<'a>),
    Count(u8),
}

/// A variable: its name in two parts, and its text.
#[derive(Clone, Copy)]
pub struct Row<'a> {
    pub head: &'a [u8],
    pub of: &'a [u8],
    pub text: Text<'a>,
}

/// The row at a place of a list, or how many places further on it stands.
#[derive(Clone, Copy)]
pub enum Step<'a> {
    Found(Row<'a>),
    Later(usize),
}

/// What the variables of a device tell of.
#[derive(Clone, Copy)]
pub struct Facts<'a> {
    pub product: &'a [u8],
    pub serial: &'a [u8],
    pub vars: &'a [Variable],
    pub slots: u8,
    pub max: u32,
    pub super_name: Option<Name>,
    pub physical: &'a [PhysicalPart],
    pub active: Slot,
    pub flags: BothFlags,
    pub locked: bool,
    pub userspace: bool,
    pub logical: &'a [Partition],
    pub extents: &'a [Extent],
}
