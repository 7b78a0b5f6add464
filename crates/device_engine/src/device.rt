ghost use Rattle.std.specs.Prelude.{◌≡◌, IsTrue};
ghost use Rattle.dev_model.specs.Partitions.{is_fastboot};
ghost use Rattle.dev_model.specs.declared.device.Mode.TheVariants as mode;
ghost use Rattle.dev_store.specs.Held.{IsWhole, held_in};
ghost use Rattle.device_engine.specs.Running.{held_of, IsTyped, IsInOrder};

use dev_disk::disk::Disk;
use dev_model::device::Mode;
use dev_store::store::Store;
use std::marker::Model;

/// What was downloaded last in a connection.
#[derive(Clone, Copy, Debug)]
pub enum Loaded<'a> {
    Nothing,
    Bytes(&'a [u8]),
}

/// A device that runs the bootloader.
#[derive(Drop)]
pub struct Bootloader<K: Disk> {
    pub(crate) store: Store<K>,
}

/// A device that runs userspace fastboot.
#[derive(Drop)]
pub struct Userspace<K: Disk> {
    pub(crate) store: Store<K>,
}

/// A device that left fastboot. Its image opens in the bootloader.
#[derive(Drop)]
pub struct Gone<K: Disk> {
    pub(crate) store: Store<K>,
    pub(crate) mode: Mode,
}

/// A device whose disk failed.
#[derive(Drop)]
pub struct Halted<K: Disk> {
    pub(crate) store: Store<K>,
}

impl<K: Disk> Model for Bootloader<K> {
    ghost use Rattle.std.specs.Prelude.{◌≡◌};
    ghost use Rattle.dev_model.specs.declared.device.Mode.TheVariants.{Bootloader};
    ghost use Rattle.dev_store.specs.Held.{Held, IsWhole};

    ghost Value = { Held K };

    ghost view = { λ d. d.store };

    ghost invariant = { λ d. IsWhole K.told d.store × (d.store.device.mode ≡ Bootloader) };
}

impl<K: Disk> Model for Userspace<K> {
    ghost use Rattle.std.specs.Prelude.{◌≡◌};
    ghost use Rattle.dev_model.specs.declared.device.Mode.TheVariants.{Userspace};
    ghost use Rattle.dev_store.specs.Held.{Held, IsWhole};

    ghost Value = { Held K };

    ghost view = { λ d. d.store };

    ghost invariant = { λ d. IsWhole K.told d.store × (d.store.device.mode ≡ Userspace) };
}

impl<K: Disk> Model for Gone<K> {
    ghost use Rattle.std.specs.Prelude.{◌≡◌, ◌⊎◌};
    ghost use Rattle.dev_model.specs.declared.device.Mode.TheVariants.{Bootloader, System, Recovery};
    ghost use Rattle.dev_store.specs.Held.{Held, held_in, IsWhole};

    ghost Value = { Held K };

    ghost view = { λ d. held_in d.mode d.store };

    ghost invariant = { λ d. IsWhole K.told d.store × (d.store.device.mode ≡ Bootloader)
        × ((d.mode ≡ System) ⊎ (d.mode ≡ Recovery)) };
}

impl<K: Disk> Model for Halted<K> {
    ghost use Rattle.dev_model.specs.declared.device.Mode.TheVariants.{Halted};
    ghost use Rattle.dev_store.specs.Held.{Held, held_in};

    ghost Value = { Held K };

    ghost view = { λ d. held_in Halted d.store };
}

/// A device in one of its modes.
#[derive(Drop)]
pub enum Device<K: Disk> {
    Bootloader(Bootloader<K>),
    Userspace(Userspace<K>),
    Gone(Gone<K>),
    Halted(Halted<K>),
}

/// A device after a command, how many bytes of a download are due, and whether the connection closes.
#[derive(Drop)]
pub struct Next<K: Disk> {
    pub device: Device<K>,
    pub due: Option<u32>,
    pub closes: bool,
}

impl<K: Disk> Device<K> {
    /// The device of a store, in the mode of its state record.
    pub fn new(store: Store<K>) -> Device<K>
        requires whole { IsWhole K.told store }
        requires fastboot { IsTrue (is_fastboot store.device.mode) }
        ensures held { held_of result ≡ store }
        ensures typed { IsTyped result }
    {
        if store.state().userspace {
            Device::Userspace(Userspace { store })
        } else {
            Device::Bootloader(Bootloader { store })
        }
    }

    /// The longest download that is taken, in bytes.
    pub fn max_download(&self) -> u32
        ensures max { result ≡ (held_of self.now).device.max }
    {
        match self {
            Device::Bootloader(device) => device.store.max_download(),
            Device::Userspace(device) => device.store.max_download(),
            Device::Gone(device) => device.store.max_download(),
            Device::Halted(device) => device.store.max_download(),
        }
    }

    /// Gives the disk back.
    pub fn into_disk(self) -> K
        ensures disk { result ≡ (held_of self).disk }
        ensures in_order { IsInOrder K.told (held_of self) }
    {
        match self {
            Device::Bootloader(device) => device.store.into_disk(),
            Device::Userspace(device) => device.store.into_disk(),
            Device::Gone(device) => device.store.into_disk(),
            Device::Halted(device) => device.store.into_disk(),
        }
    }
}

impl<K: Disk> Gone<K> {
    /// What the device runs.
    pub fn mode(&self) -> Mode
        ensures mode { result ≡ self.now.device.mode }
    {
        self.mode
    }

    /// The store again, in the mode in which its image opens.
    pub fn into_store(self) -> Store<K>
        ensures store { result ≡ held_in mode.Bootloader self }
        ensures whole { IsWhole K.told result }
    {
        self.store
    }
}

impl<K: Disk> Halted<K> {
    /// Gives the disk back.
    pub fn into_disk(self) -> K
        ensures disk { result ≡ self.disk }
    {
        self.store.into_disk()
    }
}
