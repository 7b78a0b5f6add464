ghost use Rattle.std.specs.Prelude.{◌≡◌, option_map, find, bytes_eq};
ghost use Rattle.std.specs.List.{list_any};
ghost use Rattle.dev_model.specs.Partitions.{is_userspace, is_fastboot, has_slots, is_physical, is_logical, is_partition, is_super, is_target, bytes_of};

use crate::device::{Dev, Logical, Mode, Physical};

/// Whether fastbootd runs, which knows the logical partitions.
pub fn is_userspace(mode: Mode) -> bool
    ensures { result ≡ is_userspace mode }
{
    match mode {
        Mode::Userspace => true,
        Mode::Bootloader | Mode::System | Mode::Recovery | Mode::Halted => false,
    }
}

/// Whether a device in this mode answers fastboot commands.
pub fn is_fastboot(mode: Mode) -> bool
    ensures { result ≡ is_fastboot mode }
{
    match mode {
        Mode::Bootloader | Mode::Userspace => true,
        Mode::System | Mode::Recovery | Mode::Halted => false,
    }
}

/// Whether the device keeps two sets of partitions.
pub fn has_slots(dev: &Dev) -> bool
    ensures { result ≡ has_slots dev.now }
{
    dev.slots == 2
}

/// Whether there is a physical partition of the name.
pub fn is_physical(dev: &Dev, name: &[u8]) -> bool
    ensures { result ≡ is_physical dev.now name.now }
{
    dev.physical
        .as_slice()
        .iter()
        .any(|p| p.name.bytes() == name)
}

/// Whether there is a logical partition of the name.
pub fn is_logical(dev: &Dev, name: &[u8]) -> bool
    ensures { result ≡ is_logical dev.now name.now }
{
    dev.logical
        .as_slice()
        .iter()
        .any(|p| p.name.bytes() == name)
}

/// Whether there is a partition of the name, of either kind.
pub fn is_partition(dev: &Dev, name: &[u8]) -> bool
    ensures { result ≡ is_partition dev.now name.now }
{
    is_physical(dev, name) || is_logical(dev, name)
}

/// Whether the name is that of super.
pub fn is_super(dev: &Dev, name: &[u8]) -> bool
    ensures { result ≡ is_super dev.now name.now }
{
    match &dev.super_name {
        None => false,
        Some(own) => own.bytes() == name,
    }
}

/// Whether the device flashes and erases a partition of the name in its mode.
pub fn is_target(dev: &Dev, name: &[u8]) -> bool
    ensures { result ≡ is_target dev.now name.now }
{
    is_physical(dev, name) || (is_userspace(dev.mode) && is_logical(dev, name))
}

/// The bytes of the partition of the name, where there is one.
pub fn bytes_of<'a>(dev: &'a Dev, name: &[u8]) -> Option<&'a [u8]>
    ensures { option_map (λ bytes. bytes.now) result ≡ bytes_of dev.now name.now }
{
    match physical_bytes(dev.physical.as_slice(), name) {
        Some(bytes) => Some(bytes),
        None => logical_bytes(dev.logical.as_slice(), name),
    }
}

fn physical_bytes<'a>(parts: &'a [Physical], name: &[u8]) -> Option<&'a [u8]>
    ensures { option_map (λ bytes. bytes.now) result
        ≡ option_map (λ p. p.bytes) (find (λ p. bytes_eq p.name name.now) parts.now) }
{
    for part in parts {
        if part.name.bytes() == name {
            return Some(part.bytes.as_slice());
        }
    }
    None
}

fn logical_bytes<'a>(parts: &'a [Logical], name: &[u8]) -> Option<&'a [u8]>
    ensures { option_map (λ bytes. bytes.now) result
        ≡ option_map (λ p. p.bytes) (find (λ p. bytes_eq p.name name.now) parts.now) }
{
    for part in parts {
        if part.name.bytes() == name {
            return Some(part.bytes.as_slice());
        }
    }
    None
}
