ghost use Rattle.std.specs.Prelude.{◌≡◌, Bool, true, None, Some, IfSome, IsNone, IsTrue, IfOk, OnOk, OnErr};
ghost use Rattle.std.specs.Result.{IsErrOf};
ghost use Rattle.fb_frame.specs.Causes.{Rose};
ghost use Rattle.fb_frame.specs.Told.{Both};
ghost use Rattle.dev_model.specs.declared.bad_image.BadImage.{BadImage};
ghost use Rattle.dev_model.specs.declared.bad_image.BadImage.TheVariants.{BadState};
ghost use Rattle.dev_disk.specs.Files.{IsInside, DifferWithin};
ghost use Rattle.dev_disk.specs.Disks.{open_bytes, FilesKept, OpenKept};
ghost use Rattle.dev_store.specs.States.{is_state, record_in, record_of, record_block, state_copy};
ghost use Rattle.dev_store.specs.Faults.{IsHonest};
ghost use Rattle.dev_store.specs.Reading.{IsChosen, IsStateRead, IsOtherMended, IsStateLeft};
ghost use Rattle.dev_store.specs.Reading.{AreStatesMended, state_places};

use crate::errors::OpenError;
use crate::record::{read_record, write_record};
use crate::state::State;
use dev_disk::disk::{Disk, DiskFault};
use dev_disk::twin::Twin;
use dev_model::bad_image::BadImage;

/// A state, by the version of the record that was read, and whether that was the second one.
/// `alike` says that the other one has the same state in version 2.
#[derive(Clone, Copy, Debug)]
pub struct StateRead {
    pub state: State,
    pub version: u32,
    pub second: bool,
    pub alike: bool,
}

/// Where the two state records of an image lie.
pub fn states() -> Twin
    ensures { result ≡ state_places }
{
    Twin {
        first: 4096,
        second: 8192,
        size: 4096,
    }
}

/// The record of one copy, where it is one.
fn read_copy<K: Disk>(
    disk: &mut K,
    slots: u8,
    second: bool,
) -> Result<Option<(u32, State)>, DiskFault>
    requires inside { IsInside (K.told disk.old).open_length 0 12288 }
    ensures read { IfOk result (λ r. IfSome (open_bytes (K.told disk.old))
        (λ file. record_of slots (state_copy second file) ≡ r)) }
    ensures fits { IfOk result (λ r. IfSome r (λ found. IsTrue (is_state slots found.1))) }
    ensures kept { FilesKept (K.told disk.old) (K.told disk.new) }
    ensures cause { OnErr result (Rose (K.told disk.old).faults (K.told disk.new).faults) }
    ensures same { K.lent disk.new ≡ K.lent disk.old }
{
    let mut block = [0; 4096];
    states().read(disk, second, &mut block)?;
    Ok(read_record(slots, &block))
}

/// Whether a record is that of the state in version 2.
fn is_alike(found: Option<(u32, State)>, state: State) -> bool
    ensures { IsTrue result → found ≡ Some (2, state) }
{
    match found {
        Some((version, other)) => version == 2 && other.is_same(&state),
        None => false,
    }
}

/// The first of two records, or else the second one.
fn choose(first: Option<(u32, State)>, second: Option<(u32, State)>) -> Option<StateRead>
    ensures some { IfSome result (λ r. IsChosen first second r) }
    ensures none { IsNone result → (first ≡ None) × (second ≡ None) }
{
    match first {
        Some((version, state)) => Some(StateRead {
            state,
            version,
            second: false,
            alike: is_alike(second, state),
        }),
        None => match second {
            Some((version, state)) => Some(StateRead {
                state,
                version,
                second: true,
                alike: false,
            }),
            None => None,
        },
    }
}

/// The state of the first copy that is a record.
pub fn read_states<K: Disk>(disk: &mut K, slots: u8) -> Result<StateRead, OpenError>
    requires inside { IsInside (K.told disk.old).open_length 0 12288 }
    ensures read { IfOk result (λ r. IfSome (open_bytes (K.told disk.old)) (IsStateRead slots r)) }
    ensures fits { IfOk result (λ r. IsTrue (is_state slots r.state)) }
    ensures bad { (bad : BadImage) → IsErrOf result (OpenError.Bad bad) →
        (bad ≡ BadState) × IfSome (open_bytes (K.told disk.old)) (λ file. record_in slots file ≡ None) }
    ensures absent { IsErrOf result OpenError.Absent → ⊥ }
    ensures kept { FilesKept (K.told disk.old) (K.told disk.new) }
    ensures cause { IsErrOf result OpenError.Disk → Rose (K.told disk.old).faults (K.told disk.new).faults }
    ensures same { K.lent disk.new ≡ K.lent disk.old }
{
    let first = read_copy(disk, slots, false)?;
    let second = read_copy(disk, slots, true)?;
    match choose(first, second) {
        Some(read) => Ok(read),
        None => Err(OpenError::Bad(BadImage::BadState)),
    }
}

/// Writes the record anew that wasn't read, unless it has the state in version 2.
fn mend_other<K: Disk>(disk: &mut K, slots: u8, read: &StateRead) -> Result<(), DiskFault>
    requires inside { IsInside (K.told disk.old).open_length 0 12288 }
    requires read { IfSome (open_bytes (K.told disk.old)) (IsStateRead slots read.now) }
    requires fits { IsTrue (is_state slots read.now.state) }
    ensures mended { OnOk result (IfSome (open_bytes (K.told disk.new)) (IsOtherMended slots read.now)) }
    ensures left { OnErr result (IsHonest (K.told disk.new).torn →
        IfSome (open_bytes (K.told disk.new)) (IsStateLeft slots read.now.state)) }
    ensures within { Both (DifferWithin 4096 8192)
        (open_bytes (K.told disk.old)) (open_bytes (K.told disk.new)) }
    ensures kept { OpenKept (K.told disk.old) (K.told disk.new) }
    ensures cause { OnErr result (Rose (K.told disk.old).faults (K.told disk.new).faults) }
    ensures same { K.lent disk.new ≡ K.lent disk.old }
{
    if read.alike {
        return Ok(());
    }
    let mut block = [0; 4096];
    write_record(&read.state, &mut block);
    states().write_copy(disk, !read.second, &block)
}

/// Writes the record anew that was read, where it is of version 1.
fn mend_own<K: Disk>(disk: &mut K, slots: u8, read: &StateRead) -> Result<(), DiskFault>
    requires inside { IsInside (K.told disk.old).open_length 0 12288 }
    requires read { IfSome (open_bytes (K.told disk.old)) (IsOtherMended slots read.now) }
    requires fits { IsTrue (is_state slots read.now.state) }
    ensures mended { OnOk result
        (IfSome (open_bytes (K.told disk.new)) (AreStatesMended slots read.now.state)) }
    ensures left { OnErr result (IsHonest (K.told disk.new).torn →
        IfSome (open_bytes (K.told disk.new)) (IsStateLeft slots read.now.state)) }
    ensures within { Both (DifferWithin 4096 8192)
        (open_bytes (K.told disk.old)) (open_bytes (K.told disk.new)) }
    ensures kept { OpenKept (K.told disk.old) (K.told disk.new) }
    ensures cause { OnErr result (Rose (K.told disk.old).faults (K.told disk.new).faults) }
    ensures same { K.lent disk.new ≡ K.lent disk.old }
{
    if read.version == 2 {
        return Ok(());
    }
    let mut block = [0; 4096];
    write_record(&read.state, &mut block);
    states().write_copy(disk, read.second, &block)
}

/// Writes each record anew that can't be read, differs or is old: first the one that wasn't read.
pub fn repair_states<K: Disk>(disk: &mut K, slots: u8, read: &StateRead) -> Result<(), DiskFault>
    requires inside { IsInside (K.told disk.old).open_length 0 12288 }
    requires read { IfSome (open_bytes (K.told disk.old)) (IsStateRead slots read.now) }
    requires fits { IsTrue (is_state slots read.now.state) }
    ensures mended { OnOk result
        (IfSome (open_bytes (K.told disk.new)) (AreStatesMended slots read.now.state)) }
    ensures left { OnErr result (IsHonest (K.told disk.new).torn →
        IfSome (open_bytes (K.told disk.new)) (IsStateLeft slots read.now.state)) }
    ensures within { Both (DifferWithin 4096 8192)
        (open_bytes (K.told disk.old)) (open_bytes (K.told disk.new)) }
    ensures kept { OpenKept (K.told disk.old) (K.told disk.new) }
    ensures cause { OnErr result (Rose (K.told disk.old).faults (K.told disk.new).faults) }
    ensures same { K.lent disk.new ≡ K.lent disk.old }
{
    mend_other(disk, slots, read)?;
    mend_own(disk, slots, read)
}
