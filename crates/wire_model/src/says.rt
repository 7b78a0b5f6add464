ghost use Rattle.std.specs.Prelude.{◌≡◌, ◌∷◌, [], IfOk, option_map, option_and_then};
ghost use Rattle.fb_message.specs.declared.reply.Reply.TheVariants.{Okay, Fail};
ghost use Rattle.fb_message.specs.CommandText.{command_value, GetVar, Download, Flash, Erase, SetActive, Reboot, Continue, Lock, Unlock, UnlockAbility, Unknown, UpdateSuper, Create, Delete, Resize};
ghost use Rattle.dev_model.specs.RefusalTexts.{text_of};
ghost use Rattle.wire_model.specs.Answers.{answer_of};
ghost use Rattle.dev_model.specs.Refusals.{update_refusal};
ghost use Rattle.dev_model.specs.Variables.{value};
ghost use Rattle.wire_model.specs.Says.{answers, leaves, loaded_image, mode_of, says, tells, tells_all, updates};
ghost use Rattle.wire_model.specs.TableFile.{tables_of};

use crate::answer::Answer;
use crate::replies::{all_told, fail, load, okay};
use crate::table_file::tables_of;
use dev_model::cells::{ByteList, Cells};
use dev_model::copies::{copy_bytes, copy_dev};
use dev_model::device::{Dev, Mode};
use dev_model::editing::{created, deleted, relocked};
use dev_model::merged::with_tables;
use dev_model::refusal::Refusal;
use dev_model::refusals::{
    active_refusal, create_refusal, delete_refusal, download_refusal, erase_refusal, flash_refusal,
    lock_refusal, resize_refusal, update_refusal,
};
use dev_model::sparse::image;
use dev_model::steps::{activated, erased, resized, with_image, with_mode};
use dev_model::variables::value;
use fb_frame::items::Items;
use fb_frame::memory::Memory;
use fb_frame::name::Name;
use fb_frame::slot::Slot;
use fb_frame::tables::Tables;
use fb_message::command::{BootTarget, Command};
use std::alloc::Global;

fn file_of(loaded: &Option<ByteList>) -> Option<&[u8]>
    ensures { option_map (λ file. file.now) result ≡ loaded.now }
{
    match loaded {
        None => None,
        Some(file) => Some(file.as_slice()),
    }
}

fn copy_loaded(alloc: Global, loaded: &Option<ByteList>) -> Result<Option<ByteList>, Memory>
    ensures { IfOk result (λ copy. copy ≡ loaded.now) }
{
    match loaded {
        None => Ok(None),
        Some(file) => {
            let copy = copy_bytes(alloc, file.as_slice())?;
            Ok(Some(copy))
        }
    }
}

/// OKAY with a text, and this device.
fn done(
    alloc: Global,
    text: &[u8],
    device: Dev,
    loaded: &Option<ByteList>,
) -> Result<Answer, Memory>
    ensures { IfOk result (λ answer. answer ≡ answer_of (answers (Okay text.now ∷ []) device loaded.now)) }
{
    let out = okay(alloc, text)?;
    let loaded = copy_loaded(alloc, loaded)?;
    Ok(Answer {
        out,
        device,
        loaded,
        due: None,
        closed: false,
    })
}

/// FAIL with a text, and nothing changes.
fn failed(
    alloc: Global,
    text: &[u8],
    dev: &Dev,
    loaded: &Option<ByteList>,
) -> Result<Answer, Memory>
    ensures { IfOk result (λ answer. answer ≡ answer_of (answers (Fail text.now ∷ []) dev.now loaded.now)) }
{
    let out = fail(alloc, text)?;
    let device = copy_dev(alloc, dev)?;
    let loaded = copy_loaded(alloc, loaded)?;
    Ok(Answer {
        out,
        device,
        loaded,
        due: None,
        closed: false,
    })
}

fn refused(
    alloc: Global,
    refusal: Refusal,
    dev: &Dev,
    loaded: &Option<ByteList>,
) -> Result<Answer, Memory>
    ensures { IfOk result (λ answer. answer ≡ answer_of
        (answers (Fail (text_of refusal) ∷ []) dev.now loaded.now)) }
{
    let answer = failed(alloc, refusal.text(), dev, loaded)?;
    Ok(answer)
}

/// All variables.
fn tell_all(alloc: Global, dev: &Dev, loaded: &Option<ByteList>) -> Result<Answer, Memory>
    ensures { IfOk result (λ answer. answer ≡ answer_of (answers (tells_all dev.now) dev.now loaded.now)) }
{
    let out = all_told(alloc, dev)?;
    let device = copy_dev(alloc, dev)?;
    let loaded = copy_loaded(alloc, loaded)?;
    Ok(Answer {
        out,
        device,
        loaded,
        due: None,
        closed: false,
    })
}

/// A variable's text, where there is one.
fn tell(alloc: Global, dev: &Dev, loaded: &Option<ByteList>, name: &[u8]) -> Result<Answer, Memory>
    ensures { IfOk result (λ answer. answer ≡ answer_of
        (answers (tells (value dev.now name.now)) dev.now loaded.now)) }
{
    match value(alloc, dev, name)? {
        None => {
            let answer = failed(alloc, b"unknown variable".as_slice(), dev, loaded)?;
            Ok(answer)
        }
        Some(text) => {
            let device = copy_dev(alloc, dev)?;
            let answer = done(alloc, text.as_slice(), device, loaded)?;
            Ok(answer)
        }
    }
}

#[tactic(auto, unfolding(crate::specs::Says::says))]
fn get_var(
    alloc: Global,
    dev: &Dev,
    loaded: &Option<ByteList>,
    name: &[u8],
) -> Result<Answer, Memory>
    ensures { IfOk result (λ answer. answer ≡ answer_of (says dev.now loaded.now (GetVar name.now))) }
{
    if name == b"all".as_slice() {
        tell_all(alloc, dev, loaded)
    } else {
        tell(alloc, dev, loaded, name)
    }
}

#[tactic(auto, unfolding(crate::specs::Says::says))]
fn download(
    alloc: Global,
    dev: &Dev,
    loaded: &Option<ByteList>,
    count: u32,
) -> Result<Answer, Memory>
    ensures { IfOk result (λ answer. answer ≡ answer_of (says dev.now loaded.now (Download count))) }
{
    if let Some(refusal) = download_refusal(dev, count) {
        let answer = refused(alloc, refusal, dev, loaded)?;
        return Ok(answer);
    }
    let out = load(alloc, count)?;
    let device = copy_dev(alloc, dev)?;
    Ok(Answer {
        out,
        device,
        loaded: None,
        due: Some(count),
        closed: false,
    })
}

/// The cells of what was downloaded.
fn loaded_image(alloc: Global, loaded: &Option<ByteList>) -> Result<Cells, Memory>
    ensures { IfOk result (λ cells. cells ≡ loaded_image loaded.now) }
{
    let Some(file) = loaded else {
        return Ok(Items::new(alloc));
    };
    match image(alloc, file.as_slice())? {
        None => Ok(Items::new(alloc)),
        Some(cells) => Ok(cells),
    }
}

fn flash(alloc: Global, dev: &Dev, loaded: &Option<ByteList>, name: &Name) -> Result<Answer, Memory>
    ensures { IfOk result (λ answer. answer ≡ answer_of (says dev.now loaded.now (Flash name.now))) }
{
    let verdict = flash_refusal(alloc, dev, file_of(loaded), name)?;
    if let Some(refusal) = verdict {
        let answer = refused(alloc, refusal, dev, loaded)?;
        return Ok(answer);
    }
    let cells = loaded_image(alloc, loaded)?;
    let device = with_image(alloc, name, cells.as_slice(), dev)?;
    let answer = done(alloc, b"".as_slice(), device, loaded)?;
    Ok(answer)
}

fn erase(alloc: Global, dev: &Dev, loaded: &Option<ByteList>, name: &Name) -> Result<Answer, Memory>
    ensures { IfOk result (λ answer. answer ≡ answer_of (says dev.now loaded.now (Erase name.now))) }
{
    if let Some(refusal) = erase_refusal(dev, name) {
        let answer = refused(alloc, refusal, dev, loaded)?;
        return Ok(answer);
    }
    let device = erased(alloc, name, dev)?;
    let answer = done(alloc, b"".as_slice(), device, loaded)?;
    Ok(answer)
}

fn set_active(
    alloc: Global,
    dev: &Dev,
    loaded: &Option<ByteList>,
    slot: Slot,
) -> Result<Answer, Memory>
    ensures { IfOk result (λ answer. answer ≡ answer_of (says dev.now loaded.now (SetActive slot))) }
{
    if let Some(refusal) = active_refusal(dev) {
        let answer = refused(alloc, refusal, dev, loaded)?;
        return Ok(answer);
    }
    let device = activated(alloc, slot, dev)?;
    let answer = done(alloc, b"".as_slice(), device, loaded)?;
    Ok(answer)
}

/// OKAY, and the device starts in the mode.
fn leave(alloc: Global, mode: Mode, dev: &Dev, loaded: &Option<ByteList>) -> Result<Answer, Memory>
    ensures { IfOk result (λ answer. answer ≡ answer_of (leaves mode dev.now loaded.now)) }
{
    let out = okay(alloc, b"".as_slice())?;
    let device = with_mode(alloc, mode, dev)?;
    let loaded = copy_loaded(alloc, loaded)?;
    Ok(Answer {
        out,
        device,
        loaded,
        due: None,
        closed: true,
    })
}

fn mode_of(target: BootTarget) -> Mode
    ensures { result ≡ mode_of target }
{
    match target {
        BootTarget::System => Mode::System,
        BootTarget::Bootloader => Mode::Bootloader,
        BootTarget::Fastboot => Mode::Userspace,
        BootTarget::Recovery => Mode::Recovery,
    }
}

fn lock(alloc: Global, dev: &Dev, loaded: &Option<ByteList>) -> Result<Answer, Memory>
    ensures { IfOk result (λ answer. answer ≡ answer_of (says dev.now loaded.now Lock)) }
{
    if let Some(refusal) = lock_refusal(dev) {
        let answer = refused(alloc, refusal, dev, loaded)?;
        return Ok(answer);
    }
    let device = relocked(alloc, dev)?;
    let answer = done(alloc, b"".as_slice(), device, loaded)?;
    Ok(answer)
}

fn create(
    alloc: Global,
    dev: &Dev,
    loaded: &Option<ByteList>,
    name: &Name,
    size: u64,
) -> Result<Answer, Memory>
    ensures { IfOk result (λ answer. answer ≡ answer_of (says dev.now loaded.now (Create name.now size))) }
{
    if let Some(refusal) = create_refusal(dev, name, size) {
        let answer = refused(alloc, refusal, dev, loaded)?;
        return Ok(answer);
    }
    let device = created(alloc, name, size, dev)?;
    let answer = done(alloc, b"".as_slice(), device, loaded)?;
    Ok(answer)
}

fn delete(
    alloc: Global,
    dev: &Dev,
    loaded: &Option<ByteList>,
    name: &Name,
) -> Result<Answer, Memory>
    ensures { IfOk result (λ answer. answer ≡ answer_of (says dev.now loaded.now (Delete name.now))) }
{
    if let Some(refusal) = delete_refusal(dev, name) {
        let answer = refused(alloc, refusal, dev, loaded)?;
        return Ok(answer);
    }
    let device = deleted(alloc, name, dev)?;
    let answer = done(alloc, b"".as_slice(), device, loaded)?;
    Ok(answer)
}

fn resize(
    alloc: Global,
    dev: &Dev,
    loaded: &Option<ByteList>,
    name: &Name,
    size: u64,
) -> Result<Answer, Memory>
    ensures { IfOk result (λ answer. answer ≡ answer_of (says dev.now loaded.now (Resize name.now size))) }
{
    if let Some(refusal) = resize_refusal(dev, name, size) {
        let answer = refused(alloc, refusal, dev, loaded)?;
        return Ok(answer);
    }
    let device = resized(alloc, name, size, dev)?;
    let answer = done(alloc, b"".as_slice(), device, loaded)?;
    Ok(answer)
}

/// The tables of what was downloaded.
fn loaded_tables(alloc: Global, loaded: &Option<ByteList>) -> Result<Option<Tables>, Memory>
    ensures { IfOk result (λ tables. tables ≡ option_and_then tables_of loaded.now) }
{
    match loaded {
        None => Ok(None),
        Some(file) => tables_of(alloc, file.as_slice()),
    }
}

/// The device with the tables that were downloaded.
fn updated(alloc: Global, tables: &Option<Tables>, wipe: bool, dev: &Dev) -> Result<Dev, Memory>
    ensures { IfOk result (λ after. after ≡ updates tables.now wipe dev.now) }
{
    match tables {
        None => copy_dev(alloc, dev),
        Some(tables) => with_tables(alloc, tables, wipe, dev),
    }
}

fn tables_refusal(
    dev: &Dev,
    loaded: &Option<ByteList>,
    tables: &Option<Tables>,
    name: &Name,
    wipe: bool,
) -> Option<Refusal>
    ensures { option_map text_of result ≡ update_refusal dev.now loaded.now tables.now name.now wipe }
{
    match tables {
        None => update_refusal(dev, loaded.is_some(), None, name, wipe),
        Some(tables) => update_refusal(dev, loaded.is_some(), Some(tables), name, wipe),
    }
}

fn update_super(
    alloc: Global,
    dev: &Dev,
    loaded: &Option<ByteList>,
    name: &Name,
    wipe: bool,
) -> Result<Answer, Memory>
    ensures { IfOk result (λ answer. answer ≡ answer_of
        (says dev.now loaded.now (UpdateSuper name.now wipe))) }
{
    let tables = loaded_tables(alloc, loaded)?;
    if let Some(refusal) = tables_refusal(dev, loaded, &tables, name, wipe) {
        let answer = refused(alloc, refusal, dev, loaded)?;
        return Ok(answer);
    }
    let device = updated(alloc, &tables, wipe, dev)?;
    let answer = done(alloc, b"".as_slice(), device, loaded)?;
    Ok(answer)
}

#[tactic(auto, unfolding(crate::specs::Says::says))]
fn reboot(
    alloc: Global,
    dev: &Dev,
    loaded: &Option<ByteList>,
    target: BootTarget,
) -> Result<Answer, Memory>
    ensures { IfOk result (λ answer. answer ≡ answer_of (says dev.now loaded.now (Reboot target))) }
{
    let answer = leave(alloc, mode_of(target), dev, loaded)?;
    Ok(answer)
}

#[tactic(auto, unfolding(crate::specs::Says::says))]
fn go_on(alloc: Global, dev: &Dev, loaded: &Option<ByteList>) -> Result<Answer, Memory>
    ensures { IfOk result (λ answer. answer ≡ answer_of (says dev.now loaded.now Continue)) }
{
    let answer = leave(alloc, Mode::System, dev, loaded)?;
    Ok(answer)
}

#[tactic(auto, unfolding(crate::specs::Says::says))]
fn unlock(alloc: Global, dev: &Dev, loaded: &Option<ByteList>) -> Result<Answer, Memory>
    ensures { IfOk result (λ answer. answer ≡ answer_of (says dev.now loaded.now Unlock)) }
{
    let answer = failed(alloc, b"unlock locally".as_slice(), dev, loaded)?;
    Ok(answer)
}

#[tactic(auto, unfolding(crate::specs::Says::says))]
fn unlock_ability(alloc: Global, dev: &Dev, loaded: &Option<ByteList>) -> Result<Answer, Memory>
    ensures { IfOk result (λ answer. answer ≡ answer_of (says dev.now loaded.now UnlockAbility)) }
{
    let device = copy_dev(alloc, dev)?;
    let answer = done(alloc, b"0".as_slice(), device, loaded)?;
    Ok(answer)
}

#[tactic(auto, unfolding(crate::specs::Says::says))]
fn unknown(alloc: Global, dev: &Dev, loaded: &Option<ByteList>) -> Result<Answer, Memory>
    ensures { IfOk result (λ answer. answer ≡ answer_of (says dev.now loaded.now Unknown)) }
{
    let answer = failed(alloc, b"unknown command".as_slice(), dev, loaded)?;
    Ok(answer)
}

/// What a device answers to a command, where this was downloaded last (fastboot README, command
/// reference).
pub fn says(
    alloc: Global,
    dev: &Dev,
    loaded: &Option<ByteList>,
    command: &Command<'_>,
) -> Result<Answer, Memory>
    ensures { IfOk result (λ answer. answer ≡ answer_of
        (says dev.now loaded.now (command_value command.now))) }
{
    match command {
        Command::GetVar(name) => get_var(alloc, dev, loaded, name),
        Command::Download(count) => download(alloc, dev, loaded, *count),
        Command::Flash(name) => flash(alloc, dev, loaded, name),
        Command::Erase(name) => erase(alloc, dev, loaded, name),
        Command::SetActive(slot) => set_active(alloc, dev, loaded, *slot),
        Command::Reboot(target) => reboot(alloc, dev, loaded, *target),
        Command::Continue => go_on(alloc, dev, loaded),
        Command::Lock => lock(alloc, dev, loaded),
        Command::Unlock => unlock(alloc, dev, loaded),
        Command::UnlockAbility => unlock_ability(alloc, dev, loaded),
        Command::UpdateSuper(name, wipe) => update_super(alloc, dev, loaded, name, *wipe),
        Command::Create(name, size) => create(alloc, dev, loaded, name, *size),
        Command::Delete(name) => delete(alloc, dev, loaded, name),
        Command::Resize(name, size) => resize(alloc, dev, loaded, name, *size),
        Command::Unknown => unknown(alloc, dev, loaded),
    }
}
