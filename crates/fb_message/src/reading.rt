ghost use Rattle.std.specs.Prelude.{◌≡◌, ◌==◌, codes, length, nat_le, option_map, option_and_then};
ghost use Rattle.std.specs.List.{position};
ghost use Rattle.fb_frame.specs.Numbers.{read_hex8};
ghost use Rattle.fb_message.specs.Prefixes.{at_colon, behind_word, first_reading, only_if};
ghost use Rattle.fb_message.specs.CommandText.{command_value, named, sized, slotted, super_named, named_size, valued_rows, word_command, logical_rows, command_rows, GetVar, Download, Flash, Erase, Create, Delete, Resize};

use crate::command::{BootTarget, Command};
use fb_frame::name::Name;
use fb_frame::number::{read_dec, read_hex8};
use fb_frame::slot::Slot;

/// The command that the bytes spell, None where they spell none but Unknown.
pub(crate) fn read_known(bytes: &[u8]) -> Option<Command<'_>>
    ensures { option_map command_value result ≡ first_reading command_rows bytes.now }
{
    if let Some(command) = read_valued(bytes) {
        return Some(command);
    }
    if let Some(command) = read_word(bytes) {
        return Some(command);
    }
    read_logical(bytes)
}

/// The commands with a variable, a count, a partition or a slot.
fn read_valued(bytes: &[u8]) -> Option<Command<'_>>
    ensures { option_map command_value result ≡ first_reading valued_rows bytes.now }
{
    if let Some(command) = read_get_var(bytes) {
        return Some(command);
    }
    if let Some(command) = read_download(bytes) {
        return Some(command);
    }
    if let Some(command) = read_flash(bytes) {
        return Some(command);
    }
    if let Some(command) = read_erase(bytes) {
        return Some(command);
    }
    read_set_active(bytes)
}

/// The commands of one word.
fn read_word(bytes: &[u8]) -> Option<Command<'_>>
    ensures { option_map command_value result ≡ word_command bytes.now }
{
    if bytes == b"reboot".as_slice() {
        Some(Command::Reboot(BootTarget::System))
    } else if bytes == b"reboot-bootloader".as_slice() {
        Some(Command::Reboot(BootTarget::Bootloader))
    } else if bytes == b"reboot-fastboot".as_slice() {
        Some(Command::Reboot(BootTarget::Fastboot))
    } else if bytes == b"reboot-recovery".as_slice() {
        Some(Command::Reboot(BootTarget::Recovery))
    } else if bytes == b"continue".as_slice() {
        Some(Command::Continue)
    } else if bytes == b"flashing lock".as_slice() {
        Some(Command::Lock)
    } else if bytes == b"flashing unlock".as_slice() {
        Some(Command::Unlock)
    } else if bytes == b"flashing get_unlock_ability".as_slice() {
        Some(Command::UnlockAbility)
    } else {
        None
    }
}

/// The commands on logical partitions.
fn read_logical(bytes: &[u8]) -> Option<Command<'_>>
    ensures { option_map command_value result ≡ first_reading logical_rows bytes.now }
{
    if let Some(command) = read_update_super(bytes) {
        return Some(command);
    }
    if let Some(command) = read_create(bytes) {
        return Some(command);
    }
    if let Some(command) = read_delete(bytes) {
        return Some(command);
    }
    read_resize(bytes)
}

fn read_get_var(bytes: &[u8]) -> Option<Command<'_>>
    ensures { option_map command_value result ≡
        option_and_then (λ text. only_if (nat_le (length text) 4089) (GetVar text))
        (behind_word (codes "getvar:") bytes.now) }
{
    let name = behind_word(b"getvar:", bytes)?;
    if name.len() <= 4089 {
        Some(Command::GetVar(name))
    } else {
        None
    }
}

fn read_download(bytes: &[u8]) -> Option<Command<'_>>
    ensures { option_map command_value result ≡
        option_and_then (λ text. option_map Download (read_hex8 text))
        (behind_word (codes "download:") bytes.now) }
{
    let count = read_hex8(behind_word(b"download:", bytes)?)?;
    Some(Command::Download(count))
}

fn read_flash(bytes: &[u8]) -> Option<Command<'_>>
    ensures { option_map command_value result ≡
        option_and_then (named Flash)
        (behind_word (codes "flash:") bytes.now) }
{
    let name = Name::read(behind_word(b"flash:", bytes)?)?;
    Some(Command::Flash(name))
}

fn read_erase(bytes: &[u8]) -> Option<Command<'_>>
    ensures { option_map command_value result ≡
        option_and_then (named Erase)
        (behind_word (codes "erase:") bytes.now) }
{
    let name = Name::read(behind_word(b"erase:", bytes)?)?;
    Some(Command::Erase(name))
}

fn read_set_active(bytes: &[u8]) -> Option<Command<'_>>
    ensures { option_map command_value result ≡
        option_and_then slotted
        (behind_word (codes "set_active:") bytes.now) }
{
    match behind_word(b"set_active:", bytes)? {
        [b'a'] => Some(Command::SetActive(Slot::A)),
        [b'b'] => Some(Command::SetActive(Slot::B)),
        _ => None,
    }
}

fn read_update_super(bytes: &[u8]) -> Option<Command<'_>>
    ensures { option_map command_value result ≡
        option_and_then super_named
        (behind_word (codes "update-super:") bytes.now) }
{
    let text = behind_word(b"update-super:", bytes)?;
    if let Some(name) = Name::read(text) {
        return Some(Command::UpdateSuper(name, false));
    }
    let (name, wipe) = at_colon(text)?;
    let name = Name::read(name)?;
    if wipe == b"wipe".as_slice() {
        Some(Command::UpdateSuper(name, true))
    } else {
        None
    }
}

fn read_create(bytes: &[u8]) -> Option<Command<'_>>
    ensures { option_map command_value result ≡
        option_and_then (sized Create)
        (behind_word (codes "create-logical-partition:") bytes.now) }
{
    let (name, size) = read_sized(behind_word(b"create-logical-partition:", bytes)?)?;
    Some(Command::Create(name, size))
}

fn read_delete(bytes: &[u8]) -> Option<Command<'_>>
    ensures { option_map command_value result ≡
        option_and_then (named Delete)
        (behind_word (codes "delete-logical-partition:") bytes.now) }
{
    let name = Name::read(behind_word(b"delete-logical-partition:", bytes)?)?;
    Some(Command::Delete(name))
}

fn read_resize(bytes: &[u8]) -> Option<Command<'_>>
    ensures { option_map command_value result ≡
        option_and_then (sized Resize)
        (behind_word (codes "resize-logical-partition:") bytes.now) }
{
    let (name, size) = read_sized(behind_word(b"resize-logical-partition:", bytes)?)?;
    Some(Command::Resize(name, size))
}

/// A name, a colon and a size.
fn read_sized(text: &[u8]) -> Option<(Name, u64)>
    ensures { result ≡ named_size text.now }
{
    let (name, size) = at_colon(text)?;
    let name = Name::read(name)?;
    let size = read_dec(size)?;
    Some((name, size))
}

/// What follows the word, where the text begins with it.
#[tactic(auto, using(crate::proofs::TextLemmas::behind_words))]
pub(crate) fn behind_word<'a>(word: &[u8], text: &'a [u8]) -> Option<&'a [u8]>
    ensures { option_map (λ t. t.now) result ≡ behind_word word.now text.now }
{
    text.strip_prefix(word)
}

/// What stands before the first colon and after it, where there is one.
#[tactic(auto, using(crate::proofs::TextLemmas::colons))]
fn at_colon(text: &[u8]) -> Option<(&[u8], &[u8])>
    ensures { option_map (λ p. (p.0.now, p.1.now)) result ≡ at_colon text.now }
{
    match colon_at(text) {
        Some(at) => Some((&text[..at], &text[at + 1..])),
        None => None,
    }
}

fn colon_at(text: &[u8]) -> Option<usize>
    ensures { result ≡ position (λ b. b == 58) text.now }
{
    text.iter().position(|b| *b == b':')
}
