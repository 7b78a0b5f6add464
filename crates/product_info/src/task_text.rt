ghost use Rattle.std.specs.Prelude.{◌≡◌, ◌==◌, ◌&&◌, ◌++◌, [], ◌∷◌, not, true, false, length, Some, codes};
ghost use Rattle.std.specs.List.{list_all};
ghost use Rattle.fb_frame.specs.NameText.{is_name_byte};
ghost use Rattle.product_info.specs.Blanks.{words};
ghost use Rattle.product_info.specs.TaskText.{is_plain, part_of, file_of, image_file, flash, flash_named, flash_of, target_of, reboot_of, update_of, erase_of, action_by, action_of, order_of, version_of};

use crate::blanks::first_word;
use crate::task::Action;
use fb_frame::name::Name;
use fb_frame::number::read_dec;
use fb_frame::word::Word;
use fb_message::command::BootTarget;

fn is_plain(word: &[u8]) -> bool
    ensures { result ≡ is_plain word.now }
{
    match word {
        [first, ..] => *first != b'-',
        [] => true,
    }
}

/// The partition that a word names.
fn read_part(word: &[u8]) -> Option<Name>
    ensures { result ≡ part_of word.now }
{
    if is_plain(word) {
        Name::read(word)
    } else {
        None
    }
}

fn is_name_byte(b: u8) -> bool
    ensures { result ≡ is_name_byte b }
{
    b.is_ascii_alphanumeric() || b == b'_' || b == b'.' || b == b'-'
}

fn are_name_bytes(word: &[u8]) -> bool
    ensures { result ≡ list_all is_name_byte word.now }
{
    word.iter().all(|b| is_name_byte(*b))
}

/// The file that a word names.
fn read_file_name(word: &[u8]) -> Option<Word>
    ensures { result ≡ file_of word.now }
{
    if is_plain(word)
        && are_name_bytes(word)
        && word != b".".as_slice()
        && word != b"..".as_slice()
    {
        Word::read(word)
    } else {
        None
    }
}

/// The file of a partition whose task names none.
fn image_file(name: &Name) -> Option<Word>
    ensures { result ≡ image_file name.now }
{
    let name = name.bytes();
    let mut file = [0; 64];
    let end = name.len() + 4;
    file[..name.len()].copy_from_slice(name);
    file[name.len()..end].copy_from_slice(b".img");
    Word::read(&file[..end])
}

/// `NAME` or `NAME FILE`.
fn flash_named(other: bool, name: &[u8], rest: &[u8]) -> Option<Action>
    ensures { result ≡ flash_named other name.now (words rest.now) }
{
    let part = read_part(name);
    let file = match first_word(rest) {
        None => image_file(&part?)?,
        Some((file, more)) => {
            if first_word(more).is_some() {
                return None;
            }
            read_file_name(file)?
        }
    };
    Some(Action::Flash {
        name: part?,
        file,
        other,
    })
}

/// The flags, each at most once and in any order, then the partition and perhaps its file.
fn flash_of(rest: &[u8]) -> Option<Action>
    ensures { result ≡ flash_of false false (words rest.now) }
{
    let mut rest = rest;
    let mut vbmeta = false;
    let mut other = false;
    while let Some((word, more)) = first_word(rest) {
        if !vbmeta && word == b"--apply-vbmeta".as_slice() {
            vbmeta = true;
        } else if !other && word == b"--slot-other".as_slice() {
            other = true;
        } else {
            return flash_named(other, word, more);
        }
        rest = more;
    }
    None
}

/// What a reboot starts.
fn target_of(word: &[u8]) -> Option<BootTarget>
    ensures { result ≡ target_of word.now }
{
    if word == b"bootloader".as_slice() {
        Some(BootTarget::Bootloader)
    } else if word == b"fastboot".as_slice() {
        Some(BootTarget::Fastboot)
    } else if word == b"recovery".as_slice() {
        Some(BootTarget::Recovery)
    } else {
        None
    }
}

/// Nothing, or a target.
fn reboot_of(rest: &[u8]) -> Option<Action>
    ensures { result ≡ reboot_of (words rest.now) }
{
    let Some((word, more)) = first_word(rest) else {
        return Some(Action::Reboot(BootTarget::System));
    };
    if first_word(more).is_some() {
        return None;
    }
    let target = target_of(word)?;
    Some(Action::Reboot(target))
}

/// Nothing.
fn update_of(rest: &[u8]) -> Option<Action>
    ensures { result ≡ update_of (words rest.now) }
{
    if first_word(rest).is_some() {
        return None;
    }
    Some(Action::UpdateSuper)
}

/// A partition.
fn erase_of(rest: &[u8]) -> Option<Action>
    ensures { result ≡ erase_of (words rest.now) }
{
    let (word, more) = first_word(rest)?;
    if first_word(more).is_some() {
        return None;
    }
    let name = read_part(word)?;
    Some(Action::Erase(name))
}

/// The action that a word begins.
fn action_by(word: &[u8], rest: &[u8]) -> Option<Action>
    ensures { result ≡ action_by word.now (words rest.now) }
{
    if word == b"flash".as_slice() {
        flash_of(rest)
    } else if word == b"reboot".as_slice() {
        reboot_of(rest)
    } else if word == b"update-super".as_slice() {
        update_of(rest)
    } else if word == b"erase".as_slice() {
        erase_of(rest)
    } else {
        None
    }
}

/// The action of the words.
fn action_of(text: &[u8]) -> Option<Action>
    ensures { result ≡ action_of (words text.now) }
{
    let (word, rest) = first_word(text)?;
    action_by(word, rest)
}

/// What a line wants done, and whether for a run that wipes alone.
pub(crate) fn read_task(text: &[u8]) -> Option<(bool, Action)>
    ensures { result ≡ order_of (words text.now) }
{
    let (word, rest) = first_word(text)?;
    if word == b"if-wipe".as_slice() {
        let action = action_of(rest)?;
        Some((true, action))
    } else {
        let action = action_by(word, rest)?;
        Some((false, action))
    }
}

/// The version that a line tells.
#[tactic(auto, unfolding(crate::specs::TaskText::version_of))]
pub(crate) fn read_version(text: &[u8]) -> Option<u64>
    ensures { result ≡ version_of text.now }
{
    let (word, rest) = first_word(text)?;
    let (number, more) = first_word(rest)?;
    if first_word(more).is_some() || word != b"version".as_slice() {
        return None;
    }
    read_dec(number)
}
