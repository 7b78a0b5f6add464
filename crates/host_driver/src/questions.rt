//! The questions to a device before its plan is made, and what their texts tell.
ghost use Rattle.std.specs.Prelude.{◌≡◌, ◌≤◌, ◌+◌, ◌++◌, ◌∷◌, [], Some, None, IsTrue, IfOk, IfErr, IfSome, codes};
ghost use Rattle.std.specs.Prelude.{length, take};
ghost use Rattle.std.specs.Result.{result_ok};
ghost use Rattle.fb_frame.specs.Causes.{Rose};
ghost use Rattle.dev_model.specs.Partitions.{has_slots};
ghost use Rattle.dev_model.specs.Variables.{asked};
ghost use Rattle.wire_told.specs.Answered.{Sound};
ghost use Rattle.wire_told.specs.Ports.{Drops};
ghost use Rattle.fb_link.specs.Seen.{seen};
ghost use Rattle.flash_plan.specs.Facts.{current_of, kind_of};
ghost use Rattle.host_driver.specs.AnswerText.{slots_read, slot_read, super_read, kind_read, kind_question, active_read, max_read};
ghost use Rattle.host_driver.specs.Questioning.{OfDevice, IsLearned, IsUnlearned, unread_stop, slot_questions};
ghost use Rattle.host_driver.specs.Questioning.{super_questions, trait_questions, AreTraits};
ghost use Rattle.host_driver.specs.SizeText.{download_size};
ghost use Rattle.host_driver.specs.Stepping.{Serving};

use crate::ask::ask;
use crate::drive::DriveError;
use crate::size::read_download_size;
use fb_frame::name::Name;
use fb_frame::sink::Sink;
use fb_frame::slot::Slot;
use fb_link::port::Port;
use fb_link::states::{Lost, Ready};
use fb_message::line::Line;
use fb_message::packet::Packet;

/// The text of a variable, or that of the refusal to tell one.
pub(crate) type Told = Result<Line, Line>;

/// Whether the answer to slot-count tells of slots.
fn slots_read(told: &Told) -> Option<bool>
    ensures { result ≡ slots_read (result_ok told.now) }
{
    match told {
        Ok(text) if text.bytes() == b"2".as_slice() => Some(true),
        Ok(text) if text.bytes() == b"0".as_slice() => Some(false),
        Ok(_) => None,
        Err(_) => Some(false),
    }
}

/// The slot that the text of current-slot tells.
fn slot_read(text: &[u8]) -> Option<Slot>
    ensures { result ≡ slot_read text.now }
{
    if text == b"a".as_slice() || text == b"_a".as_slice() {
        Some(Slot::A)
    } else if text == b"b".as_slice() || text == b"_b".as_slice() {
        Some(Slot::B)
    } else {
        None
    }
}

/// Whether the answer to is-logical tells of a logical partition, if there is one.
fn kind_read(told: &Told) -> Option<Option<bool>>
    ensures { result ≡ kind_read (result_ok told.now) }
{
    match told {
        Ok(text) if text.bytes() == b"yes".as_slice() => Some(Some(true)),
        Ok(text) if text.bytes() == b"no".as_slice() => Some(Some(false)),
        Ok(_) => None,
        Err(_) => Some(None),
    }
}

/// The name that the answer to super-partition-name tells, if there is a super.
fn super_read(told: &Told) -> Option<Option<Name>>
    ensures { result ≡ super_read (result_ok told.now) }
{
    match told {
        Ok(text) => match Name::read(text.bytes()) {
            Some(name) => Some(Some(name)),
            None => None,
        },
        Err(_) => Some(None),
    }
}

/// The slot that the answer to current-slot tells.
fn active_read(told: &Told) -> Option<Slot>
    ensures { result ≡ active_read (result_ok told.now) }
{
    match told {
        Ok(text) => slot_read(text.bytes()),
        Err(_) => None,
    }
}

/// How many bytes the answer to max-download-size tells.
fn max_read(told: &Told) -> Option<u32>
    ensures size { result ≡ max_read (result_ok told.now) }
    ensures large { IfSome result (λ n. 131072 ≤ n) }
{
    match told {
        Ok(text) => match read_download_size(text.bytes()) {
            Some(size) => Some(size as u32),
            None => None,
        },
        Err(_) => None,
    }
}

/// Writes a text after the first bytes of the buffer.
#[tactic(auto, using(fb_message::proofs::PacketLemmas::packets))]
fn add(bytes: &mut [u8; 252], at: usize, text: &[u8])
    requires { at + length text.now ≤ 252 }
    ensures { take (at + length text.now) bytes.new ≡ take at bytes.old ++ text.now }
{
    bytes[at..at + text.len()].copy_from_slice(text);
}

/// A question of a word and what follows it.
pub(crate) fn question(word: &[u8], name: &[u8]) -> Line
    requires short { length word.now + length name.now ≤ 252 }
    ensures { result ≡ word.now ++ name.now }
{
    let mut bytes = [0; 252];
    add(&mut bytes, 0, word);
    add(&mut bytes, word.len(), name);
    Line::read(&bytes[..word.len() + name.len()]).unwrap()
}

/// The question for the kind of a partition.
fn kind_line(name: &Name) -> Line
    ensures { result ≡ kind_question name.now }
{
    question(b"is-logical:", name.bytes())
}

/// What the attempt ends with, where nothing is read of an answer.
fn unread_stop(told: Told) -> DriveError
    ensures { result ≡ unread_stop told }
{
    match told {
        Ok(text) => DriveError::Peer(Packet::of(text.bytes())),
        Err(text) => DriveError::Refused(text),
    }
}

/// The end of an attempt at an answer of which nothing is read.
fn unread<P: Port>(ready: Ready<P>, told: Told) -> (Lost<P>, DriveError)
    ensures stop { result.1 ≡ unread_stop told }
    ensures drops { Drops (P.told ready) (P.told result.0) }
    ensures sound { Sound (P.told result.0).peer }
    ensures same { P.lent result.0 ≡ P.lent ready }
{
    (ready.hang_up(), unread_stop(told))
}

/// Asks whether the device has slots.
fn ask_slots<P: Port, S: Sink>(
    ready: Ready<P>,
    shown: &mut S,
) -> Result<(Ready<P>, bool), (Lost<P>, DriveError)>
    requires sound { Sound (P.told ready).peer }
    requires serving { Serving 4104 (P.told ready).peer }
    ensures same { IfOk result (λ r. P.lent r.0 ≡ P.lent ready) }
    ensures same_lost { IfErr result (λ e. P.lent e.0 ≡ P.lent ready) }
    ensures learned { IfOk result (λ r.
        IsLearned 4104 (λ dev. codes "slot-count" ∷ []) (λ dev. r.1 ≡ has_slots dev)
        (seen (P.told ready) (S.text shown.old)) (seen (P.told r.0) (S.text shown.new))) }
    ensures unlearned { IfErr result (λ e. IsUnlearned (λ dev. codes "slot-count" ∷ [])
        (seen (P.told ready) (S.text shown.old)) (seen (P.told e.0) (S.text shown.new)) e.1) }
    ensures shown_later { S.faults shown.old ≤ S.faults shown.new }
    ensures output { IfErr result (λ e.
        e.1 ≡ DriveError.Output → Rose (S.faults shown.old) (S.faults shown.new)) }
{
    let (ready, told) = match ask(ready, b"slot-count", shown) {
        Ok(answer) => answer,
        Err(stop) => return Err(stop),
    };
    match slots_read(&told) {
        Some(read) => Ok((ready, read)),
        None => Err(unread(ready, told)),
    }
}

/// Asks for the active slot of a device with slots.
fn ask_active<P: Port, S: Sink>(
    ready: Ready<P>,
    shown: &mut S,
) -> Result<(Ready<P>, Slot), (Lost<P>, DriveError)>
    requires sound { Sound (P.told ready).peer }
    requires serving { Serving 4104 (P.told ready).peer }
    requires slotted { OfDevice (λ dev. IsTrue (has_slots dev)) (P.told ready).peer }
    ensures same { IfOk result (λ r. P.lent r.0 ≡ P.lent ready) }
    ensures same_lost { IfErr result (λ e. P.lent e.0 ≡ P.lent ready) }
    ensures learned { IfOk result (λ r.
        IsLearned 4104 (λ dev. codes "current-slot" ∷ []) (λ dev. r.1 ≡ dev.active)
        (seen (P.told ready) (S.text shown.old)) (seen (P.told r.0) (S.text shown.new))) }
    ensures unlearned { IfErr result (λ e. IsUnlearned (λ dev. codes "current-slot" ∷ [])
        (seen (P.told ready) (S.text shown.old)) (seen (P.told e.0) (S.text shown.new)) e.1) }
    ensures shown_later { S.faults shown.old ≤ S.faults shown.new }
    ensures output { IfErr result (λ e.
        e.1 ≡ DriveError.Output → Rose (S.faults shown.old) (S.faults shown.new)) }
{
    let (ready, told) = match ask(ready, b"current-slot", shown) {
        Ok(answer) => answer,
        Err(stop) => return Err(stop),
    };
    match active_read(&told) {
        Some(read) => Ok((ready, read)),
        None => Err(unread(ready, told)),
    }
}

/// Asks for the active slot; None where the device has no slots.
fn ask_slot<P: Port, S: Sink>(
    ready: Ready<P>,
    shown: &mut S,
) -> Result<(Ready<P>, Option<Slot>), (Lost<P>, DriveError)>
    requires sound { Sound (P.told ready).peer }
    requires serving { Serving 8208 (P.told ready).peer }
    ensures same { IfOk result (λ r. P.lent r.0 ≡ P.lent ready) }
    ensures same_lost { IfErr result (λ e. P.lent e.0 ≡ P.lent ready) }
    ensures learned { IfOk result (λ r. IsLearned 8208 slot_questions (λ dev. r.1 ≡ current_of dev)
        (seen (P.told ready) (S.text shown.old)) (seen (P.told r.0) (S.text shown.new))) }
    ensures unlearned { IfErr result (λ e. IsUnlearned slot_questions
        (seen (P.told ready) (S.text shown.old)) (seen (P.told e.0) (S.text shown.new)) e.1) }
    ensures shown_later { S.faults shown.old ≤ S.faults shown.new }
    ensures output { IfErr result (λ e.
        e.1 ≡ DriveError.Output → Rose (S.faults shown.old) (S.faults shown.new)) }
{
    let (ready, slotted) = match ask_slots(ready, shown) {
        Ok(answer) => answer,
        Err(stop) => return Err(stop),
    };
    if slotted {
        match ask_active(ready, shown) {
            Ok((ready, slot)) => Ok((ready, Some(slot))),
            Err(stop) => Err(stop),
        }
    } else {
        Ok((ready, None))
    }
}

/// Asks how many bytes the device takes in one download.
fn ask_max<P: Port, S: Sink>(
    ready: Ready<P>,
    shown: &mut S,
) -> Result<(Ready<P>, u32), (Lost<P>, DriveError)>
    requires sound { Sound (P.told ready).peer }
    requires serving { Serving 4104 (P.told ready).peer }
    ensures large { IfOk result (λ r. 131072 ≤ r.1) }
    ensures same { IfOk result (λ r. P.lent r.0 ≡ P.lent ready) }
    ensures same_lost { IfErr result (λ e. P.lent e.0 ≡ P.lent ready) }
    ensures learned { IfOk result (λ r.
        IsLearned 4104 (λ dev. codes "max-download-size" ∷ []) (λ dev. r.1 ≡ dev.max)
        (seen (P.told ready) (S.text shown.old)) (seen (P.told r.0) (S.text shown.new))) }
    ensures unlearned { IfErr result (λ e. IsUnlearned (λ dev. codes "max-download-size" ∷ [])
        (seen (P.told ready) (S.text shown.old)) (seen (P.told e.0) (S.text shown.new)) e.1) }
    ensures shown_later { S.faults shown.old ≤ S.faults shown.new }
    ensures output { IfErr result (λ e.
        e.1 ≡ DriveError.Output → Rose (S.faults shown.old) (S.faults shown.new)) }
{
    let (ready, told) = match ask(ready, b"max-download-size", shown) {
        Ok(answer) => answer,
        Err(stop) => return Err(stop),
    };
    match max_read(&told) {
        Some(read) => Ok((ready, read)),
        None => Err(unread(ready, told)),
    }
}

/// Asks for the name of the device's super; None where it has none.
fn ask_super<P: Port, S: Sink>(
    ready: Ready<P>,
    shown: &mut S,
) -> Result<(Ready<P>, Option<Name>), (Lost<P>, DriveError)>
    requires sound { Sound (P.told ready).peer }
    requires serving { Serving 4104 (P.told ready).peer }
    ensures same { IfOk result (λ r. P.lent r.0 ≡ P.lent ready) }
    ensures same_lost { IfErr result (λ e. P.lent e.0 ≡ P.lent ready) }
    ensures learned { IfOk result (λ r.
        IsLearned 4104 (λ dev. codes "super-partition-name" ∷ []) (λ dev. r.1 ≡ dev.super_name)
        (seen (P.told ready) (S.text shown.old)) (seen (P.told r.0) (S.text shown.new))) }
    ensures unlearned { IfErr result (λ e. IsUnlearned (λ dev. codes "super-partition-name" ∷ [])
        (seen (P.told ready) (S.text shown.old)) (seen (P.told e.0) (S.text shown.new)) e.1) }
    ensures shown_later { S.faults shown.old ≤ S.faults shown.new }
    ensures output { IfErr result (λ e.
        e.1 ≡ DriveError.Output → Rose (S.faults shown.old) (S.faults shown.new)) }
{
    let (ready, told) = match ask(ready, b"super-partition-name", shown) {
        Ok(answer) => answer,
        Err(stop) => return Err(stop),
    };
    match super_read(&told) {
        Some(read) => Ok((ready, read)),
        None => Err(unread(ready, told)),
    }
}

/// Asks whether the partition of this name is logical; None where the device has none of the name.
pub(crate) fn ask_kind<P: Port, S: Sink>(
    ready: Ready<P>,
    name: &Name,
    shown: &mut S,
) -> Result<(Ready<P>, Option<bool>), (Lost<P>, DriveError)>
    requires sound { Sound (P.told ready).peer }
    requires serving { Serving 4104 (P.told ready).peer }
    ensures same { IfOk result (λ r. P.lent r.0 ≡ P.lent ready) }
    ensures same_lost { IfErr result (λ e. P.lent e.0 ≡ P.lent ready) }
    ensures learned { IfOk result (λ r.
        IsLearned 4104 (λ dev. kind_question name.now ∷ []) (λ dev. r.1 ≡ kind_of dev name.now)
        (seen (P.told ready) (S.text shown.old)) (seen (P.told r.0) (S.text shown.new))) }
    ensures unlearned { IfErr result (λ e. IsUnlearned (λ dev. kind_question name.now ∷ [])
        (seen (P.told ready) (S.text shown.old)) (seen (P.told e.0) (S.text shown.new)) e.1) }
    ensures shown_later { S.faults shown.old ≤ S.faults shown.new }
    ensures output { IfErr result (λ e.
        e.1 ≡ DriveError.Output → Rose (S.faults shown.old) (S.faults shown.new)) }
{
    let question = kind_line(name);
    let (ready, told) = match ask(ready, question.bytes(), shown) {
        Ok(answer) => answer,
        Err(stop) => return Err(stop),
    };
    match kind_read(&told) {
        Some(read) => Ok((ready, read)),
        None => Err(unread(ready, told)),
    }
}

/// Asks for a variable, of which each text is an answer; None where the device has none of the name.
pub(crate) fn ask_value<P: Port, S: Sink>(
    ready: Ready<P>,
    name: &[u8],
    shown: &mut S,
) -> Result<(Ready<P>, Option<Line>), (Lost<P>, DriveError)>
    requires short { length name.now ≤ 4089 }
    requires serving { Serving 4104 (P.told ready).peer }
    ensures same { IfOk result (λ r. P.lent r.0 ≡ P.lent ready) }
    ensures same_lost { IfErr result (λ e. P.lent e.0 ≡ P.lent ready) }
    ensures learned { IfOk result (λ r.
        IsLearned 4104 (λ dev. name.now ∷ []) (λ dev. r.1 ≡ asked dev name.now)
        (seen (P.told ready) (S.text shown.old)) (seen (P.told r.0) (S.text shown.new))) }
    ensures unlearned { IfErr result (λ e. IsUnlearned (λ dev. name.now ∷ [])
        (seen (P.told ready) (S.text shown.old)) (seen (P.told e.0) (S.text shown.new)) e.1) }
    ensures shown_later { S.faults shown.old ≤ S.faults shown.new }
    ensures output { IfErr result (λ e.
        e.1 ≡ DriveError.Output → Rose (S.faults shown.old) (S.faults shown.new)) }
{
    match ask(ready, name, shown) {
        Ok((ready, told)) => Ok((ready, told.ok())),
        Err(stop) => Err(stop),
    }
}

/// Asks for the name of the device's super, where a task updates it.
fn ask_super_if<P: Port, S: Sink>(
    ready: Ready<P>,
    updates: bool,
    shown: &mut S,
) -> Result<(Ready<P>, Option<Name>), (Lost<P>, DriveError)>
    requires sound { Sound (P.told ready).peer }
    requires serving { Serving 4104 (P.told ready).peer }
    ensures same { IfOk result (λ r. P.lent r.0 ≡ P.lent ready) }
    ensures same_lost { IfErr result (λ e. P.lent e.0 ≡ P.lent ready) }
    ensures learned { IfOk result (λ r.
        IsLearned 4104 (super_questions updates) (λ dev. IsTrue updates → r.1 ≡ dev.super_name)
        (seen (P.told ready) (S.text shown.old)) (seen (P.told r.0) (S.text shown.new))) }
    ensures unlearned { IfErr result (λ e. IsUnlearned (super_questions updates)
        (seen (P.told ready) (S.text shown.old)) (seen (P.told e.0) (S.text shown.new)) e.1) }
    ensures shown_later { S.faults shown.old ≤ S.faults shown.new }
    ensures output { IfErr result (λ e.
        e.1 ≡ DriveError.Output → Rose (S.faults shown.old) (S.faults shown.new)) }
{
    if updates {
        match ask_super(ready, shown) {
            Ok((ready, name)) => Ok((ready, name)),
            Err(stop) => Err(stop),
        }
    } else {
        Ok((ready, None))
    }
}

/// What every plan rests on of a device: its active slot, where it has slots, the most bytes of one download,
/// and the name of its super, which is asked for only where a task updates it.
#[derive(Clone, Copy, Debug)]
pub(crate) struct Traits {
    pub current: Option<Slot>,
    pub max: u32,
    pub super_name: Option<Name>,
}

/// Asks what every plan rests on.
pub(crate) fn ask_traits<P: Port, S: Sink>(
    ready: Ready<P>,
    updates: bool,
    shown: &mut S,
) -> Result<(Ready<P>, Traits), (Lost<P>, DriveError)>
    requires sound { Sound (P.told ready).peer }
    requires serving { Serving 16416 (P.told ready).peer }
    ensures large { IfOk result (λ r. 131072 ≤ r.1.max) }
    ensures same { IfOk result (λ r. P.lent r.0 ≡ P.lent ready) }
    ensures same_lost { IfErr result (λ e. P.lent e.0 ≡ P.lent ready) }
    ensures learned { IfOk result (λ r. IsLearned 16416 (trait_questions updates) (AreTraits updates r.1)
        (seen (P.told ready) (S.text shown.old)) (seen (P.told r.0) (S.text shown.new))) }
    ensures unlearned { IfErr result (λ e. IsUnlearned (trait_questions updates)
        (seen (P.told ready) (S.text shown.old)) (seen (P.told e.0) (S.text shown.new)) e.1) }
    ensures shown_later { S.faults shown.old ≤ S.faults shown.new }
    ensures output { IfErr result (λ e.
        e.1 ≡ DriveError.Output → Rose (S.faults shown.old) (S.faults shown.new)) }
{
    let (ready, current) = match ask_slot(ready, shown) {
        Ok(answer) => answer,
        Err(stop) => return Err(stop),
    };
    let (ready, max) = match ask_max(ready, shown) {
        Ok(answer) => answer,
        Err(stop) => return Err(stop),
    };
    let (ready, super_name) = match ask_super_if(ready, updates, shown) {
        Ok(answer) => answer,
        Err(stop) => return Err(stop),
    };
    Ok((
        ready,
        Traits {
            current,
            max,
            super_name,
        },
    ))
}
