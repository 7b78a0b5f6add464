//! The lines of an installation.
ghost use Rattle.std.specs.Prelude.{◌≡◌, ◌++◌, ◌∷◌, [], codes, decimal, OnOk, OnErr, ℕ};
ghost use Rattle.fb_frame.specs.Causes.{HasCause};
ghost use Rattle.fb_frame.specs.Slots.{letter};
ghost use Rattle.fb_frame.specs.Sinks.{Grew, GrewPart};
ghost use Rattle.host_driver.specs.Printing.{boot_text, step_text, retry_line};

use fb_frame::name::Name;
use fb_frame::sink::{Sink, SinkFault};
use fb_frame::slot::Slot;
use fb_message::command::BootTarget;
use flash_plan::plan::Order;
use itoa::Buffer;

/// The words of a reboot.
fn boot_text(what: BootTarget) -> &'static [u8]
    ensures { result.now ≡ boot_text what }
{
    match what {
        BootTarget::System => b"reboot system",
        BootTarget::Bootloader => b"reboot bootloader",
        BootTarget::Fastboot => b"reboot fastboot",
        BootTarget::Recovery => b"reboot recovery",
    }
}

/// The words of a slot that was made active.
fn active_text(slot: Slot) -> &'static [u8]
    ensures { result.now ≡ codes "set_active " ++ letter slot ∷ [] }
{
    match slot {
        Slot::A => b"set_active a",
        Slot::B => b"set_active b",
    }
}

/// Puts two texts.
#[tactic(auto, using(fb_frame::proofs::SinkLemmas::sink_lines))]
fn put_both<S: Sink>(word: &[u8], rest: &[u8], out: &mut S) -> Result<(), SinkFault>
    ensures put { OnOk result (Grew (S.text out.old) (S.text out.new) (word.now ++ rest.now)) }
    ensures part { OnErr result (GrewPart (S.text out.old) (S.text out.new) (word.now ++ rest.now)) }
    ensures cause { HasCause (S.faults out.old) (S.faults out.new) result }
{
    out.put(word)?;
    out.put(rest)?;
    Ok(())
}

/// Puts a word, a name and what follows it.
#[tactic(auto, using(fb_frame::proofs::SinkLemmas::sink_lines))]
fn put_named<S: Sink>(word: &[u8], name: &Name, rest: &[u8], out: &mut S) -> Result<(), SinkFault>
    ensures put { OnOk result (Grew (S.text out.old) (S.text out.new) (word.now ++ name.now ++ rest.now)) }
    ensures part { OnErr result
        (GrewPart (S.text out.old) (S.text out.new) (word.now ++ name.now ++ rest.now)) }
    ensures cause { HasCause (S.faults out.old) (S.faults out.new) result }
{
    put_both(word, name.bytes(), out)?;
    out.put(rest)?;
    Ok(())
}

/// Puts a word, a name, a blank and a number.
#[tactic(auto, using(fb_frame::proofs::SinkLemmas::sink_lines))]
fn put_sized<S: Sink>(word: &[u8], name: &Name, number: u64, out: &mut S) -> Result<(), SinkFault>
    ensures put { OnOk result (Grew (S.text out.old) (S.text out.new)
        (word.now ++ name.now ++ codes " " ++ decimal number)) }
    ensures part { OnErr result (GrewPart (S.text out.old) (S.text out.new)
        (word.now ++ name.now ++ codes " " ++ decimal number)) }
    ensures cause { HasCause (S.faults out.old) (S.faults out.new) result }
{
    put_named(word, name, b" ", out)?;
    let mut digits = Buffer::new();
    out.put(digits.format(number).as_bytes())?;
    Ok(())
}

/// Puts the words of a step; an image is named by its length.
fn put_words<S: Sink>(order: &Order, long: u64, out: &mut S) -> Result<(), SinkFault>
    ensures put { OnOk result (Grew (S.text out.old) (S.text out.new) (step_text long order.now)) }
    ensures part { OnErr result (GrewPart (S.text out.old) (S.text out.new) (step_text long order.now)) }
    ensures cause { HasCause (S.faults out.old) (S.faults out.new) result }
{
    match order {
        Order::Active(slot) => out.put(active_text(*slot)),
        Order::Resize(name, size) => put_sized(b"resize ", name, *size, out),
        Order::Put(name, _) => put_sized(b"flash ", name, long, out),
        Order::Wipe(name) => put_both(b"erase ", name.bytes(), out),
        Order::Table(name, true) => put_named(b"update-super ", name, b" wipe", out),
        Order::Table(name, false) => put_named(b"update-super ", name, b"", out),
        Order::Boot(what) => out.put(boot_text(*what)),
    }
}

/// Puts the line of a step that was acknowledged; an image is named by its length.
#[tactic(auto, using(fb_frame::proofs::SinkLemmas::sink_lines))]
pub fn put_step<S: Sink>(order: &Order, long: u64, out: &mut S) -> Result<(), SinkFault>
    ensures put { OnOk result
        (Grew (S.text out.old) (S.text out.new) (step_text long order.now ++ 10 ∷ [])) }
    ensures part { OnErr result
        (GrewPart (S.text out.old) (S.text out.new) (step_text long order.now ++ 10 ∷ [])) }
    ensures cause { HasCause (S.faults out.old) (S.faults out.new) result }
{
    put_words(order, long, out)?;
    out.put(b"\n")?;
    Ok(())
}

/// Puts a word, a number and what follows it.
#[tactic(auto, using(fb_frame::proofs::SinkLemmas::sink_lines))]
fn put_number<S: Sink>(word: &[u8], number: u8, rest: &[u8], out: &mut S) -> Result<(), SinkFault>
    ensures put { OnOk result
        (Grew (S.text out.old) (S.text out.new) (word.now ++ decimal number ++ rest.now)) }
    ensures part { OnErr result
        (GrewPart (S.text out.old) (S.text out.new) (word.now ++ decimal number ++ rest.now)) }
    ensures cause { HasCause (S.faults out.old) (S.faults out.new) result }
{
    let mut digits = Buffer::new();
    put_both(word, digits.format(number).as_bytes(), out)?;
    out.put(rest)?;
    Ok(())
}

/// Puts the line before a retry, counted from 1.
pub fn put_retry<S: Sink>(retry: u8, out: &mut S) -> Result<(), SinkFault>
    ensures put { OnOk result (Grew (S.text out.old) (S.text out.new) (retry_line retry)) }
    ensures part { OnErr result (GrewPart (S.text out.old) (S.text out.new) (retry_line retry)) }
    ensures cause { HasCause (S.faults out.old) (S.faults out.new) result }
{
    put_number(b"retry ", retry, b"\n", out)
}
