//! The last line, put piece by piece, so that it takes no memory.
ghost use Rattle.std.specs.Prelude.{◌≡◌, ◌++◌, take, codes, decimal, option_map, OnOk, OnErr};
ghost use Rattle.fb_frame.specs.Causes.{HasCause};
ghost use Rattle.fb_frame.specs.Shown.{shown};
ghost use Rattle.fb_frame.specs.Sinks.{Grew, GrewPart};
ghost use Rattle.hex.specs.Hex.{encode_lower};
ghost use Rattle.host_top.specs.LineParts.{lead_of, said_of, verdict_in};
ghost use Rattle.host_top.specs.Verdicts.{flaw_text, value_text, last_line};

use crate::shown::{put_hex, put_shown};
use crate::texts::{image_text, info_text, kind_text, meta_text, sparse_text};
use crate::verdict::Verdict;
use fb_frame::sink::{Sink, SinkFault};
use flash_plan::product::Flaw;
use itoa::Buffer;
use sparse_image::errors::SparseError;

/// Puts two texts.
#[tactic(auto, using(fb_frame::proofs::SinkLemmas::sink_lines))]
fn put_both<S: Sink>(word: &[u8], rest: &[u8], out: &mut S) -> Result<(), SinkFault>
    ensures put { OnOk result (Grew (S.text out.old) (S.text out.new) (word.now ++ rest.now)) }
    ensures part { OnErr result (GrewPart (S.text out.old) (S.text out.new) (word.now ++ rest.now)) }
    ensures cause { HasCause (S.faults out.old) (S.faults out.new) result }
{
    out.put(word)?;
    out.put(rest)?;
    Ok(())
}

/// Puts a word and a number.
fn put_number<S: Sink>(word: &[u8], number: u64, out: &mut S) -> Result<(), SinkFault>
    ensures put { OnOk result (Grew (S.text out.old) (S.text out.new) (word.now ++ decimal number)) }
    ensures part { OnErr result
        (GrewPart (S.text out.old) (S.text out.new) (word.now ++ decimal number)) }
    ensures cause { HasCause (S.faults out.old) (S.faults out.new) result }
{
    let mut digits = Buffer::new();
    put_both(word, digits.format(number).as_bytes(), out)
}

/// Puts a word, a number and a blank.
#[tactic(auto, using(fb_frame::proofs::SinkLemmas::sink_lines))]
fn put_line_number<S: Sink>(word: &[u8], line: u32, out: &mut S) -> Result<(), SinkFault>
    ensures put { OnOk result
        (Grew (S.text out.old) (S.text out.new) (word.now ++ decimal line ++ codes " ")) }
    ensures part { OnErr result
        (GrewPart (S.text out.old) (S.text out.new) (word.now ++ decimal line ++ codes " ")) }
    ensures cause { HasCause (S.faults out.old) (S.faults out.new) result }
{
    put_number(word, u64::from(line), out)?;
    out.put(b" ")?;
    Ok(())
}

/// Puts a word, the number of a line, and why it is named.
#[tactic(auto, using(fb_frame::proofs::SinkLemmas::sink_lines))]
fn put_line<S: Sink>(word: &[u8], line: u32, why: &[u8], out: &mut S) -> Result<(), SinkFault>
    ensures put { OnOk result
        (Grew (S.text out.old) (S.text out.new) (word.now ++ decimal line ++ codes " " ++ why.now)) }
    ensures part { OnErr result
        (GrewPart (S.text out.old) (S.text out.new) (word.now ++ decimal line ++ codes " " ++ why.now)) }
    ensures cause { HasCause (S.faults out.old) (S.faults out.new) result }
{
    put_line_number(word, line, out)?;
    out.put(why)?;
    Ok(())
}

/// Puts a word and a text as it is printed.
#[tactic(auto, using(fb_frame::proofs::SinkLemmas::sink_lines))]
fn put_named<S: Sink>(word: &[u8], text: &[u8], out: &mut S) -> Result<(), SinkFault>
    ensures put { OnOk result (Grew (S.text out.old) (S.text out.new) (word.now ++ shown text.now)) }
    ensures part { OnErr result
        (GrewPart (S.text out.old) (S.text out.new) (word.now ++ shown text.now)) }
    ensures cause { HasCause (S.faults out.old) (S.faults out.new) result }
{
    out.put(word)?;
    put_shown(text, out)?;
    Ok(())
}

/// Puts what is wrong with an image file, and where.
#[tactic(auto, using(fb_frame::proofs::SinkLemmas::sink_lines))]
fn put_place<S: Sink>(flaw: SparseError, out: &mut S) -> Result<(), SinkFault>
    ensures put { OnOk result (Grew (S.text out.old) (S.text out.new) (flaw_text (Flaw.Image flaw))) }
    ensures part { OnErr result
        (GrewPart (S.text out.old) (S.text out.new) (flaw_text (Flaw.Image flaw))) }
    ensures cause { HasCause (S.faults out.old) (S.faults out.new) result }
{
    put_both(sparse_text(flaw.kind), b" at ", out)?;
    let mut digits = Buffer::new();
    out.put(digits.format(flaw.at).as_bytes())?;
    Ok(())
}

/// Puts what is wrong with a file.
fn put_flaw<S: Sink>(flaw: Flaw, out: &mut S) -> Result<(), SinkFault>
    ensures put { OnOk result (Grew (S.text out.old) (S.text out.new) (flaw_text flaw)) }
    ensures part { OnErr result (GrewPart (S.text out.old) (S.text out.new) (flaw_text flaw)) }
    ensures cause { HasCause (S.faults out.old) (S.faults out.new) result }
{
    match flaw {
        Flaw::Absent => out.put(b"Absent"),
        Flaw::TooLong => out.put(b"TooLong"),
        Flaw::TooManyChunks => out.put(b"TooManyChunks"),
        Flaw::Info { line, kind } => put_line(b"line ", line, info_text(kind), out),
        Flaw::Image(flaw) => put_place(flaw, out),
        Flaw::Meta(error) => out.put(meta_text(error)),
    }
}

/// Puts a word, a text as it is printed, and a blank.
#[tactic(auto, using(fb_frame::proofs::SinkLemmas::sink_lines))]
fn put_apart<S: Sink>(word: &[u8], text: &[u8], out: &mut S) -> Result<(), SinkFault>
    ensures put { OnOk result
        (Grew (S.text out.old) (S.text out.new) (word.now ++ shown text.now ++ codes " ")) }
    ensures part { OnErr result
        (GrewPart (S.text out.old) (S.text out.new) (word.now ++ shown text.now ++ codes " ")) }
    ensures cause { HasCause (S.faults out.old) (S.faults out.new) result }
{
    put_named(word, text, out)?;
    out.put(b" ")?;
    Ok(())
}

/// Puts a word, a file and what is wrong with it.
#[tactic(auto, using(fb_frame::proofs::SinkLemmas::sink_lines))]
fn put_flawed<S: Sink>(word: &[u8], file: &[u8], flaw: Flaw, out: &mut S) -> Result<(), SinkFault>
    ensures put { OnOk result (Grew (S.text out.old) (S.text out.new)
        (word.now ++ shown file.now ++ codes " " ++ flaw_text flaw)) }
    ensures part { OnErr result (GrewPart (S.text out.old) (S.text out.new)
        (word.now ++ shown file.now ++ codes " " ++ flaw_text flaw)) }
    ensures cause { HasCause (S.faults out.old) (S.faults out.new) result }
{
    put_apart(word, file, out)?;
    put_flaw(flaw, out)?;
    Ok(())
}

/// Puts the value of a variable, `none` where there is none.
fn put_value<S: Sink>(value: Option<&[u8]>, out: &mut S) -> Result<(), SinkFault>
    ensures put { OnOk result (Grew (S.text out.old) (S.text out.new)
        (value_text (option_map (λ text. text.now) value.entry))) }
    ensures part { OnErr result (GrewPart (S.text out.old) (S.text out.new)
        (value_text (option_map (λ text. text.now) value.entry))) }
    ensures cause { HasCause (S.faults out.old) (S.faults out.new) result }
{
    match value {
        Some(text) => put_shown(text, out),
        None => out.put(b"none"),
    }
}

/// Puts a word, the number of a line and the name in it.
#[tactic(auto, using(fb_frame::proofs::SinkLemmas::sink_lines))]
fn put_line_name<S: Sink>(word: &[u8], line: u32, name: &[u8], out: &mut S) -> Result<(), SinkFault>
    ensures put { OnOk result (Grew (S.text out.old) (S.text out.new)
        (word.now ++ decimal line ++ codes " " ++ shown name.now)) }
    ensures part { OnErr result (GrewPart (S.text out.old) (S.text out.new)
        (word.now ++ decimal line ++ codes " " ++ shown name.now)) }
    ensures cause { HasCause (S.faults out.old) (S.faults out.new) result }
{
    put_line_number(word, line, out)?;
    put_shown(name, out)?;
    Ok(())
}

/// Puts a word, the number of a line, the name in it, and a blank.
#[tactic(auto, using(fb_frame::proofs::SinkLemmas::sink_lines))]
fn put_line_apart<S: Sink>(
    word: &[u8],
    line: u32,
    name: &[u8],
    out: &mut S,
) -> Result<(), SinkFault>
    ensures put { OnOk result (Grew (S.text out.old) (S.text out.new)
        (word.now ++ decimal line ++ codes " " ++ shown name.now ++ codes " ")) }
    ensures part { OnErr result (GrewPart (S.text out.old) (S.text out.new)
        (word.now ++ decimal line ++ codes " " ++ shown name.now ++ codes " ")) }
    ensures cause { HasCause (S.faults out.old) (S.faults out.new) result }
{
    put_line_name(word, line, name, out)?;
    out.put(b" ")?;
    Ok(())
}

/// Puts a word, a requirement that isn't met, and the value that the device has.
#[tactic(auto, using(fb_frame::proofs::SinkLemmas::sink_lines))]
fn put_unmet<S: Sink>(
    word: &[u8],
    line: u32,
    name: &[u8],
    value: Option<&[u8]>,
    out: &mut S,
) -> Result<(), SinkFault>
    ensures put { OnOk result (Grew (S.text out.old) (S.text out.new)
        (word.now ++ decimal line ++ codes " " ++ shown name.now ++ codes " "
        ++ value_text (option_map (λ text. text.now) value.entry))) }
    ensures part { OnErr result (GrewPart (S.text out.old) (S.text out.new)
        (word.now ++ decimal line ++ codes " " ++ shown name.now ++ codes " "
        ++ value_text (option_map (λ text. text.now) value.entry))) }
    ensures cause { HasCause (S.faults out.old) (S.faults out.new) result }
{
    put_line_apart(word, line, name, out)?;
    put_value(value, out)?;
    Ok(())
}

/// Puts a word and the first kept bytes in hexadecimal.
#[tactic(auto, using(fb_frame::proofs::SinkLemmas::sink_lines))]
fn put_kept<S: Sink>(word: &[u8], kept: &[u8], out: &mut S) -> Result<(), SinkFault>
    ensures put { OnOk result
        (Grew (S.text out.old) (S.text out.new) (word.now ++ encode_lower (take 32 kept.now))) }
    ensures part { OnErr result
        (GrewPart (S.text out.old) (S.text out.new) (word.now ++ encode_lower (take 32 kept.now))) }
    ensures cause { HasCause (S.faults out.old) (S.faults out.new) result }
{
    out.put(word)?;
    put_hex(kept, out)?;
    Ok(())
}

/// Puts what the line says, without the word `error` and the line feed.
fn put_said<S: Sink>(verdict: Verdict<'_>, out: &mut S) -> Result<(), SinkFault>
    ensures put { OnOk result (Grew (S.text out.old) (S.text out.new) (said_of (verdict_in verdict.entry))) }
    ensures part { OnErr result
        (GrewPart (S.text out.old) (S.text out.new) (said_of (verdict_in verdict.entry))) }
    ensures cause { HasCause (S.faults out.old) (S.faults out.new) result }
{
    match verdict {
        Verdict::Usage => out.put(b"usage"),
        Verdict::NoMemory => out.put(b"memory"),
        Verdict::NoFolder(name) => put_named(b"directory ", name, out),
        Verdict::Flawed(file, flaw) => put_flawed(b"product ", file, flaw, out),
        Verdict::NoLink => out.put(b"link"),
        Verdict::NoDevice(kind) => put_both(b"device ", image_text(kind), out),
        Verdict::Unmet(line, name, value) => put_unmet(
            b"requirement line ",
            line,
            name,
            value,
            out,
        ),
        Verdict::NoPlan(line, kind) => put_line(b"plan line ", line, kind_text(kind), out),
        Verdict::Refusing(text) => put_named(b"refused ", text, out),
        Verdict::NoPeer(kept) => put_kept(b"peer ", kept, out),
        Verdict::TooManyLines => out.put(b"peer infos"),
        Verdict::Done(steps) => put_number(b"done ", u64::from(steps), out),
        Verdict::Told(text) => put_shown(text, out),
    }
}

/// Puts the word before what an error's line says, and nothing before another line.
fn put_lead<S: Sink>(verdict: Verdict<'_>, out: &mut S) -> Result<(), SinkFault>
    ensures put { OnOk result (Grew (S.text out.old) (S.text out.new) (lead_of (verdict_in verdict.entry))) }
    ensures part { OnErr result
        (GrewPart (S.text out.old) (S.text out.new) (lead_of (verdict_in verdict.entry))) }
    ensures cause { HasCause (S.faults out.old) (S.faults out.new) result }
{
    match verdict {
        Verdict::Done(_) => out.put(b""),
        Verdict::Told(_) => out.put(b""),
        _ => out.put(b"error "),
    }
}

/// Puts the line without its line feed.
#[tactic(auto, using(fb_frame::proofs::SinkLemmas::sink_lines))]
fn put_words<S: Sink>(verdict: Verdict<'_>, out: &mut S) -> Result<(), SinkFault>
    ensures put { OnOk result (Grew (S.text out.old) (S.text out.new)
        (lead_of (verdict_in verdict.entry) ++ said_of (verdict_in verdict.entry))) }
    ensures part { OnErr result (GrewPart (S.text out.old) (S.text out.new)
        (lead_of (verdict_in verdict.entry) ++ said_of (verdict_in verdict.entry))) }
    ensures cause { HasCause (S.faults out.old) (S.faults out.new) result }
{
    put_lead(verdict, out)?;
    put_said(verdict, out)?;
    Ok(())
}

/// Puts the last line.
#[tactic(auto, using(fb_frame::proofs::SinkLemmas::sink_lines, crate::proofs::LineLemmas::line_parts))]
pub(crate) fn put_last_line<S: Sink>(verdict: Verdict<'_>, out: &mut S) -> Result<(), SinkFault>
    ensures put { OnOk result
        (Grew (S.text out.old) (S.text out.new) (last_line (verdict_in verdict.entry))) }
    ensures part { OnErr result
        (GrewPart (S.text out.old) (S.text out.new) (last_line (verdict_in verdict.entry))) }
    ensures cause { HasCause (S.faults out.old) (S.faults out.new) result }
{
    put_words(verdict, out)?;
    out.put(b"\n")?;
    Ok(())
}
