ghost use Rattle.std.specs.Prelude.{◌≡◌, ◌≤◌, length, Some, option_and_then};
ghost use Rattle.dev_model.specs.Variables.{yes_or_no, has_slot, slotted_name, value};
ghost use Rattle.dev_store.specs.StoreCalls.{Shows};
ghost use Rattle.dev_store.specs.ToldRows.{text_of, told_device, AreTellable};

use crate::variables_find::{add_text, find_plain, has_slot};
use crate::variables_row::{Facts, Text};
use crate::variables_text::finish;
use crate::variables_told::yes_or_no;
use arrayvec::ArrayVec;
use fb_frame::name::Name;
use fb_message::line::Line;

/// Puts a text in place of what the line held.
fn show_text(text: &Text, line: &mut Line)
    requires { length (text_of text.now) ≤ 252 }
    ensures { line.new ≡ text_of text.now }
{
    let mut draft = ArrayVec::new();
    add_text(&mut draft, text);
    finish(&draft, line);
}

/// What `has-slot` tells of a name, where it has a partition.
fn show_has_slot(facts: &Facts, base: &[u8], line: &mut Line) -> bool
    ensures { Shows (has_slot (told_device facts.now) base.now) result line.old line.new }
{
    match has_slot(facts, base) {
        None => false,
        Some(slotted) => {
            show_text(&yes_or_no(slotted), line);
            true
        }
    }
}

/// The partition name that follows `has-slot:` in a name that begins so.
fn slotted_name(name: &[u8]) -> Option<Name>
    ensures { result ≡ slotted_name name.now }
{
    if name.starts_with(b"has-slot:".as_slice()) {
        Name::read(&name[9..])
    } else {
        None
    }
}

fn show_slotted(facts: &Facts, name: &[u8], line: &mut Line) -> bool
    ensures { Shows (option_and_then (has_slot (told_device facts.now)) (slotted_name name.now))
        result line.old line.new }
{
    match slotted_name(name) {
        None => false,
        Some(base) => show_has_slot(facts, base.bytes(), line),
    }
}

/// Puts the text of a variable in the line.
#[tactic(auto, unfolding(dev_model::specs::Variables::value))]
pub fn show_value(facts: &Facts, name: &[u8], line: &mut Line) -> bool
    requires { AreTellable facts.now }
    ensures { Shows (value (told_device facts.now) name.now) result line.old line.new }
{
    match find_plain(facts, name) {
        None => show_slotted(facts, name, line),
        Some(row) => {
            show_text(&row.text, line);
            true
        }
    }
}
