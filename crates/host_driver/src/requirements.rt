//! Whether a device meets the requirements of a product.
ghost use Rattle.std.specs.Prelude.{◌≡◌, ◌≤◌, ◌+◌, ◌*◌, [], ◌∷◌, length, IsTrue, IfOk, IfErr, IfSome, option_map, codes};
ghost use Rattle.std.specs.Prelude.{is_some, Option, Some, None, false, if◌then◌else◌};
ghost use Rattle.std.specs.List.{list_any};
ghost use Rattle.fb_frame.specs.Causes.{Rose};
ghost use Rattle.dev_model.specs.Variables.{asked, value};
ghost use Rattle.product_info.specs.Meeting.{is_for, meets};
ghost use Rattle.fb_link.specs.Seen.{seen};
ghost use Rattle.flash_plan.specs.Requiring.{variable_of, applies};
ghost use Rattle.host_driver.specs.Deciding.{line_question, line_questions, product_question, check_questions};
ghost use Rattle.host_driver.specs.Deciding.{judged, IsJudged, AreJudged, IsProduct, AreFor, IsChecked};
ghost use Rattle.host_driver.specs.Deciding.{IsOfLine, IsListed};
ghost use Rattle.host_driver.specs.Questioning.{OfDevice, IsLearned, IsUnlearned};
ghost use Rattle.host_driver.specs.Stepping.{Serving};

use crate::drive::DriveError;
use crate::questions::{ask_value, question};
use fb_frame::sink::Sink;
use fb_frame::word::Word;
use fb_link::port::Port;
use fb_link::states::{Lost, Ready};
use fb_message::line::Line;
use product_info::meeting::{is_for, meets};
use product_info::requirement::{ReqKind, Requirement};

/// A line that the device doesn't meet, and the text of its variable, where the device has one.
#[derive(Debug, Drop)]
pub(crate) struct Unmet {
    pub line: u32,
    pub name: Word,
    pub value: Option<Line>,
}

/// The bytes of a text, where there is one.
fn bytes_of(text: &Option<Line>) -> Option<&[u8]>
    ensures { option_map (λ t. t.now) result ≡ text.now }
{
    match text {
        Some(line) => Some(line.bytes()),
        None => None,
    }
}

/// The variable that decides a line.
fn variable(requirement: &Requirement) -> Line
    ensures { result ≡ variable_of requirement.now }
{
    match requirement.kind {
        ReqKind::Exists => question(b"has-slot:", requirement.name.bytes()),
        ReqKind::Require | ReqKind::Reject => question(b"", requirement.name.bytes()),
    }
}

/// The line, where this text of its variable doesn't meet it.
fn judge(requirement: &Requirement, product: &Option<Line>, value: Option<Line>) -> Option<Unmet>
    ensures { result ≡ judged requirement.now product.now value }
{
    if meets(requirement, bytes_of(product), bytes_of(&value)) {
        None
    } else {
        Some(Unmet {
            line: requirement.line,
            name: requirement.name,
            value,
        })
    }
}

/// Asks for the variable of a line that is for the device's product, and answers the line where it isn't met.
fn check_line<P: Port, S: Sink>(
    ready: Ready<P>,
    requirement: &Requirement,
    product: &Option<Line>,
    shown: &mut S,
) -> Result<(Ready<P>, Option<Unmet>), (Lost<P>, DriveError)>
    requires serving { Serving 4104 (P.told ready).peer }
    requires product { OfDevice (IsProduct product.now requirement.now) (P.told ready).peer }
    ensures same { IfOk result (λ r. P.lent r.0 ≡ P.lent ready) }
    ensures same_lost { IfErr result (λ e. P.lent e.0 ≡ P.lent ready) }
    ensures learned { IfOk result (λ r. IsLearned
        4104 (line_question requirement.now) (IsJudged requirement.now r.1)
        (seen (P.told ready) (S.text shown.old)) (seen (P.told r.0) (S.text shown.new))) }
    ensures unlearned { IfErr result (λ e. IsUnlearned (line_question requirement.now)
        (seen (P.told ready) (S.text shown.old)) (seen (P.told e.0) (S.text shown.new)) e.1) }
    ensures listed { IfOk result (λ r. IfSome r.1 (IsOfLine requirement.now)) }
    ensures shown_later { S.faults shown.old ≤ S.faults shown.new }
    ensures output { IfErr result (λ e.
        e.1 ≡ DriveError.Output → Rose (S.faults shown.old) (S.faults shown.new)) }
{
    if is_for(&requirement.product, bytes_of(product)) {
        let variable = variable(requirement);
        match ask_value(ready, variable.bytes(), shown) {
            Ok((ready, value)) => Ok((ready, judge(requirement, product, value))),
            Err(stop) => Err(stop),
        }
    } else {
        Ok((ready, None))
    }
}

/// Asks for the variables of the lines in their order, up to the first line that isn't met.
fn check_lines<P: Port, S: Sink>(
    ready: Ready<P>,
    lines: &[Requirement],
    product: &Option<Line>,
    shown: &mut S,
) -> Result<(Ready<P>, Option<Unmet>), (Lost<P>, DriveError)>
    requires serving { Serving (4104 * length lines.now) (P.told ready).peer }
    requires product { OfDevice (AreFor product.now lines.now) (P.told ready).peer }
    ensures same { IfOk result (λ r. P.lent r.0 ≡ P.lent ready) }
    ensures same_lost { IfErr result (λ e. P.lent e.0 ≡ P.lent ready) }
    ensures learned { IfOk result (λ r. IsLearned (4104 * length lines.now)
        (line_questions lines.now) (AreJudged lines.now r.1)
        (seen (P.told ready) (S.text shown.old)) (seen (P.told r.0) (S.text shown.new))) }
    ensures unlearned { IfErr result (λ e. IsUnlearned (line_questions lines.now)
        (seen (P.told ready) (S.text shown.old)) (seen (P.told e.0) (S.text shown.new)) e.1) }
    ensures listed { IfOk result (λ r. IfSome r.1 (IsListed lines.now)) }
    ensures shown_later { S.faults shown.old ≤ S.faults shown.new }
    ensures output { IfErr result (λ e.
        e.1 ≡ DriveError.Output → Rose (S.faults shown.old) (S.faults shown.new)) }
{
    let mut ready = ready;
    for line in lines {
        let (next, unmet) = match check_line(ready, line, product, shown) {
            Ok(answer) => answer,
            Err(stop) => return Err(stop),
        };
        ready = next;
        match unmet {
            None => {}
            Some(unmet) => return Ok((ready, Some(unmet))),
        }
    }
    Ok((ready, None))
}

/// Whether some line is for one product alone.
fn names_product(lines: &[Requirement]) -> bool
    ensures { result ≡ list_any (λ line. is_some line.product) lines.now }
{
    lines.iter().any(|line| line.product.is_some())
}

/// Asks for the device's product, where a line is for one alone.
fn ask_product<P: Port, S: Sink>(
    ready: Ready<P>,
    lines: &[Requirement],
    shown: &mut S,
) -> Result<(Ready<P>, Option<Line>), (Lost<P>, DriveError)>
    requires serving { Serving 4104 (P.told ready).peer }
    ensures same { IfOk result (λ r. P.lent r.0 ≡ P.lent ready) }
    ensures same_lost { IfErr result (λ e. P.lent e.0 ≡ P.lent ready) }
    ensures learned { IfOk result (λ r. IsLearned 4104
        (product_question lines.now) (λ dev. AreFor r.1 lines.now dev)
        (seen (P.told ready) (S.text shown.old)) (seen (P.told r.0) (S.text shown.new))) }
    ensures unlearned { IfErr result (λ e. IsUnlearned (product_question lines.now)
        (seen (P.told ready) (S.text shown.old)) (seen (P.told e.0) (S.text shown.new)) e.1) }
    ensures shown_later { S.faults shown.old ≤ S.faults shown.new }
    ensures output { IfErr result (λ e.
        e.1 ≡ DriveError.Output → Rose (S.faults shown.old) (S.faults shown.new)) }
{
    if names_product(lines) {
        match ask_value(ready, b"product", shown) {
            Ok((ready, product)) => Ok((ready, product)),
            Err(stop) => Err(stop),
        }
    } else {
        Ok((ready, None))
    }
}

/// Asks what the requirements need, and answers the first line that the device doesn't meet. With `force`
/// nothing is asked.
pub(crate) fn check<P: Port, S: Sink>(
    ready: Ready<P>,
    lines: &[Requirement],
    force: bool,
    shown: &mut S,
) -> Result<(Ready<P>, Option<Unmet>), (Lost<P>, DriveError)>
    requires serving { Serving (4104 + 4104 * length lines.now) (P.told ready).peer }
    ensures same { IfOk result (λ r. P.lent r.0 ≡ P.lent ready) }
    ensures same_lost { IfErr result (λ e. P.lent e.0 ≡ P.lent ready) }
    ensures learned { IfOk result (λ r. IsLearned (4104 + 4104 * length lines.now)
        (check_questions lines.now force) (IsChecked lines.now force r.1)
        (seen (P.told ready) (S.text shown.old)) (seen (P.told r.0) (S.text shown.new))) }
    ensures unlearned { IfErr result (λ e. IsUnlearned (check_questions lines.now force)
        (seen (P.told ready) (S.text shown.old)) (seen (P.told e.0) (S.text shown.new)) e.1) }
    ensures listed { IfOk result (λ r. IfSome r.1 (λ u. (force ≡ false) × IsListed lines.now u)) }
    ensures shown_later { S.faults shown.old ≤ S.faults shown.new }
    ensures output { IfErr result (λ e.
        e.1 ≡ DriveError.Output → Rose (S.faults shown.old) (S.faults shown.new)) }
{
    if force {
        return Ok((ready, None));
    }
    let (ready, product) = match ask_product(ready, lines, shown) {
        Ok(answer) => answer,
        Err(stop) => return Err(stop),
    };
    match check_lines(ready, lines, &product, shown) {
        Ok((ready, unmet)) => Ok((ready, unmet)),
        Err(stop) => Err(stop),
    }
}
