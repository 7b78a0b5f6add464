ghost use Rattle.std.specs.Prelude.{◌≡◌, ◌==◌, ◌∷◌, Some, None, IfOk};
ghost use Rattle.std.specs.Result.{IsErrOf};
ghost use Rattle.std.specs.List.{list_all};
ghost use Rattle.product_info.specs.RequirementText.{is_variable_byte, variable_of, values_of, asked_name, listed, exists, named, body_of, product_of, requirement_of};

use crate::blanks::{cut_at, cut_blank, first_part, trimmed};
use crate::lines::LineError;
use crate::requirement::{ReqKind, Requirement, Words};
use fb_frame::name::Name;
use fb_frame::word::Word;
use std::alloc::Global;

fn is_variable_byte(b: u8) -> bool
    ensures { result ≡ is_variable_byte b }
{
    b.is_ascii_alphanumeric() || b == b'_' || b == b'.' || b == b'-' || b == b':'
}

fn are_variable_bytes(text: &[u8]) -> bool
    ensures { result ≡ list_all is_variable_byte text.now }
{
    text.iter().all(|b| is_variable_byte(*b))
}

/// The name of a variable or of a product.
fn read_variable(text: &[u8]) -> Option<Word>
    ensures { result ≡ variable_of text.now }
{
    if are_variable_bytes(text) {
        Word::read(text)
    } else {
        None
    }
}

/// The values of a list, with `|` between them.
#[tactic(auto, using(crate::proofs::ValueLemmas::valued))]
fn read_values(alloc: Global, text: &[u8]) -> Result<Words, LineError>
    ensures values { IfOk result (λ values. values_of text.now ≡ Some values) }
    ensures bad { IsErrOf result LineError.Bad → values_of text.now ≡ None }
{
    let mut values = Words::new(alloc);
    let mut rest = Some(text);
    while let Some(left) = rest {
        let (part, more) = first_part(left, b'|');
        let Some(value) = Word::read(trimmed(part)) else {
            return Err(LineError::Bad);
        };
        values.push(value).map_err(|_| LineError::Memory)?;
        rest = more;
    }
    Ok(values)
}

/// The variable that a name asks for.
fn asked_name(name: Word) -> Word
    ensures { result ≡ asked_name name }
{
    if name.bytes() == b"board".as_slice() {
        Word::read(b"product").unwrap()
    } else {
        name
    }
}

/// A line that wants one of the values of a list, or none of them.
fn read_listed(
    alloc: Global,
    line: u32,
    product: Option<Word>,
    rejects: bool,
    name: Word,
    text: &[u8],
) -> Result<Requirement, LineError>
    ensures read { IfOk result (λ r. listed line product rejects name (values_of text.now) ≡ Some r) }
    ensures bad { IsErrOf result LineError.Bad →
        listed line product rejects name (values_of text.now) ≡ None }
{
    let values = read_values(alloc, text)?;
    let kind = if rejects {
        ReqKind::Reject
    } else {
        ReqKind::Require
    };
    Ok(Requirement {
        line,
        product,
        kind,
        name: asked_name(name),
        values,
    })
}

/// A line that wants a partition of this name.
fn read_exists(alloc: Global, line: u32, product: Option<Word>, part: &[u8]) -> Option<Requirement>
    ensures { result ≡ exists line product part.now }
{
    let _name = Name::read(part)?;
    let name = Word::read(part)?;
    Some(Requirement {
        line,
        product,
        kind: ReqKind::Exists,
        name,
        values: Words::new(alloc),
    })
}

/// A line on this name, with a text behind its `=`.
fn read_named(
    alloc: Global,
    line: u32,
    product: Option<Word>,
    rejects: bool,
    name: Word,
    text: &[u8],
) -> Result<Requirement, LineError>
    ensures read { IfOk result (λ r. named line product rejects (Some name) text.now ≡ Some r) }
    ensures bad { IsErrOf result LineError.Bad → named line product rejects (Some name) text.now ≡ None }
{
    if !rejects && name.bytes() == b"partition-exists".as_slice() {
        let requirement = read_exists(alloc, line, product, text).ok_or(LineError::Bad)?;
        Ok(requirement)
    } else {
        let requirement = read_listed(alloc, line, product, rejects, name, text)?;
        Ok(requirement)
    }
}

/// `NAME=LIST` or `partition-exists=N`.
fn read_body(
    alloc: Global,
    line: u32,
    product: Option<Word>,
    rejects: bool,
    body: &[u8],
) -> Result<Requirement, LineError>
    ensures read { IfOk result (λ r. body_of line product rejects body.now ≡ Some r) }
    ensures bad { IsErrOf result LineError.Bad → body_of line product rejects body.now ≡ None }
{
    let Some((name, text)) = cut_at(body, b'=') else {
        return Err(LineError::Bad);
    };
    let Some(name) = read_variable(trimmed(name)) else {
        return Err(LineError::Bad);
    };
    let requirement = read_named(alloc, line, product, rejects, name, trimmed(text))?;
    Ok(requirement)
}

/// The product P of the word `require-for-product:P`.
fn product_of(word: &[u8]) -> Option<Word>
    ensures { result ≡ product_of word.now }
{
    let product = word.strip_prefix(b"require-for-product:".as_slice())?;
    read_variable(product)
}

/// The requirement of a line.
#[tactic(auto, unfolding(crate::specs::RequirementText::requirement_of))]
pub(crate) fn read_requirement(
    alloc: Global,
    line: u32,
    text: &[u8],
) -> Result<Requirement, LineError>
    ensures read { IfOk result (λ r. requirement_of line text.now ≡ Some r) }
    ensures bad { IsErrOf result LineError.Bad → requirement_of line text.now ≡ None }
{
    let Some((word, rest)) = cut_blank(text) else {
        let requirement = read_body(alloc, line, None, false, text)?;
        return Ok(requirement);
    };
    let requirement = if word == b"require".as_slice() {
        read_body(alloc, line, None, false, rest)?
    } else if word == b"reject".as_slice() {
        read_body(alloc, line, None, true, rest)?
    } else if let Some(product) = product_of(word) {
        read_body(alloc, line, Some(product), false, rest)?
    } else {
        read_body(alloc, line, None, false, text)?
    };
    Ok(requirement)
}
