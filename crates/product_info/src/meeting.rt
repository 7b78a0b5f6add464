ghost use Rattle.std.specs.Prelude.{◌≡◌, ◌-◌, option_map};
ghost use Rattle.std.specs.List.{list_any};
ghost use Rattle.product_info.specs.Meeting.{matches, matches_some, is_for, holds, meets};

use crate::requirement::{ReqKind, Requirement};
use fb_frame::word::Word;

/// Whether a text is one that a value matches.
fn matches(text: &[u8], value: &[u8]) -> bool
    ensures { result ≡ matches text.now value.now }
{
    match value {
        [front @ .., b'*'] => text.starts_with(front),
        _ => text == value,
    }
}

fn any_matches(values: &[Word], text: &[u8]) -> bool
    ensures { result ≡ list_any (matches text.now) values.now }
{
    values.iter().any(|value| matches(text, value.bytes()))
}

/// Whether some value of the list matches the text, where there is one.
fn matches_some(values: &[Word], text: Option<&[u8]>) -> bool
    ensures { result ≡ matches_some values.now (option_map (λ t. t.now) text.entry) }
{
    match text {
        Some(text) => any_matches(values, text),
        None => false,
    }
}

/// Whether a line that may be for one product is for this one.
pub fn is_for(wanted: &Option<Word>, product: Option<&[u8]>) -> bool
    ensures { result ≡ is_for wanted.now (option_map (λ p. p.now) product.entry) }
{
    match (wanted, product) {
        (None, _) => true,
        (Some(wanted), Some(product)) => wanted.bytes() == product,
        (Some(_), None) => false,
    }
}

/// Whether a line of this kind holds for this value.
fn holds(kind: ReqKind, values: &[Word], value: Option<&[u8]>) -> bool
    ensures { result ≡ holds kind values.now (option_map (λ v. v.now) value.entry) }
{
    match kind {
        ReqKind::Require => matches_some(values, value),
        ReqKind::Reject => !matches_some(values, value),
        ReqKind::Exists => value.is_some(),
    }
}

/// Whether the line isn't for a device of this product, or holds for this value of its variable.
///
/// The value of kind `Exists` is the text of `has-slot` with the line's name. None is a variable that
/// the device lacks, which matches nothing.
pub fn meets(requirement: &Requirement, product: Option<&[u8]>, value: Option<&[u8]>) -> bool
    ensures { result ≡ meets requirement.now (option_map (λ p. p.now) product.entry)
        (option_map (λ v. v.now) value.entry) }
{
    !is_for(&requirement.product, product)
        || holds(requirement.kind, requirement.values.as_slice(), value)
}
