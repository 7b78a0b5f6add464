ghost use Rattle.std.specs.Prelude.{◌≡◌, ◌==◌, ◌+◌, ◌-◌, ◌≤◌, ◌<◌, [], ◌∷◌, length, take, drop, option_map, position, MatchOption, IfSome};
ghost use Rattle.std.specs.Option.{option_map_or};
ghost use Rattle.std.specs.List.{list_all, prefix_len, suffix_len};
ghost use Rattle.std.specs.Str.Lines.{strip_carriage_return};
ghost use Rattle.product_info.specs.Blanks.{is_blank, is_text_byte, trim_front, trim_end, trimmed, parts, cut_at, cut_blank, words, content};

/// A space or a tab.
fn is_blank(b: u8) -> bool
    ensures { result ≡ is_blank b }
{
    b == b' ' || b == b'\t'
}

/// A blank, or a graphic byte of ASCII.
fn is_text_byte(b: u8) -> bool
    ensures { result ≡ is_text_byte b }
{
    is_blank(b) || (0x21..=0x7e).contains(&b)
}

/// Whether all bytes are blanks or graphic ASCII.
pub(crate) fn is_text(text: &[u8]) -> bool
    ensures { result ≡ list_all is_text_byte text.now }
{
    text.iter().all(|b| is_text_byte(*b))
}

/// The text without the blanks in front.
fn trim_front(text: &[u8]) -> &[u8]
    ensures { result.now ≡ trim_front text.now }
{
    let mut at = 0;
    while at < text.len() && is_blank(text[at]) {
        at += 1;
    }
    &text[at..]
}

/// The text without the blanks at the end.
fn trim_end(text: &[u8]) -> &[u8]
    ensures { result.now ≡ trim_end text.now }
{
    let mut end = text.len();
    while end > 0 && is_blank(text[end - 1]) {
        end -= 1;
    }
    &text[..end]
}

/// The text without the blanks at either end.
#[tactic(auto, unfolding(crate::specs::Blanks::trimmed))]
pub(crate) fn trimmed(text: &[u8]) -> &[u8]
    ensures { result.now ≡ trimmed text.now }
{
    trim_end(trim_front(text))
}

fn byte_at(text: &[u8], at: u8) -> Option<usize>
    ensures { result ≡ position (λ b. b == at) text.now }
{
    text.iter().position(|b| *b == at)
}

fn blank_at(text: &[u8]) -> Option<usize>
    ensures { result ≡ position is_blank text.now }
{
    text.iter().position(|b| is_blank(*b))
}

/// What stands before the first byte of this value, and what behind it.
pub(crate) fn cut_at(text: &[u8], at: u8) -> Option<(&[u8], &[u8])>
    ensures { option_map (λ sides. (sides.0.now, sides.1.now)) result ≡ cut_at at text.now }
{
    match byte_at(text, at) {
        Some(i) => Some((&text[..i], &text[i + 1..])),
        None => None,
    }
}

/// What stands before the first blank, and what behind it.
pub(crate) fn cut_blank(text: &[u8]) -> Option<(&[u8], &[u8])>
    ensures { option_map (λ sides. (sides.0.now, sides.1.now)) result ≡ cut_blank text.now }
{
    match blank_at(text) {
        Some(i) => Some((&text[..i], &text[i + 1..])),
        None => None,
    }
}

/// The first of the parts between bytes of this value, and what follows it, where there are more.
#[tactic(auto, using(crate::proofs::BlankLemmas::parted))]
pub(crate) fn first_part(text: &[u8], at: u8) -> (&[u8], Option<&[u8]>)
    ensures parts { parts at text.now ≡ result.0.now ∷ option_map_or (λ rest. parts at rest.now) result.1 [] }
    ensures shorter { IfSome result.1 (λ rest. length rest.now < length text.now) }
{
    match byte_at(text, at) {
        Some(i) => (&text[..i], Some(&text[i + 1..])),
        None => (text, None),
    }
}

/// The first word, and what follows it. None where there are only blanks.
#[tactic(auto, using(crate::proofs::BlankLemmas::worded))]
pub(crate) fn first_word(text: &[u8]) -> Option<(&[u8], &[u8])>
    ensures words { MatchOption result (words text.now ≡ []) (λ sides.
        words text.now ≡ sides.0.now ∷ words sides.1.now) }
    ensures shorter { IfSome result (λ sides. length sides.1.now < length text.now) }
{
    let text = trim_front(text);
    if text.is_empty() {
        return None;
    }
    match blank_at(text) {
        Some(i) => Some((&text[..i], &text[i + 1..])),
        None => Some((text, &text[text.len()..])),
    }
}

/// The line without one carriage return at its end.
fn strip_return(line: &[u8]) -> &[u8]
    ensures { result.now ≡ strip_carriage_return line.now }
{
    match line {
        [front @ .., b'\r'] => front,
        _ => line,
    }
}

/// The line without one carriage return at its end, and then without the blanks at either end.
pub(crate) fn content(line: &[u8]) -> &[u8]
    ensures { result.now ≡ content line.now }
{
    trimmed(strip_return(line))
}
