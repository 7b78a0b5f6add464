use crate::kept::Place;

/// The number that a sum of decimal numbers and names of places gives. None where it's none.
pub fn number(places: &[Place], text: &str) -> Option<u64> {
    let mut sum: u64 = 0;
    for term in text.split('+') {
        sum = sum.checked_add(term_of(places, term)?)?;
    }
    Some(sum)
}

fn term_of(places: &[Place], text: &str) -> Option<u64> {
    match text.parse() {
        Ok(number) => Some(number),
        Err(_) => place_of(places, text),
    }
}

fn place_of(places: &[Place], text: &str) -> Option<u64> {
    for place in places {
        if place.name.as_str() == text {
            return Some(place.number);
        }
    }
    None
}

/// A number of bytes, or a place among bytes in memory.
pub fn size(places: &[Place], text: &str) -> Option<usize> {
    usize::try_from(number(places, text)?).ok()
}

/// A number, and what stands after it.
pub fn number_and<'a>(places: &[Place], text: &'a str) -> Option<(u64, &'a str)> {
    let (first, rest) = text.split_once(" ").unwrap_or((text, ""));
    Some((number(places, first)?, rest))
}

/// A place, and what stands after it.
pub fn size_and<'a>(places: &[Place], text: &'a str) -> Option<(usize, &'a str)> {
    let (first, rest) = text.split_once(" ").unwrap_or((text, ""));
    Some((size(places, first)?, rest))
}

/// Three numbers.
pub fn three_sizes(places: &[Place], text: &str) -> Option<(usize, usize, usize)> {
    let (first, rest) = size_and(places, text)?;
    let (second, rest) = size_and(places, rest)?;
    Some((first, second, size(places, rest)?))
}
