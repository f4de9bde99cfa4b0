// Octets that become wrong.

// Every octet from `start` on, before `end`, becomes the given one.
pub(crate) fn put(s: &mut [u8], start: usize, end: usize, octet: u8) {
    if let Some(part) = s.get_mut(start..end) {
        part.fill(octet);
    }
}

pub(crate) fn change(s: &mut [u8], at: usize, added: u8) {
    if let Some(octet) = s.get_mut(at) {
        *octet ^= added;
    }
}

// So many octets changed, from `start` on, each so many places after the one before: a step may be 0, which `step_by` does not take, and a place
// may lie past the end, which is passed over.
pub(crate) fn changes(s: &mut [u8], start: usize, step: usize, wrong: usize, added: u8) {
    let mut at = start;
    for _ in 0..wrong {
        change(s, at, added);
        at = at.saturating_add(step);
    }
}
