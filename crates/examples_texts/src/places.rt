// Texts, and places in them.
use examples_base::{Answer, put_place};
use rw_base::{Place, Text, place_after, place_of};
use std::alloc::Global;

// The place of a byte.
fn place_at(bytes: &[u8], at: usize) -> Option<Place> {
    if at <= bytes.len() && at < u32::MAX as usize {
        Some(place_of(bytes, at))
    } else {
        None
    }
}

// The place of a byte, from the place of another one at or before it.
fn place_behind(bytes: &[u8], first: usize, at: usize) -> Option<Place> {
    if first <= at && at <= bytes.len() && at < u32::MAX as usize {
        let place = place_of(bytes, first);
        Some(place_after(bytes, place, at))
    } else {
        None
    }
}

// Writes a place behind others.
fn put_next(at: usize, place: Option<Place>, out: &mut Answer) {
    let Some(place) = place else {
        out.refuse("place");
        return;
    };
    out.put_between(at, ", ");
    out.put_number(place.byte as usize);
    out.put(" at ");
    put_place(place, out);
}

/// Writes the line and the column of each byte of a text and of its end.
pub fn put_places(text: &[u8], out: &mut Answer) {
    for at in 0..=text.len() {
        put_next(at, place_at(text, at), out);
    }
}

/// Writes the same, each place from that of a byte half as far.
pub fn put_places_behind(text: &[u8], out: &mut Answer) {
    for at in 0..=text.len() {
        put_next(at, place_behind(text, at / 2, at), out);
    }
}

/// Writes the place at the end of a text, and the same from the place halfway.
pub fn put_end(text: &[u8], out: &mut Answer) {
    if let Some(place) = place_at(text, text.len()) {
        put_place(place, out);
    }
    out.put(", ");
    if let Some(place) = place_behind(text, text.len() / 2, text.len()) {
        put_place(place, out);
    }
}

/// Writes a text that was kept, given back and kept again.
pub fn put_text(alloc: Global, text: &[u8], out: &mut Answer) {
    match Text::from_slice(alloc, text) {
        Ok(kept) => out.put_quoted(Text::from_vec(kept.into_vec()).as_slice()),
        Err(_) => out.refuse("memory"),
    }
}
