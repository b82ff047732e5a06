// Texts that are repeated.
use crate::answer::Answer;
use std::alloc::Global;

/// Adds a piece to a text so many times.
pub fn add_times(text: &mut Vec<u8>, piece: &[u8], count: u32, out: &mut Answer) {
    for _ in 0..count {
        if text.extend_from_slice(piece).is_err() {
            out.refuse("memory");
        }
    }
}

/// A text so many times.
pub fn repeated(alloc: Global, piece: &[u8], count: u32, out: &mut Answer) -> Vec<u8> {
    let mut text = Vec::new(alloc);
    add_times(&mut text, piece, count, out);
    text
}
