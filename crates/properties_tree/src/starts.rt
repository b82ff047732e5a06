// How a line begins, for the reader and the look-up of keys.
ghost use Rattle.std.specs.Prelude.{◌<◌, length};
ghost use Rattle.properties_tree.specs.Starts.{IsStart};

use crate::lines::{begins_no_entry, blanks_length, ending_length, text_length};
use crate::pieces::{key_size_behind, plain_key_length};

// How many bytes the blanks before an entry and its key have, and whether the key is known to have no backslash.
#[derive(Clone, Copy)]
pub struct KeyStart {
    pub blanks: usize,
    pub key: usize,
    pub plain: bool,
}

// What a text begins with: a line of so many bytes that is passed over, or an entry.
#[derive(Clone, Copy)]
pub enum Start {
    Passed(usize),
    Entry(KeyStart),
}

// What a text begins with, where a line begins.
pub fn start_of(text: &[u8]) -> Start
    requires { 0 < length text.now }
    ensures { IsStart text.now result }
{
    let blanks = blanks_length(text);
    let line = &text[blanks..];
    if begins_no_entry(line) {
        let end = text_length(text);
        return Start::Passed(end + ending_length(&text[end..]));
    }
    let plain = plain_key_length(line);
    let key = key_size_behind(line, plain);
    Start::Entry(KeyStart {
        blanks,
        key,
        plain: key == plain,
    })
}
