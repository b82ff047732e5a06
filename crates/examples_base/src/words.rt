// The words of a case. A word is plain, or it stands in quotes, in which `\n`, `\r`, `\t`, `\\`, `\"` and `\xNN` are
// what they are in Rust.
ghost use Rattle.std.specs.Prelude.{◌<◌, IfSome};

use crate::answer::Answer;
use crate::times::add_times;
use std::alloc::Global;

// A word: which bytes of all words' are its own, and whether it stands in quotes.
#[derive(Clone, Copy)]
struct Word {
    from: usize,
    to: usize,
    quoted: bool,
}

/// The words of a case.
#[derive(Drop)]
pub struct Words {
    bytes: Vec<u8>,
    words: Vec<Word>,
}

// Where a case is read.
#[derive(Clone, Copy)]
enum Place {
    Gap,
    Plain,
    Quoted,
    Escape,
    Hex,
    LowHex(u8),
    Wrong,
}

// The words so far, and where the bytes of the next one begin.
#[derive(Drop)]
struct Reader {
    bytes: Vec<u8>,
    words: Vec<Word>,
    from: usize,
}

// The value of a digit of base 16.
fn hex_value(b: u8) -> Option<u8>
    ensures { IfSome result (λ value. value < 16) }
{
    match b {
        b'0'..=b'9' => Some(b - b'0'),
        b'a'..=b'f' => Some(b - b'a' + 10),
        _ => None,
    }
}

// The byte that a letter behind a backslash stands for.
fn escaped_byte(letter: u8) -> Option<u8> {
    match letter {
        b'n' => Some(b'\n'),
        b'r' => Some(b'\r'),
        b't' => Some(b'\t'),
        b'\\' | b'"' => Some(letter),
        _ => None,
    }
}

impl Reader {
    // One byte more of a word, behind which the case is read at this place.
    fn keep(&mut self, b: u8, behind: Place) -> Place {
        match self.bytes.push(b) {
            Ok(()) => behind,
            Err(_) => Place::Wrong,
        }
    }

    // Ends a word.
    fn end(&mut self, quoted: bool) -> Place {
        let to = self.bytes.len();
        let from = self.from;
        self.from = to;
        match self.words.push(Word { from, to, quoted }) {
            Ok(()) => Place::Gap,
            Err(_) => Place::Wrong,
        }
    }

    // The letter behind a backslash.
    fn push_escape(&mut self, b: u8) -> Place {
        match escaped_byte(b) {
            Some(byte) => self.keep(byte, Place::Quoted),
            None if b == b'x' => Place::Hex,
            None => Place::Wrong,
        }
    }

    // The second of two digits of base 16.
    fn push_low_hex(&mut self, high: u8, b: u8) -> Place {
        match hex_value(b) {
            Some(low) => self.keep(high.wrapping_mul(16) | low, Place::Quoted),
            None => Place::Wrong,
        }
    }

    // One byte more of a case, and where it is read then.
    fn push(&mut self, place: Place, b: u8) -> Place {
        match place {
            Place::Gap => match b {
                b' ' => Place::Gap,
                b'"' => Place::Quoted,
                _ => self.keep(b, Place::Plain),
            },
            Place::Plain => match b {
                b' ' => self.end(false),
                _ => self.keep(b, Place::Plain),
            },
            Place::Quoted => match b {
                b'\\' => Place::Escape,
                b'"' => self.end(true),
                _ => self.keep(b, Place::Quoted),
            },
            Place::Escape => self.push_escape(b),
            Place::Hex => match hex_value(b) {
                Some(high) => Place::LowHex(high),
                None => Place::Wrong,
            },
            Place::LowHex(high) => self.push_low_hex(high, b),
            Place::Wrong => Place::Wrong,
        }
    }

    // Reads a case, and gives where it ends.
    fn read(&mut self, case: &str) -> Place {
        let mut place = Place::Gap;
        for b in case.as_bytes() {
            place = self.push(place, *b);
        }
        match place {
            Place::Plain => self.end(false),
            _ => place,
        }
    }
}

/// The words of a case.
pub fn words_of(alloc: Global, case: &str, out: &mut Answer) -> Words {
    let mut reader = Reader {
        bytes: Vec::new(alloc),
        words: Vec::new(alloc),
        from: 0,
    };
    match reader.read(case) {
        Place::Gap => {}
        _ => out.refuse("words"),
    }
    let Reader {
        bytes,
        words,
        from: _,
    } = reader;
    Words { bytes, words }
}

/// The number that a text spells.
pub fn number_in(text: &str, out: &mut Answer) -> u32 {
    match text.parse::<u32>() {
        Ok(number) => number,
        Err(_) => {
            out.refuse("number");
            0
        }
    }
}

impl Words {
    /// How many there are.
    pub fn count(&self) -> usize {
        self.words.len()
    }

    /// Whether the word at a place stands in quotes.
    pub fn is_quoted(&self, at: usize) -> bool {
        match self.words.get(at) {
            Some(word) => word.quoted,
            None => false,
        }
    }

    // The bytes of the word at a place, if it stands in quotes or not as this says.
    fn bytes_at(&self, at: usize, quoted: bool) -> Option<&[u8]> {
        match self.words.get(at) {
            Some(word) if word.quoted == quoted => self.bytes.get(word.from..word.to),
            _ => None,
        }
    }

    /// The text of the quoted word at a place.
    pub fn quoted<'w>(&'w self, at: usize, out: &mut Answer) -> &'w [u8] {
        match self.bytes_at(at, true) {
            Some(bytes) => bytes,
            None => {
                out.refuse("quoted word");
                &[]
            }
        }
    }

    /// The plain word at a place.
    pub fn plain<'w>(&'w self, at: usize, out: &mut Answer) -> &'w str {
        match self.bytes_at(at, false) {
            Some(bytes) => std::str::from_utf8(bytes).unwrap_or(""),
            None => {
                out.refuse("plain word");
                ""
            }
        }
    }

    /// The number at a place.
    pub fn number(&self, at: usize, out: &mut Answer) -> u32 {
        number_in(self.plain(at, out), out)
    }

    // Adds the word at a place to a text; a number repeats the word before it.
    fn add(&self, at: usize, text: &mut Vec<u8>, out: &mut Answer) {
        if self.is_quoted(at) {
            add_times(text, self.quoted(at, out), 1, out);
        } else {
            let times = self.number(at, out).saturating_sub(1);
            add_times(text, self.quoted(at.saturating_sub(1), out), times, out);
        }
    }

    /// The text of the words from a place on: the quoted words one behind another, where a number repeats the word
    /// before it so many times.
    pub fn text(&self, alloc: Global, first: usize, out: &mut Answer) -> Vec<u8> {
        let mut text = Vec::new(alloc);
        for at in first..self.words.len() {
            self.add(at, &mut text, out);
        }
        text
    }
}

/// The text of a case.
pub fn text_of(alloc: Global, case: &str, out: &mut Answer) -> Vec<u8> {
    words_of(alloc, case, out).text(alloc, 0, out)
}
