// Answers, as they are written.
use std::alloc::Global;
use std::fmt::Debug;
use std::io;

/// The answer of a case, as far as it is written. It is refused where a call gave up, memory was refused or the case
/// isn't of its heading's form.
#[derive(Drop)]
pub struct Answer {
    text: String,
    refused: bool,
}

/// Why a run ends before its last case.
#[derive(Debug, Drop)]
pub enum Stop {
    /// An answer was refused, which its line says.
    Refused,
    Io(io::Error),
}

impl From<io::Error> for Stop {
    fn from(error: io::Error) -> Self {
        Stop::Io(error)
    }
}

// The digit of a number below 16.
fn hex_digit(value: u8) -> char {
    match value {
        0..=9 => char::from(b'0'.wrapping_add(value)),
        _ => char::from(b'a'.wrapping_add(value.wrapping_sub(10))),
    }
}

// The checksum FNV-1a of a text, in 64 bits.
fn checksum(text: &[u8]) -> u64 {
    let mut sum = 0xcbf2_9ce4_8422_2325u64;
    for b in text {
        sum = (sum ^ u64::from(*b)).wrapping_mul(0x100_0000_01b3);
    }
    sum
}

impl Answer {
    /// Nothing so far.
    pub fn new(alloc: Global) -> Answer {
        Answer {
            text: String::new(alloc),
            refused: false,
        }
    }

    /// How many bytes it has.
    pub fn len(&self) -> usize {
        self.text.len()
    }

    /// Writes a text.
    pub fn put(&mut self, text: &str) {
        if self.text.push_str(text).is_err() {
            self.refused = true;
        }
    }

    /// Says that there is no answer, and what is lacking.
    pub fn refuse(&mut self, lack: &str) {
        if !self.refused {
            self.put("refused: ");
            self.put(lack);
        }
        self.refused = true;
    }

    // Writes a character.
    fn put_char(&mut self, c: char) {
        if self.text.push(c).is_err() {
            self.refused = true;
        }
    }

    /// Writes a number.
    pub fn put_number(&mut self, number: usize) {
        if write!(self.text, "{number}").is_err() {
            self.refused = true;
        }
    }

    /// Writes whether something holds.
    pub fn put_bool(&mut self, holds: bool) {
        self.put(if holds { "true" } else { "false" });
    }

    /// Writes a value as its type shows it.
    pub fn put_debug<T: Debug>(&mut self, value: &T) {
        if write!(self.text, "{value:?}").is_err() {
            self.refused = true;
        }
    }

    // Writes a byte, past ASCII and as a control character by an escape.
    fn put_byte(&mut self, b: u8) {
        match b {
            b'\n' => self.put("\\n"),
            b'\r' => self.put("\\r"),
            b'\t' => self.put("\\t"),
            b'\\' => self.put("\\\\"),
            b'"' => self.put("\\\""),
            b' '..=b'~' => self.put_char(char::from(b)),
            _ => {
                self.put("\\x");
                self.put_char(hex_digit(b >> 4));
                self.put_char(hex_digit(b & 15));
            }
        }
    }

    /// Writes a text with its bytes past ASCII and its control characters as escapes.
    pub fn put_escaped(&mut self, text: &[u8]) {
        for b in text {
            self.put_byte(*b);
        }
    }

    /// Writes a text in quotes, as a case has it.
    pub fn put_quoted(&mut self, text: &[u8]) {
        self.put("\"");
        self.put_escaped(text);
        self.put("\"");
    }

    /// Writes bytes as text, with a replacement for those that aren't UTF-8.
    pub fn put_lossy(&mut self, alloc: Global, text: &[u8]) {
        match String::from_utf8_lossy(alloc, text) {
            Ok(text) => self.put(text.as_str()),
            Err(_) => self.refuse("memory"),
        }
    }

    /// Writes what stands between two answers in a row, but not before the first.
    pub fn put_between(&mut self, at: usize, between: &str) {
        if at > 0 {
            self.put(between);
        }
    }

    // Writes how long a text is, and its checksum.
    fn put_sum(&mut self, text: &[u8]) {
        let sum = checksum(text);
        if write!(self.text, "{} bytes {sum:016x}", text.len()).is_err() {
            self.refused = true;
        }
    }

    /// Writes a text: in quotes, or where it has more than 1,000 bytes, how many these are and their checksum.
    pub fn put_text(&mut self, text: &[u8]) {
        if text.len() > 1000 {
            self.put_sum(text);
        } else {
            self.put_quoted(text);
        }
    }

    /// Prints the line of a case, and ends the run where its answer was refused.
    pub fn print<R: Print>(self, rt: &R) -> Result<(), Stop> {
        let Answer { text, refused } = self;
        rt.println(text)?;
        if refused { Err(Stop::Refused) } else { Ok(()) }
    }
}
