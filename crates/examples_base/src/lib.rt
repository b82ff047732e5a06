//! What the programs of worked examples share: they read cases from the standard input, and write each with its answer.
//!
//! ```text
//! # White space is the space, the tab and the form feed, and no vertical tab (JLS 3.6).
//! == java leaves
//! "a.b" => ID "a" | DOT "." | ID "b" | END
//! "a\x0bb" => ID "a" | END, bad at byte 1: BadLeaf
//! ```
//!
//! A line that begins with `==` names the call that the cases below it make. Lines that begin with `given` say what
//! these cases share, as rules or a world of classes; `forget` drops those that begin with a word (`Lines`). A case is
//! read as words (`Words`), and its answer is written into an `Answer`, which keeps it where a call gave up, memory was
//! refused or a case isn't of its heading's form: such a run ends with a status that isn't 0.
//!
//! Nothing rests on the programs, and what is proved of them is that they are safe and make no call without what it
//! requires. They are for what people know: what the field's documents say that an answer is, and that calls which take
//! memory give one where there is memory, on large inputs too.
#![tactic(auto)]

mod answer;
mod lines;
mod places;
mod times;
mod words;

pub use answer::{Answer, Stop};
pub use lines::Lines;
pub use places::{put_place, put_refused};
pub use times::{add_times, repeated};
pub use words::{Words, number_in, text_of, words_of};
