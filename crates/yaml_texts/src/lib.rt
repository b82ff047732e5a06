//! The texts of YAML scalars: what a key or a value says, and how a text is written so that it reads back.
//!
//! A recipe that looks for a key, or compares a value, asks what a leaf stands for; one that renames a key or sets a
//! value spells a text as a scalar:
//!
//! ```text
//! let key = decoded(alloc, KEY, None, b"'it''s'", rest)?;     // it's
//! let note = decoded(alloc, BLOCK, Some(0), b"|-\n  a\n  b", rest)?;    // two lines, without a last line end
//! let value = spell_yaml(alloc, b"a: b")?;    // 'a: b'
//! ```
//!
//! `decoded` gives `scalar_text`, a function of the leaf's class and bytes, and of what a block scalar depends on
//! beside them. It gives none for folded scalars, quoted ones over several lines, and escapes other than those listed.
//! `spell_yaml` gives `spelled`, and none exactly for a character below U+0020. What it gives is one leaf that says the
//! text again, as a key and as a value, in block and in flow context: law `spelled_texts_read_back`.
//!
//! The definitions in specs/, in this order: `Quoted` says what stands between quotes, and `Texts` what block scalars
//! and all scalars say. `Spelled` is how a text is written, and `Laws` what holds of every text. `Steps` is of the
//! small functions alone, and no public clause cites it.
#![tactic(auto)]

mod block;
mod laws;
mod quoted;
mod scalars;
mod spelling;

pub use laws::{plain_texts_are_plain_scalars, spelled_texts_read_back};
pub use scalars::decoded;
pub use spelling::spell_yaml;
