//! Java 8 files cut into leaves, the tokens of the Java Language Specification (JLS 3), each with the white space and
//! the comments before it.
//!
//! ```text
//! let Leaves { leaves, bad } = java_leaves(alloc, b"int x;")?;
//! // four leaves, of the classes PRIM, ID, SEMICOLON and END, and no bad place
//! mark(alloc, &mut leaves, b"int x;")?;
//! ```
//!
//! The leaves and the bad place are those of the definition `AreJavaLeaves` (clause `leaves` of `java_leaves`): each
//! file has them (`leaves_are_there`) and has them in one way (`leaves_are_one`). They lie one behind another, and none
//! of the file is lost (clause `tiles`, and `leaves_tile` of the definition). A leaf that is `;`, `{` or `}` parts a
//! text: what stands before it doesn't see what comes behind (`cut_alike`), what stands behind it is cut as a text of
//! its own (`cut_behind`), wherever it stands (`cut_anywhere`), and both together are cut into the leaves of both
//! (`cut_together`). `is_identifier` is true exactly where a whole text is a leaf of the class `ID`. The classes are
//! distinct numbers (`classes_differ`).
//!
//! `mark` gives each leaf the class that the leaves around it ask for: the `(` of a cast, the name of a declared type,
//! a label. Its clause `marked` says that these are the marks of the definition `AreMarked`, and the clause `unchanged`
//! that want of memory leaves all as it was. A list has one list of marks (`marks_are_one`), which change nothing but
//! classes (`marks_keep_leaves`, `marks_keep_tiles`). No mark looks past `;`, `{` or `}` (`marks_part`, `marks_join`),
//! nor does it depend on where the leaves stand (`marks_anywhere`).
//!
//! The definitions in specs/, in this order: `Numbers`, `Literals`, `Signs` and `Words` are the lexical grammar, over
//! the expressions of `rw_base`, and `Kinds` gives each text its class. `Blanks` has white space and comments, and
//! `Escapes` the escapes that are refused. `Leaves` cuts a text and a file by these. `Tiles`, `Laws` and `Classes` are
//! the words of the laws. `Types` says where types stand among leaves, `Marks` what each mark is, and `Segments` how a
//! list is marked. `Scanning` and the modules that begin with `Known` are of the small functions alone, and no public
//! clause cites them.
#![tactic(auto)]

mod automaton;
mod blank;
mod brackets;
mod choice;
pub mod class;
mod escape;
mod laws;
mod leaves;
mod piece;
mod segment;
mod shift;
mod slots;
mod table;
mod type_ends;
mod word;

pub use laws::{
    classes_differ, cut_alike, cut_anywhere, cut_behind, cut_together, leaves_are_one,
    leaves_are_there, leaves_tile, marks_anywhere, marks_are_one, marks_join, marks_keep_leaves,
    marks_keep_tiles, marks_part,
};
pub use leaves::java_leaves;
pub use segment::mark;
pub use word::is_identifier;
