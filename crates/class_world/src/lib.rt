//! The world of classes that files declare: what each class is, over what it stands, and its fields and methods.
//!
//! ```text
//! let world = World::build(alloc, &files, &stubs, &prelude)?;   // skeletons, in the order of the files' paths
//! let header = world.class(&name);
//! let method = world.methods(&owner, &name);                    // as the class declares them, none inherited
//! ```
//!
//! The promise. `World::build` gives exactly `the_world` of these skeletons (clause `gives`): of two declarations of
//! one name the first counts, those of the files before those of the stubs, and these before the prelude's. It is made
//! in three layers. First stand the headers as they are written, without supertypes; by these the supertypes of each
//! are resolved, and by the headers with their supertypes the types of fields and methods. So the order of classes
//! decides nothing but which of two of one name counts, and what is known of a class rests on its own declaration and
//! on the answers of the layer below alone. It is refused where memory is wanting, and nowhere else.
//!
//! A look-up takes one hash for the class, in a large world as in a small one, and finds a member by halves among those
//! of the class, which stand in the order of their names. Names are shared with the skeletons, and each class has a row
//! of its own, which worlds may share.
//!
//! Read `specs/Worlds.antt` first, which ends in `the_world`; what supertypes, fields and methods of a declared type
//! are stands in `declared_types`. `Rows` says what a built world answers, and `Once` when names differ.
#![tactic(auto)]

mod by_name;
mod firsts;
mod layers;
mod row;
mod rows;
mod world;

pub use world::World;
