// Shapes of a grammar's rules.
use sqlite_items::{Boxed, Items};

/// What a rule stands for: a leaf of a class, what another rule stands for, several shapes one behind another,
/// one of several shapes, a shape or nothing, a shape any number of times.
#[derive(Drop)]
pub enum Shape {
    Leaf(u16),
    Rule(u16),
    Seq(Items<Shape>),
    Choice(Items<Shape>),
    Opt(Boxed<Shape>),
    Many(Boxed<Shape>),
}
