use crate::ask::Ask;
use crate::signatures::MethodSig;
use crate::symbol::Symbol;
use crate::types::JType;

/// What is known of the names and expressions of a unit, a part of a Java file that is judged alone. Each number counts
/// from the start of the unit.
#[derive(Debug, Drop)]
pub struct UnitTypes {
    /// What each identifier leaf stands for, by the number of the leaf.
    pub symbols: Vec<(u32, Symbol)>,
    /// The type of each expression, by the number of its node.
    pub types: Vec<(u32, JType)>,
    /// The chosen method of each call that has one, by the number of the leaf that names it.
    pub chosen: Vec<(u32, MethodSig)>,
    /// The questions to the world of classes on which all this rests, in their order, each once.
    pub asks: Vec<Ask>,
}
