// What nodes of a Java tree give to the nodes around them, and are given by these.
use declared_names::Parameter;
use expression_names::Denoted;
use j_overload::ArgType;
use jtypes::{JType, Name};
use sqlite_items::Items;
use type_positions::MeantType;

/// What a node gives to the node around it.
#[derive(Drop)]
pub enum Value {
    /// Nothing.
    Nothing,
    /// What an expression, or a name in one, stands for.
    Denoted(Denoted),
    /// A lambda expression or method reference.
    Function,
    /// A written type.
    Written(MeantType),
    /// What is known of the arguments of a call.
    Args(Items<ArgType>),
    /// So many dimensions, of a creation or behind a field's name.
    Dims(usize),
    /// Parameters of a method, a constructor or a lambda expression.
    Params(Items<Parameter>),
}

/// What a node is given by the node around it.
#[derive(Drop)]
pub enum Given {
    /// Nothing.
    Nothing,
    /// To what stands behind a dot or in brackets: what stands before.
    Behind(Denoted),
    /// To what stands behind a created type: the class that it is, if it is one.
    Created(Option<Name>),
    /// To a declarator: the type of the declared locals.
    Locals(MeantType),
    /// To a declarator, and to what stands behind the type of a member: this type, and the class that declares it.
    Fields(MeantType, Option<Name>),
    /// To a member: the class that declares it, where this has a qualified name.
    Member(Option<Name>),
    /// To a class that is declared by a qualified name: this name.
    Head(Name),
    /// To a group of a `switch` and its label: the type that is switched over.
    Switch(JType),
    /// To a primary in a case label: the type that is switched over.
    Case(JType),
    /// To what stands behind the variable of a `for`: the leaf of its name, and its type.
    Variable(u32, MeantType),
    /// To an argument of an annotation: the class that the annotation names, if it names one.
    Annotation(Option<Name>),
    /// To a name: it is that of a package declaration.
    PackageName,
    /// To a type: it is the lone name of a lambda expression's parameter.
    LambdaParam,
    /// To a type: it is that of a constructor.
    Constructor,
}
