// What a node of each kind is to the units of a file.
ghost use Rattle.std.specs.Prelude.{◌≡◌};
ghost use Rattle.java_reader.specs.Units.{role_of};

use crate::kind::{Kind, kind_in};

#[derive(Clone, Copy, Debug)]
pub(crate) enum Role {
    /// A class, interface, enum or annotation type.
    Declares,
    /// A declaration with its modifiers.
    Modified,
    /// A body of members.
    Holds,
    /// A member.
    Stands,
    Plain,
}

/// What a node of a kind, by its number, is to the units.
#[tactic(auto, unfolding(crate::specs::Units::role_of))]
pub(crate) fn role_of(number: u16) -> Role
    ensures { result ≡ role_of number }
{
    match kind_in(number) {
        Some(Kind::Class | Kind::Interface | Kind::Enum | Kind::AnnType) => Role::Declares,
        Some(Kind::TypeDecl | Kind::Member) => Role::Modified,
        Some(Kind::Body) => Role::Holds,
        Some(Kind::Const | Kind::MemberRest | Kind::Block) => Role::Stands,
        _ => Role::Plain,
    }
}
