use jtypes::MethodSig;
use sqlite_items::Items;

/// What the name of a call without receiver means.
#[derive(Drop)]
pub enum Called {
    /// The methods of the name, in the order of the walks; none where nothing has it.
    Methods(Items<MethodSig>),
    /// A method that a local or anonymous class declares, which isn't known.
    Unknown,
}
