use jtypes::Name;

/// What looks at several packages have found.
#[derive(Drop)]
pub enum OnDemand {
    /// No type.
    Nothing,
    /// One type.
    One(Name),
    /// Several types.
    Several,
}
