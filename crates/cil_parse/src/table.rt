//! The tables of names.

/// The tables of names: types, aliases and attributes share one, and so do blocks and optionals. Permission sets have one of their own.
#[derive(Clone, Copy, Debug, PartialEq, Eq, Hash)]
pub enum Table {
    Types,
    Classes,
    Commons,
    PermissionSets,
    Scopes,
}
