//! The name tables of statements outside the language.

/// A table of names (CIL Reference Guide, "Namespaces"). Its names stand for attributes without members, whose own names begin with the
/// table's prefix; those of types stand for themselves.
#[derive(Clone, Copy, Debug, PartialEq, Eq)]
pub enum Table {
    Types,
    Roles,
    Users,
    Booleans,
    Tunables,
    Categories,
    Sensitivities,
    Levels,
    Ranges,
    Contexts,
    Sids,
    Addresses,
    ExtendedPermissions,
}

impl Table {
    ghost use Rattle.std.specs.Prelude.{◌≡◌};
    ghost use Rattle.cil_projection.specs.Pieces.{prefix};

    /// What stands in front of the last component of a name.
    pub fn prefix(self) -> &'static [u8]
        ensures { result.now ≡ prefix self }
    {
        match self {
            Table::Types => b"",
            Table::Roles => b"cilsem__role__",
            Table::Users => b"cilsem__user__",
            Table::Booleans => b"cilsem__boolean__",
            Table::Tunables => b"cilsem__tunable__",
            Table::Categories => b"cilsem__category__",
            Table::Sensitivities => b"cilsem__sensitivity__",
            Table::Levels => b"cilsem__level__",
            Table::Ranges => b"cilsem__range__",
            Table::Contexts => b"cilsem__context__",
            Table::Sids => b"cilsem__sid__",
            Table::Addresses => b"cilsem__address__",
            Table::ExtendedPermissions => b"cilsem__permissionx__",
        }
    }
}
