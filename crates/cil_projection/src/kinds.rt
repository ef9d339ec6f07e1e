//! The kinds of statements outside the language that are taken by their names.

ghost use Rattle.std.specs.Prelude.{◌≡◌};
ghost use Rattle.cil_projection.specs.Forms.{forms, rows_of};

use crate::part::Part;
use crate::part::Part::{
    Address, Class, ClassPermissions, Classes, Constraint, Context, Declared, Expression,
    ExtendedPermission, Ignored, Level, Name, Names, PerhapsContext, Range, Target, Truth,
};
use crate::table::Table::{
    Addresses, Booleans, Categories, Contexts, ExtendedPermissions, Levels, Ranges, Roles,
    Sensitivities, Sids, Tunables, Types, Users,
};

/// A form of statements: their first word, and what their arguments are.
pub type Form = (&'static [u8], &'static [Part]);

/// The forms of the CIL Reference Guide outside the language whose names alone are needed, by its sections. What the converter of
/// packages writes is among them, `booleanif` apart.
pub const FORMS: [Form; 75] = [
    // "Role Statements"
    (b"role", &[Declared(Roles)]),
    (b"roletype", &[Name(Roles), Name(Types)]),
    (b"roleattribute", &[Declared(Roles)]),
    (b"roleattributeset", &[Name(Roles), Expression(Roles)]),
    (b"roleallow", &[Name(Roles), Name(Roles)]),
    (
        b"roletransition",
        &[Name(Roles), Name(Types), Class, Name(Roles)],
    ),
    (b"rolebounds", &[Name(Roles), Name(Roles)]),
    // "User Statements"
    (b"user", &[Declared(Users)]),
    (b"userattribute", &[Declared(Users)]),
    (b"userattributeset", &[Name(Users), Expression(Users)]),
    (b"userrole", &[Name(Users), Name(Roles)]),
    (b"userlevel", &[Name(Users), Level]),
    (b"userrange", &[Name(Users), Range]),
    (b"userbounds", &[Name(Users), Name(Users)]),
    (b"userprefix", &[Name(Users), Ignored]),
    (b"selinuxuser", &[Ignored, Name(Users), Range]),
    (b"selinuxuserdefault", &[Name(Users), Range]),
    // "Conditional Statements"
    (b"boolean", &[Declared(Booleans), Truth]),
    (b"tunable", &[Declared(Tunables), Truth]),
    // "Multi-Level Security Labeling Statements"
    (b"category", &[Declared(Categories)]),
    (b"categoryalias", &[Declared(Categories)]),
    (
        b"categoryaliasactual",
        &[Name(Categories), Name(Categories)],
    ),
    (b"categoryorder", &[Names(Categories)]),
    (
        b"categoryset",
        &[Declared(Categories), Expression(Categories)],
    ),
    (b"sensitivity", &[Declared(Sensitivities)]),
    (b"sensitivityalias", &[Declared(Sensitivities)]),
    (
        b"sensitivityaliasactual",
        &[Name(Sensitivities), Name(Sensitivities)],
    ),
    (b"sensitivityorder", &[Names(Sensitivities)]),
    (
        b"sensitivitycategory",
        &[Name(Sensitivities), Expression(Categories)],
    ),
    (b"level", &[Declared(Levels), Level]),
    (b"levelrange", &[Declared(Ranges), Range]),
    (
        b"rangetransition",
        &[Name(Types), Name(Types), Class, Range],
    ),
    // "Type Statements"
    (
        b"typetransition",
        &[Name(Types), Target, Class, Name(Types)],
    ),
    (
        b"typetransition",
        &[Name(Types), Target, Class, Ignored, Name(Types)],
    ),
    (b"typechange", &[Name(Types), Target, Class, Name(Types)]),
    (b"typemember", &[Name(Types), Target, Class, Name(Types)]),
    (b"typepermissive", &[Name(Types)]),
    (b"typebounds", &[Name(Types), Name(Types)]),
    (b"expandtypeattribute", &[Names(Types), Ignored]),
    // "Context Statement", "SID Statements"
    (b"context", &[Declared(Contexts), Context]),
    (b"sid", &[Declared(Sids)]),
    (b"sidorder", &[Names(Sids)]),
    (b"sidcontext", &[Name(Sids), Context]),
    // "File Labeling Statements", "Network Labeling Statements", "Infiniband Statements", "Xen Statements"
    (b"filecon", &[Ignored, Ignored, PerhapsContext]),
    (b"fsuse", &[Ignored, Ignored, Context]),
    (b"genfscon", &[Ignored, Ignored, Context]),
    (b"genfscon", &[Ignored, Ignored, Ignored, Context]),
    (b"ipaddr", &[Declared(Addresses), Ignored]),
    (b"netifcon", &[Ignored, Context, Context]),
    (b"nodecon", &[Address, Address, Context]),
    (b"portcon", &[Ignored, Ignored, Context]),
    (b"ibpkeycon", &[Ignored, Ignored, Context]),
    (b"ibendportcon", &[Ignored, Ignored, Context]),
    (b"iomemcon", &[Ignored, Context]),
    (b"ioportcon", &[Ignored, Context]),
    (b"pcidevicecon", &[Ignored, Context]),
    (b"pirqcon", &[Ignored, Context]),
    (b"devicetreecon", &[Ignored, Context]),
    // "Policy Configuration Statements"
    (b"mls", &[Ignored]),
    (b"handleunknown", &[Ignored]),
    (b"policycap", &[Ignored]),
    // "Constraint Statements"
    (b"constrain", &[ClassPermissions, Constraint]),
    (b"mlsconstrain", &[ClassPermissions, Constraint]),
    (b"validatetrans", &[Class, Constraint]),
    (b"mlsvalidatetrans", &[Class, Constraint]),
    // "Default Object Statements"
    (b"defaultuser", &[Classes, Ignored]),
    (b"defaultrole", &[Classes, Ignored]),
    (b"defaulttype", &[Classes, Ignored]),
    (b"defaultrange", &[Classes, Ignored]),
    (b"defaultrange", &[Classes, Ignored, Ignored]),
    // "Access Vector Rules" with extended permissions
    (b"allowx", &[Name(Types), Target, ExtendedPermission]),
    (b"auditallowx", &[Name(Types), Target, ExtendedPermission]),
    (b"dontauditx", &[Name(Types), Target, ExtendedPermission]),
    (b"neverallowx", &[Name(Types), Target, ExtendedPermission]),
    (
        b"permissionx",
        &[Declared(ExtendedPermissions), ExtendedPermission],
    ),
];

/// The forms, in their order.
pub fn forms() -> &'static [Form]
    ensures { rows_of result.now ≡ forms }
{
    &FORMS
}

/// A kind of statements: their first word, and in a few words what they do in a policy.
pub type Kind = (&'static [u8], &'static [u8]);

/// The kinds that are taken by their names, each once, in the order of their forms, and the conditional statements.
pub const KINDS: [Kind; 74] = [
    // "Role Statements"
    (b"role", b"declares a role"),
    (b"roletype", b"lets a role have a type"),
    (b"roleattribute", b"declares a role attribute"),
    (b"roleattributeset", b"puts roles into a role attribute"),
    (b"roleallow", b"lets a role change to another"),
    (b"roletransition", b"gives new objects and processes a role"),
    (b"rolebounds", b"keeps a role within what another may do"),
    // "User Statements"
    (b"user", b"declares a user"),
    (b"userattribute", b"declares a user attribute"),
    (b"userattributeset", b"puts users into a user attribute"),
    (b"userrole", b"lets a user have a role"),
    (b"userlevel", b"gives a user a default level"),
    (b"userrange", b"gives a user a range of levels"),
    (b"userbounds", b"keeps a user within what another may do"),
    (b"userprefix", b"gives a user a prefix for labels of files"),
    (b"selinuxuser", b"maps a login of the system to a user"),
    (
        b"selinuxuserdefault",
        b"maps all other logins of the system to a user",
    ),
    // "Conditional Statements"
    (b"boolean", b"declares a boolean and its value"),
    (b"tunable", b"declares a tunable and its value"),
    (b"booleanif", b"switches rules by the values of booleans"),
    (
        b"tunableif",
        b"keeps or drops statements by the values of tunables",
    ),
    // "Multi-Level Security Labeling Statements"
    (b"category", b"declares a category"),
    (b"categoryalias", b"declares an alias for a category"),
    (
        b"categoryaliasactual",
        b"says which category an alias stands for",
    ),
    (b"categoryorder", b"puts categories in order"),
    (b"categoryset", b"names a set of categories"),
    (b"sensitivity", b"declares a sensitivity"),
    (b"sensitivityalias", b"declares an alias for a sensitivity"),
    (
        b"sensitivityaliasactual",
        b"says which sensitivity an alias stands for",
    ),
    (b"sensitivityorder", b"puts sensitivities in order"),
    (
        b"sensitivitycategory",
        b"lets a sensitivity have categories",
    ),
    (b"level", b"names a level"),
    (b"levelrange", b"names a range of levels"),
    (
        b"rangetransition",
        b"gives new objects and processes a range of levels",
    ),
    // "Type Statements"
    (b"typetransition", b"gives new objects and processes a type"),
    (
        b"typechange",
        b"tells programs the type to relabel an object to",
    ),
    (
        b"typemember",
        b"tells programs the type of a polyinstantiated object",
    ),
    (b"typepermissive", b"only logs what a type may not do"),
    (b"typebounds", b"keeps a type within what another may do"),
    (
        b"expandtypeattribute",
        b"says if attributes are kept or replaced by their types",
    ),
    // "Context Statement", "SID Statements"
    (b"context", b"names a security context"),
    (b"sid", b"declares an initial security identifier"),
    (b"sidorder", b"puts initial security identifiers in order"),
    (
        b"sidcontext",
        b"gives an initial security identifier a context",
    ),
    // "File Labeling Statements", "Network Labeling Statements", "Infiniband Statements", "Xen Statements"
    (b"filecon", b"labels files by their path"),
    (b"fsuse", b"says how a file system labels its files"),
    (
        b"genfscon",
        b"labels files of a file system that keeps no labels",
    ),
    (b"ipaddr", b"names a network address"),
    (b"netifcon", b"labels network interfaces and their packets"),
    (b"nodecon", b"labels network addresses"),
    (b"portcon", b"labels network ports"),
    (b"ibpkeycon", b"labels Infiniband partition keys"),
    (b"ibendportcon", b"labels Infiniband end ports"),
    (b"iomemcon", b"labels I/O memory for Xen"),
    (b"ioportcon", b"labels I/O ports for Xen"),
    (b"pcidevicecon", b"labels PCI devices for Xen"),
    (b"pirqcon", b"labels physical interrupts for Xen"),
    (b"devicetreecon", b"labels device tree nodes for Xen"),
    // "Policy Configuration Statements"
    (b"mls", b"turns multi-level security on or off"),
    (
        b"handleunknown",
        b"says what becomes of unknown classes and permissions",
    ),
    (b"policycap", b"turns on a policy capability"),
    // "Constraint Statements"
    (
        b"constrain",
        b"limits permissions by users, roles and types",
    ),
    (
        b"mlsconstrain",
        b"limits permissions by users, roles, types and levels",
    ),
    (
        b"validatetrans",
        b"limits relabeling by users, roles and types",
    ),
    (
        b"mlsvalidatetrans",
        b"limits relabeling by users, roles, types and levels",
    ),
    // "Default Object Statements"
    (
        b"defaultuser",
        b"says where new objects get their user from",
    ),
    (
        b"defaultrole",
        b"says where new objects get their role from",
    ),
    (
        b"defaulttype",
        b"says where new objects get their type from",
    ),
    (
        b"defaultrange",
        b"says where new objects get their range of levels from",
    ),
    // "Access Vector Rules" with extended permissions
    (b"allowx", b"allows ioctl commands by their numbers"),
    (
        b"auditallowx",
        b"logs allowed ioctl commands by their numbers",
    ),
    (
        b"dontauditx",
        b"doesn't log denied ioctl commands by their numbers",
    ),
    (
        b"neverallowx",
        b"forbids rules for ioctl commands by their numbers",
    ),
    (b"permissionx", b"names ioctl commands by their numbers"),
];
