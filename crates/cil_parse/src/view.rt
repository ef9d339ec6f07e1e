//! Statements of parsed modules as they are seen.

ghost use Rattle.std.specs.Prelude.{◌≡◌, ℕ, List, map, slice_get, Some, None, Option, IfSome, IfNone};
ghost use Rattle.cil_parse.specs.Common.{declared_in, references, read, FlatStatement, permissions_in};
ghost use Rattle.cil_specs.specs.Names.{Word};
ghost use Rattle.cil_specs.specs.Lookup as lookup;
ghost use Rattle.cil_parse.specs.Kinds.{table_of, declaring, reference_table};
ghost use Rattle.cil_parse.specs.View.{IsShown};

use crate::permission_lists::permission_words;
use crate::row::{NumberedWord, SetNode, StatementKind};
use crate::table::Table;
use cil_text::Place;

/// A statement of a parsed module: its place, its kind, the numbers of the innermost block and of the innermost optional around it, its
/// words, and the nodes of its expression. The number of a statement is its index and 1 more; 0 stands for none.
#[derive(Clone, Copy)]
pub struct StatementView<'p> {
    pub at: Place,
    pub kind: StatementKind,
    pub block: u32,
    pub optional: u32,
    pub words: &'p [NumberedWord],
    pub nodes: &'p [SetNode],
}

impl StatementKind {
    /// The table in which a statement of the kind declares its first word.
    fn declaring(self) -> Option<Table>
        ensures { result ≡ declaring self }
    {
        match self {
            StatementKind::Block | StatementKind::Optional => Some(Table::Scopes),
            StatementKind::TypeName | StatementKind::TypeAlias | StatementKind::TypeAttribute => {
                Some(Table::Types)
            }
            StatementKind::Common => Some(Table::Commons),
            StatementKind::Class => Some(Table::Classes),
            StatementKind::ClassPermission => Some(Table::PermissionSets),
            _ => None,
        }
    }

    /// The table in which a statement of the kind looks up the word of an index.
    pub(crate) fn referring(self, k: usize) -> Option<Table>
        ensures { result ≡ reference_table self k }
    {
        match (self, k) {
            (StatementKind::TypeAliasActual, 0 | 1) => Some(Table::Types),
            (StatementKind::TypeAttributeSet, _) => Some(Table::Types),
            (StatementKind::ClassCommon, 0) => Some(Table::Classes),
            (StatementKind::ClassCommon, 1) => Some(Table::Commons),
            (StatementKind::ClassOrder, _) => Some(Table::Classes),
            (StatementKind::ClassPermissionSet, 0) => Some(Table::PermissionSets),
            (StatementKind::ClassPermissionSet, 1) => Some(Table::Classes),
            (StatementKind::Rule(_), 0 | 1) => Some(Table::Types),
            (StatementKind::Rule(_), 2) => Some(Table::Classes),
            (StatementKind::RuleToSelf(_), 0) => Some(Table::Types),
            (StatementKind::RuleToSelf(_), 1) => Some(Table::Classes),
            (StatementKind::RuleOfSet(_), 0 | 1) => Some(Table::Types),
            (StatementKind::RuleOfSet(_), 2) => Some(Table::PermissionSets),
            (StatementKind::RuleToSelfOfSet(_), 0) => Some(Table::Types),
            (StatementKind::RuleToSelfOfSet(_), 1) => Some(Table::PermissionSets),
            _ => None,
        }
    }
}

impl<'p> StatementView<'p> {
    /// The name that the statement declares, and its table.
    pub fn declared(&self) -> Option<(Table, NumberedWord)>
        ensures some { IfSome result (λ found. (texts : List (List ℕ)) (f : FlatStatement) → IsShown texts self.now f → (word : Word) × (declared_in (table_of found.0) f.form ≡ Some word) × (read texts found.1 ≡ Some word)) }
        ensures none { IfNone result ((texts : List (List ℕ)) (f : FlatStatement) → IsShown texts self.now f → (table : lookup.Table) → declared_in table f.form ≡ None) }
    {
        let table = self.kind.declaring()?;
        let word = self.words.first()?;
        Some((table, *word))
    }

    /// The reference of an index and its table. They stand in the order of the text.
    pub fn reference(&self, k: usize) -> Option<(Table, &'p NumberedWord)>
        ensures some { IfSome result (λ found. (texts : List (List ℕ)) (f : FlatStatement) → IsShown texts self.now f → (word : Word) × (slice_get (references f.form) k ≡ Some (table_of found.0, word)) × (read texts found.1.now ≡ Some word)) }
        ensures none { IfNone result ((texts : List (List ℕ)) (f : FlatStatement) → IsShown texts self.now f → slice_get (references f.form) k ≡ None) }
    {
        let table = self.kind.referring(k)?;
        let word = self.words.get(k)?;
        Some((table, word))
    }

    /// The permissions that the statement names, in the order of the text.
    pub fn permissions(&self) -> &'p [NumberedWord]
        ensures { (texts : List (List ℕ)) (f : FlatStatement) → IsShown texts self.now f → map (read texts) result.now ≡ map Some (permissions_in f.form) }
    {
        permission_words(self.kind, self.words)
    }
}
