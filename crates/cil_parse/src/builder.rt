//! Going over the statements of a module.

ghost use Rattle.std.specs.Prelude.{◌≡◌, ◌<◌, ◌≤◌, ◌∷◌, ◌++◌, [], length, map, false, IsTrue, IfOk, IfErr, OnOk};
ghost use Rattle.cil_parse.specs.Common.{target_words, rule, IsFirstShapeFault, place_of, word_of, target_of, rule_kind_of, expr_of, permissions_of, statements_of, trees_of, FaultIs, forest_of, expr_nodes, kind_of, IsAt, Adds, AddsExpr, AddsNamesInFront, AddsPermissions, AddsForm, Closes, Puts, Places, top, is_plain, name_nodes, permission_nodes, words_with, nodes_with};
ghost use Rattle.cil_specs.specs.Expr.{leaves};
ghost use Rattle.cil_specs.specs.Names.{Word as SpecWord};
ghost use Rattle.cil_specs.specs.Trees.{are_lists};
ghost use Rattle.cil_text.specs.Form.{form_of, at_of};
ghost use Rattle.cil_text.specs.Expr.{exprs_of};
ghost use Rattle.cil_text.specs.Walk.{IsFirstAmong};
ghost use Rattle.cil_parse.specs.FromTrees.{PlacesTrees, IsAtTrees};

use crate::lexicon::Lexicon;
use crate::lists::Lists;
use crate::row::{Around, NumberedWord, Row, SetNode, StatementKind};
use cil_names::{Seed, in_32_bits};
use cil_text::{
    ClassPermissions, Expr, Forest, Place, RuleKind, Statement, Target, TextFault, TreeSlice, Word,
    next_statement,
};
use std::alloc::{AllocError, Allocator, Global};

/// What was gone over so far: the words, for each statement its words and the nodes of its expression, and the statements.
#[derive(Drop)]
pub struct Builder<'a, A: Allocator = Global> {
    pub lexicon: Lexicon<'a, A>,
    pub words: Lists<NumberedWord, A>,
    pub nodes: Lists<SetNode, A>,
    pub rows: Vec<Row, A>,
}

impl<'a, A: Allocator + Copy> Builder<'a, A> {
    /// Nothing was gone over. It takes no memory.
    pub fn new(alloc: A, seed: Seed) -> Self
        ensures { IsAt result [] [] [] }
    {
        Builder {
            lexicon: Lexicon::new(alloc, seed),
            words: Lists::new(alloc),
            nodes: Lists::new(alloc),
            rows: Vec::new(alloc),
        }
    }

    /// A word of the statement that comes.
    #[inline(always)]
    fn word(&mut self, word: Word<'a>) -> Result<(), AllocError>
        ensures { OnOk result (Adds self.old self.new (word_of word.entry ∷ []) []) }
    {
        let text = self.lexicon.text(word.text)?;
        self.words.push(NumberedWord { at: word.at, text })?;
        Ok(())
    }

    /// A node of its expression.
    fn node(&mut self, node: SetNode) -> Result<(), AllocError>
        ensures { OnOk result (Adds self.old self.new [] (node ∷ [])) }
    {
        self.nodes.push(node)?;
        Ok(())
    }

    fn pair(&mut self, first: Word<'a>, second: Word<'a>) -> Result<(), AllocError>
        ensures { OnOk result (Adds self.old self.new (word_of first.entry ∷ word_of second.entry ∷ []) []) }
    {
        self.word(first)?;
        self.word(second)?;
        Ok(())
    }

    fn words(&mut self, words: &[Word<'a>]) -> Result<(), AllocError>
        ensures { OnOk result (Adds self.old self.new (map word_of words.now) []) }
    {
        for word in words {
            self.word(*word)?;
        }
        Ok(())
    }

    /// The words and the nodes of an expression.
    #[cycle(set)]
    fn expr(&mut self, expr: &Expr<'a, A>) -> Result<(), AllocError>
        ensures { OnOk result (AddsExpr self.old self.new (expr_of expr.now)) }
    {
        match expr {
            Expr::All => self.node(SetNode::All),
            Expr::Name(word) => self.name(*word),
            Expr::Not(x) => self.opposite(x),
            Expr::And(x, y) => self.operation(SetNode::And, x, y),
            Expr::Or(x, y) => self.operation(SetNode::Or, x, y),
            Expr::Xor(x, y) => self.operation(SetNode::Xor, x, y),
            Expr::Union(elements) => self.elements(elements),
        }
    }

    fn name(&mut self, word: Word<'a>) -> Result<(), AllocError>
        ensures { OnOk result (Adds self.old self.new (word_of word.entry ∷ []) (SetNode.Name ∷ [])) }
    {
        self.node(SetNode::Name)?;
        self.word(word)?;
        Ok(())
    }

    #[cycle(set)]
    fn opposite(&mut self, x: &Expr<'a, A>) -> Result<(), AllocError>
        ensures { OnOk result (Adds self.old self.new (leaves (expr_of x.now)) (SetNode.Not ∷ expr_nodes (expr_of x.now))) }
    {
        self.node(SetNode::Not)?;
        self.expr(x)?;
        Ok(())
    }

    #[cycle(set)]
    fn operation(
        &mut self,
        node: SetNode,
        x: &Expr<'a, A>,
        y: &Expr<'a, A>,
    ) -> Result<(), AllocError>
        ensures { OnOk result (Adds self.old self.new (leaves (expr_of x.now) ++ leaves (expr_of y.now))
            (node ∷ (expr_nodes (expr_of x.now) ++ expr_nodes (expr_of y.now)))) }
    {
        self.node(node)?;
        self.expr(x)?;
        self.expr(y)?;
        Ok(())
    }

    #[cycle(set)]
    fn elements(&mut self, elements: &[Expr<'a, A>]) -> Result<(), AllocError>
        ensures { OnOk result (AddsExpr self.old self.new (exprs_of elements.now)) }
    {
        for element in elements {
            self.node(SetNode::Element)?;
            self.expr(element)?;
        }
        self.node(SetNode::Nothing)?;
        Ok(())
    }

    /// The word of a target, if it has one.
    fn target(&mut self, target: Target<'a>) -> Result<(), AllocError>
        ensures { OnOk result (Adds self.old self.new (target_words (target_of target.entry)) []) }
    {
        match target {
            Target::Itself => Ok(()),
            Target::Named(word) => self.word(word),
        }
    }

    /// The words of the names in front of the first element that is none, and how many they are.
    fn names_in_front(&mut self, elements: &[Expr<'a, A>]) -> Result<usize, AllocError>
        ensures names { IfOk result (AddsNamesInFront self.old self.new elements.now) }
        ensures within { IfOk result (λ count. count ≤ length elements.now) }
        ensures stops { IfOk result (λ count. count < length elements.now → is_plain (exprs_of elements.now) ≡ false) }
    {
        for (i, element) in elements.iter().enumerate() {
            match element {
                Expr::Name(word) => self.word(*word)?,
                _ => return Ok(i),
            }
        }
        Ok(elements.len())
    }

    /// The nodes of so many elements that are names.
    fn nodes_of_names(&mut self, count: usize) -> Result<(), AllocError>
        ensures { OnOk result (Adds self.old self.new [] (name_nodes count)) }
    {
        for _i in 0..count {
            self.node(SetNode::Element)?;
            self.node(SetNode::Name)?;
        }
        Ok(())
    }

    /// The words of a list of permissions, in one pass, and its nodes too where not each element is a name.
    fn permission_list(&mut self, elements: &[Expr<'a, A>]) -> Result<(), AllocError>
        ensures { OnOk result (AddsPermissions self.old self.new (exprs_of elements.now)) }
    {
        let names = self.names_in_front(elements)?;
        if names < elements.len() {
            self.nodes_of_names(names)?;
            self.elements(&elements[names..])?;
        }
        Ok(())
    }

    /// The words of an expression of permissions, and its nodes where it is no plain list of names.
    fn permissions(&mut self, expr: &Expr<'a, A>) -> Result<(), AllocError>
        ensures { OnOk result (AddsPermissions self.old self.new (expr_of expr.now)) }
    {
        match expr {
            Expr::Union(elements) => self.permission_list(elements),
            _ => self.expr(expr),
        }
    }

    /// A word and those of a list.
    fn listed(&mut self, id: Word<'a>, words: &[Word<'a>]) -> Result<(), AllocError>
        ensures { OnOk result (Adds self.old self.new (word_of id.entry ∷ map word_of words.now) []) }
    {
        self.word(id)?;
        self.words(words)?;
        Ok(())
    }

    /// A class and an expression of permissions of it.
    fn of_class(&mut self, class: Word<'a>, permissions: &Expr<'a, A>) -> Result<(), AllocError>
        ensures { OnOk result (Adds self.old self.new
            (word_of class.entry ∷ leaves (expr_of permissions.now))
            (permission_nodes (expr_of permissions.now))) }
    {
        self.word(class)?;
        self.permissions(permissions)?;
        Ok(())
    }

    fn permission_set(
        &mut self,
        set: Word<'a>,
        class: Word<'a>,
        permissions: &Expr<'a, A>,
    ) -> Result<(), AllocError>
        ensures { OnOk result (Adds self.old self.new
            (word_of set.entry ∷ word_of class.entry ∷ leaves (expr_of permissions.now))
            (permission_nodes (expr_of permissions.now))) }
    {
        self.word(set)?;
        self.of_class(class, permissions)?;
        Ok(())
    }

    /// A class and permissions of it, or the name of a permission set.
    fn rule_permissions(&mut self, permissions: &ClassPermissions<'a, A>) -> Result<(), AllocError>
        ensures { OnOk result (Adds self.old self.new
            (words_with (permissions_of permissions.now))
            (nodes_with (permissions_of permissions.now))) }
    {
        match permissions {
            ClassPermissions::Anonymous { class, permissions } => {
                self.of_class(*class, permissions)
            }
            ClassPermissions::Named(set) => self.word(*set),
        }
    }

    fn rule(
        &mut self,
        source: Word<'a>,
        target: Target<'a>,
        permissions: &ClassPermissions<'a, A>,
    ) -> Result<(), AllocError>
        ensures { OnOk result (Adds self.old self.new
            (word_of source.entry
            ∷ (target_words (target_of target.entry) ++ words_with (permissions_of permissions.now)))
            (nodes_with (permissions_of permissions.now))) }
    {
        self.word(source)?;
        self.target(target)?;
        self.rule_permissions(permissions)?;
        Ok(())
    }

    fn set(&mut self, attribute: Word<'a>, expr: &Expr<'a, A>) -> Result<(), AllocError>
        ensures { OnOk result (Adds self.old self.new (word_of attribute.entry ∷ leaves (expr_of expr.now)) (expr_nodes (expr_of expr.now))) }
    {
        self.word(attribute)?;
        self.expr(expr)?;
        Ok(())
    }

    /// The words and the nodes of a statement.
    fn content(&mut self, statement: &Statement<'a, A>) -> Result<(), AllocError>
        ensures { OnOk result (AddsForm self.old self.new (form_of statement.now)) }
    {
        match statement {
            Statement::Block { id, .. } => self.word(*id),
            Statement::Optional { id, .. } => self.word(*id),
            Statement::TypeName { id, .. } => self.word(*id),
            Statement::TypeAlias { id, .. } => self.word(*id),
            Statement::TypeAttribute { id, .. } => self.word(*id),
            Statement::TypeAliasActual { alias, actual, .. } => self.pair(*alias, *actual),
            Statement::TypeAttributeSet {
                attribute,
                expr,
                ..
            } => self.set(*attribute, expr),
            Statement::Common {
                id,
                permissions,
                ..
            } => self.listed(*id, permissions),
            Statement::Class {
                id,
                permissions,
                ..
            } => self.listed(*id, permissions),
            Statement::ClassCommon { class, common, .. } => self.pair(*class, *common),
            Statement::ClassOrder { classes, .. } => self.words(classes),
            Statement::ClassPermission { id, .. } => self.word(*id),
            Statement::ClassPermissionSet {
                set,
                class,
                permissions,
                ..
            } => self.permission_set(*set, *class, permissions),
            Statement::Rule {
                source,
                target,
                permissions,
                ..
            } => self.rule(*source, *target, permissions),
        }
    }

    /// Ends a statement whose words and nodes came.
    fn close(&mut self, row: Row) -> Result<(), AllocError>
        ensures { OnOk result (Closes self.old self.new row) }
    {
        self.words.close()?;
        self.nodes.close()?;
        self.rows.push(row)?;
        Ok(())
    }

    /// A statement but for those inside it.
    fn head(&mut self, around: Around, statement: &Statement<'a, A>) -> Result<(), AllocError>
        ensures { OnOk result (Puts self.old self.new (top around statement.now)) }
    {
        self.content(statement)?;
        self.close(Row {
            at: at(statement),
            kind: kind(statement),
            around,
        })?;
        Ok(())
    }

    /// Statements, and those inside blocks and optionals.
    #[cycle(place)]
    fn place(&mut self, around: Around, statements: &[Statement<'a, A>]) -> Result<(), AllocError>
        ensures { OnOk result (Places self.old self.new around (statements_of statements.now)) }
    {
        for statement in statements {
            self.place_one(around, statement)?;
        }
        Ok(())
    }

    /// A statement, and those inside it.
    #[cycle(place)]
    fn place_one(&mut self, around: Around, statement: &Statement<'a, A>) -> Result<(), AllocError>
        ensures { OnOk result (Places self.old self.new around (statements_of (statement.now ∷ []))) }
    {
        self.head(around, statement)?;
        match statement {
            Statement::Block { body, .. } => {
                let block = in_32_bits(self.rows.len())?;
                self.place(Around { block, ..around }, body)
            }
            Statement::Optional { body, .. } => {
                let optional = in_32_bits(self.rows.len())?;
                self.place(Around { optional, ..around }, body)
            }
            _ => Ok(()),
        }
    }

    /// A statement, and those inside it. It is let go then.
    fn take_one(&mut self, around: Around, statement: Statement<'a, A>) -> Result<(), AllocError>
        ensures { OnOk result (Places self.old self.new around (statements_of (statement.entry ∷ []))) }
    {
        let placed = self.place_one(around, &statement);
        drop(statement);
        placed
    }

    /// The statements that lists spell, or the first fault of their shape. Each statement is let go once its words are kept.
    fn take(
        &mut self,
        alloc: A,
        around: Around,
        trees: TreeSlice<'_, 'a>,
    ) -> Result<(), TextFault<'a>>
        requires { IsTrue (are_lists (trees_of trees)) }
        ensures ok { OnOk result (PlacesTrees self.old self.new around (trees_of trees.entry)) }
        ensures err { IfErr result (λ fault. FaultIs fault (IsFirstAmong false (trees_of trees.entry))) }
    {
        let mut rest = trees;
        while let Some((statement, behind)) = next_statement(alloc, rest)? {
            self.take_one(around, statement)?;
            rest = behind;
        }
        Ok(())
    }

    /// Goes over the statements that the trees of a text spell. The trees are let go then.
    pub fn go_over(&mut self, alloc: A, forest: Forest<'a, A>) -> Result<(), TextFault<'a>>
        ensures ok { OnOk result (IsAt self.old [] [] [] → IsAtTrees (forest_of forest.entry) self.new) }
        ensures err { IfErr result (λ fault. FaultIs fault (IsFirstShapeFault (forest_of forest.entry))) }
    {
        let around = Around {
            block: 0,
            optional: 0,
        };
        self.take(alloc, around, forest.trees())
    }
}

/// The place of a statement's `(`.
fn at<A: Allocator>(statement: &Statement<A>) -> Place
    ensures { place_of result ≡ at_of statement.now }
{
    match statement {
        Statement::Block { at, .. }
        | Statement::Optional { at, .. }
        | Statement::TypeName { at, .. }
        | Statement::TypeAlias { at, .. }
        | Statement::TypeAliasActual { at, .. }
        | Statement::TypeAttribute { at, .. }
        | Statement::TypeAttributeSet { at, .. }
        | Statement::Common { at, .. }
        | Statement::Class { at, .. }
        | Statement::ClassCommon { at, .. }
        | Statement::ClassOrder { at, .. }
        | Statement::ClassPermission { at, .. }
        | Statement::ClassPermissionSet { at, .. }
        | Statement::Rule { at, .. } => *at,
    }
}

/// The kind of a rule with this target and these permissions.
fn rule_kind<A: Allocator>(
    kind: RuleKind,
    target: &Target,
    permissions: &ClassPermissions<'_, A>,
) -> StatementKind
    ensures { (source : SpecWord) → result ≡ kind_of (rule (rule_kind_of kind) source
        (target_of target.now) (permissions_of permissions.now)) }
{
    match (target, permissions) {
        (Target::Named(_), ClassPermissions::Anonymous { .. }) => StatementKind::Rule(kind),
        (Target::Itself, ClassPermissions::Anonymous { .. }) => StatementKind::RuleToSelf(kind),
        (Target::Named(_), ClassPermissions::Named(_)) => StatementKind::RuleOfSet(kind),
        (Target::Itself, ClassPermissions::Named(_)) => StatementKind::RuleToSelfOfSet(kind),
    }
}

fn kind<A: Allocator>(statement: &Statement<A>) -> StatementKind
    ensures { result ≡ kind_of (form_of statement.now) }
{
    match statement {
        Statement::Block { .. } => StatementKind::Block,
        Statement::Optional { .. } => StatementKind::Optional,
        Statement::TypeName { .. } => StatementKind::TypeName,
        Statement::TypeAlias { .. } => StatementKind::TypeAlias,
        Statement::TypeAliasActual { .. } => StatementKind::TypeAliasActual,
        Statement::TypeAttribute { .. } => StatementKind::TypeAttribute,
        Statement::TypeAttributeSet { .. } => StatementKind::TypeAttributeSet,
        Statement::Common { .. } => StatementKind::Common,
        Statement::Class { .. } => StatementKind::Class,
        Statement::ClassCommon { .. } => StatementKind::ClassCommon,
        Statement::ClassOrder { .. } => StatementKind::ClassOrder,
        Statement::ClassPermission { .. } => StatementKind::ClassPermission,
        Statement::ClassPermissionSet { .. } => StatementKind::ClassPermissionSet,
        Statement::Rule {
            kind,
            target,
            permissions,
            ..
        } => rule_kind(*kind, target, permissions),
    }
}
