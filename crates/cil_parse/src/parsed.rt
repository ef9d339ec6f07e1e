//! Modules that borrow nothing.

ghost use Rattle.std.specs.Prelude.{◌≡◌, ◌<◌, [], List, length, map, slice_get, slice_index_or, Some, IfOk, IfErr};
ghost use Rattle.cil_specs.specs.Lookup.{references, texts};
ghost use Rattle.cil_specs.specs.Names.{components as components_of};
ghost use Rattle.cil_specs.specs.Shape.{IsFirstShapeFault};
ghost use Rattle.cil_specs.specs.Statements.{Statements};
ghost use Rattle.cil_text.specs.Image.{FaultIs};
ghost use Rattle.cil_reader.specs.Forest.{forest_of};
ghost use Rattle.cil_parse.specs.Citations.{AreCited, AreCitedBy};
ghost use Rattle.cil_parse.specs.Lexicon.{texts_in, names_in, AreNumbersOf, AreSplit};
ghost use Rattle.cil_parse.specs.Flat.{FlatStatement, flat, count};
ghost use Rattle.cil_parse.specs.Forms.{kind_of, permissions_in};
ghost use Rattle.cil_parse.specs.PermissionLists.{AreListed};

use crate::builder::Builder;
use crate::citations::{Citation, Citations};
use crate::copied::copied_names;
use crate::lists::Lists;
use crate::permission_lists::PermissionLists;
use crate::row::{NumberedWord, Row, SetNode, StatementKind};
use crate::view::StatementView;
use cil_names::Seed;
use cil_text::{Forest, TextFault};
use std::alloc::{AllocError, Allocator, Global};

/// The statements of a module, one behind the other. It is a function of the module alone, borrows nothing and knows no other module, whatever seed its tables were hashed by.
/// Each distinct text of a word has a number, and each distinct name between the dots of these texts, in the order of their first
/// use. Each distinct list of permissions has a number too. Numbers have 32 bits; a module that needs a greater one is answered as out
/// of memory.
#[derive(Drop)]
pub struct ParsedModule<A: Allocator = Global> {
    texts: Lists<u8, A>,
    names: Lists<u8, A>,
    components: Lists<u32, A>,
    words: Lists<NumberedWord, A>,
    nodes: Lists<SetNode, A>,
    rows: Vec<Row, A>,
    permission_lists: PermissionLists<A>,
    citations: Citations<A>,
    ghost split: { AreSplit names.0 components.0 texts.0 },
    ghost each_words: { length words.0 ≡ length rows.items },
    ghost each_nodes: { length nodes.0 ≡ length rows.items },
    ghost listed: { AreListed permission_lists rows.items words.0 },
    ghost cited: { AreCitedBy citations rows.items words.0 },
}

impl<A: Allocator + Copy> ParsedModule<A> {
    ghost use Rattle.cil_parse.specs.FromTrees.{SpellsTrees};
    ghost use Rattle.cil_parse.specs.Parsed.{IsWhole, IsOwned};

    /// The parsed form of the statements that the trees of a text spell, or the first fault of their shape.
    pub fn of<'a>(alloc: A, seed: Seed, forest: Forest<'a, A>) -> Result<Self, TextFault<'a>>
        ensures ok { IfOk result (SpellsTrees (forest_of forest.entry)) }
        ensures err { IfErr result (λ fault. FaultIs fault (IsFirstShapeFault (forest_of forest.entry))) }
    {
        let mut builder = Builder::new(alloc, seed);
        builder.go_over(alloc, forest)?;
        let parsed = ParsedModule::owned(alloc, seed, builder)?;
        Ok(parsed)
    }

    /// What a builder went over, with words of its own.
    fn owned(alloc: A, seed: Seed, builder: Builder<'_, A>) -> Result<Self, AllocError>
        requires { IsWhole builder }
        ensures { IfOk result (IsOwned builder.entry) }
    {
        let copies = Copies::of(alloc, seed, &builder)?;
        Ok(ParsedModule::with_copies(builder, copies))
    }

    /// What a builder went over, with the words that are copied of it.
    fn with_copies(builder: Builder<'_, A>, copies: Copies<A>) -> Self
        requires whole { IsWhole builder }
        requires texts { copies.texts.0 ≡ texts_in builder.lexicon }
        requires names { copies.names.0 ≡ names_in builder.lexicon }
        requires listed { AreListed copies.permission_lists builder.rows.items builder.words.0 }
        requires cited { AreCitedBy copies.citations builder.rows.items builder.words.0 }
        ensures { IsOwned builder.entry result }
    {
        let Builder {
            lexicon,
            mut words,
            mut nodes,
            mut rows,
        } = builder;
        let mut components = lexicon.components;
        components.shrink_to_fit();
        words.shrink_to_fit();
        nodes.shrink_to_fit();
        rows.shrink_to_fit();
        ParsedModule {
            texts: copies.texts,
            names: copies.names,
            components,
            words,
            nodes,
            rows,
            permission_lists: copies.permission_lists,
            citations: copies.citations,
        }
    }
}

/// The texts and the names of a builder, which it borrows from the text, copied; the distinct lists of permissions that its statements
/// name; and what their references look up.
#[derive(Drop)]
struct Copies<A: Allocator = Global> {
    texts: Lists<u8, A>,
    names: Lists<u8, A>,
    permission_lists: PermissionLists<A>,
    citations: Citations<A>,
}

impl<A: Allocator + Copy> Copies<A> {
    /// Those of a builder.
    fn of(alloc: A, seed: Seed, builder: &Builder<'_, A>) -> Result<Self, AllocError>
        requires { length builder.now.words.0 ≡ length builder.now.rows.items }
        ensures texts { IfOk result (λ copies. copies.texts.0 ≡ texts_in builder.now.lexicon) }
        ensures names { IfOk result (λ copies. copies.names.0 ≡ names_in builder.now.lexicon) }
        ensures listed { IfOk result (λ copies. AreListed copies.permission_lists builder.now.rows.items builder.now.words.0) }
        ensures cited { IfOk result (λ copies. AreCitedBy copies.citations builder.now.rows.items builder.now.words.0) }
    {
        Ok(Copies {
            texts: copied_names(alloc, builder.lexicon.texts.as_slice())?,
            names: copied_names(alloc, builder.lexicon.names.as_slice())?,
            permission_lists: PermissionLists::of(alloc, seed, &builder.rows, &builder.words)?,
            citations: Citations::of(alloc, seed, &builder.rows, &builder.words)?,
        })
    }
}

impl<A: Allocator> ParsedModule<A> {
    ghost use Rattle.cil_parse.specs.Parsed.{texts_of, names_of, permission_lists_of, citations_of, cited_by, statement_count, Spells};
    ghost use Rattle.cil_parse.specs.View.{IsShown};

    /// How many statements there are, those inside others too.
    pub fn len(&self) -> usize
        ensures count { result ≡ statement_count self.now }
        ensures spelt { (statements : Statements) → Spells self.now statements → result ≡ count statements }
    {
        self.rows.len()
    }

    /// The statement of an index, in the order of the text.
    pub fn statement(&self, i: usize) -> StatementView<'_>
        requires { i < statement_count self.now }
        ensures { (statements : Statements) (f : FlatStatement) → Spells self.now statements → slice_get (flat 0 0 0 statements) i ≡ Some f → IsShown (texts_of self.now) result f }
    {
        let row = self.rows[i];
        StatementView {
            at: row.at,
            kind: row.kind,
            block: row.around.block,
            optional: row.around.optional,
            words: self.words.get(i),
            nodes: self.nodes.get(i),
        }
    }

    /// The kind of the statement of an index, without its words.
    pub fn kind(&self, i: usize) -> StatementKind
        requires { i < statement_count self.now }
        ensures { (statements : Statements) (f : FlatStatement) → Spells self.now statements → slice_get (flat 0 0 0 statements) i ≡ Some f → result ≡ kind_of f.form }
    {
        self.rows[i].kind
    }

    /// What the references of its statements look up, each once, by their numbers.
    pub fn citations(&self) -> &[Citation]
        ensures { result.now ≡ citations_of self.now }
    {
        &self.citations.distinct
    }

    /// The numbers of what the references of the statement of an index look up, in the order of the text.
    pub fn cited(&self, i: usize) -> &[u32]
        requires { i < statement_count self.now }
        ensures numbers { result.now ≡ cited_by self.now i }
        ensures are { (statements : Statements) (f : FlatStatement) → Spells self.now statements → slice_get (flat 0 0 0 statements) i ≡ Some f
            → AreCited (texts_of self.now) (citations_of self.now) f.block (references f.form) result.now }
    {
        self.citations.numbers.get(i)
    }

    /// The number of the permissions that the statement of an index names. Those of another statement have the same number only if they
    /// are the same texts in the same order, whatever expressions they stand in.
    pub fn permission_list(&self, i: usize) -> usize
        requires { i < statement_count self.now }
        ensures within { result < length (permission_lists_of self.now) }
        ensures list { (statements : Statements) (f : FlatStatement) → Spells self.now statements → slice_get (flat 0 0 0 statements) i ≡ Some f → slice_index_or (permission_lists_of self.now) result [] ≡ texts (permissions_in f.form) }
    {
        self.permission_lists.numbers[i] as usize
    }

    /// The numbers of the texts of the list of permissions of a number, in the order of the text.
    pub fn permission_texts(&self, n: usize) -> &[u32]
        requires { n < length (permission_lists_of self.now) }
        ensures { map (λ t. slice_index_or (texts_of self.now) t []) result.now
            ≡ slice_index_or (permission_lists_of self.now) n [] }
    {
        self.permission_lists.lists.get(n)
    }

    /// How many distinct lists of permissions its statements name.
    pub fn permission_list_count(&self) -> usize
        ensures { result ≡ length (permission_lists_of self.now) }
    {
        self.permission_lists.lists.len()
    }

    /// How many distinct texts its words have.
    pub fn text_count(&self) -> usize
        ensures { result ≡ length (texts_of self.now) }
    {
        self.texts.len()
    }

    /// The text of a number, as the words have it.
    pub fn text(&self, n: usize) -> &[u8]
        requires { n < length (texts_of self.now) }
        ensures { result.now ≡ slice_index_or (texts_of self.now) n [] }
    {
        self.texts.get(n)
    }

    /// The numbers of the names between the dots of a text.
    pub fn components(&self, n: usize) -> &[u32]
        requires { n < length (texts_of self.now) }
        ensures { AreNumbersOf (names_of self.now) result.now (components_of (slice_index_or (texts_of self.now) n [])) }
    {
        self.components.get(n)
    }

    /// How many distinct names there are between the dots of texts.
    pub fn name_count(&self) -> usize
        ensures { result ≡ length (names_of self.now) }
    {
        self.names.len()
    }

    /// The name of a number.
    pub fn name(&self, n: usize) -> &[u8]
        requires { n < length (names_of self.now) }
        ensures { result.now ≡ slice_index_or (names_of self.now) n [] }
    {
        self.names.get(n)
    }
}
