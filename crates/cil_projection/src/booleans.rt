//! Booleans, tunables and their values.

ghost use Rattle.std.specs.Prelude.{◌≡◌, false, []};

use crate::component::last_component;
use crate::names::OPERATORS;
use crate::words::is_among;
use cil_names::{Names, Seed};
use std::alloc::{AllocError, Allocator, Global};
use std::marker::Model;

/// The value of a boolean or a tunable.
#[derive(Clone, Copy, Debug, PartialEq, Eq)]
pub enum Value {
    /// It was set, whatever declarations say.
    Set(bool),
    /// The one that it is declared with.
    Own(bool),
    /// It is declared with both.
    Both,
}

impl Value {
    ghost use Rattle.std.specs.Prelude.{◌≡◌};
    ghost use Rattle.cil_projection.specs.Conditions.{again, truth};

    /// The value after another declaration.
    fn again(self, value: bool) -> Value
        ensures { result ≡ again self value }
    {
        let Value::Own(own) = self else {
            return self;
        };
        if own == value { self } else { Value::Both }
    }

    /// Which of the two it is, if it is one.
    fn truth(self) -> Option<bool>
        ensures { result ≡ truth self }
    {
        match self {
            Value::Set(value) | Value::Own(value) => Some(value),
            Value::Both => None,
        }
    }
}

/// Which branches of conditional statements are taken, and the values of booleans and tunables by the last components of their names.
#[derive(Drop)]
pub struct Booleans<'m, A: Allocator = Global> {
    both: bool,
    names: Names<'m, A>,
    values: Vec<Value, A>,
}

impl<'m, A: Allocator> Model for Booleans<'m, A> {
    ghost use Rattle.std.specs.Prelude.{◌≡◌, length};
    ghost use Rattle.cil_projection.specs.Conditions.{Known};

    ghost Value = { Known };

    ghost view = { λ s. record { both = s.both; names = s.names; values = s.values.items } };

    ghost invariant = { λ s. length s.names ≡ length s.values.items };
}

impl<'m, A: Allocator + Copy> Booleans<'m, A> {
    /// No values, and the branches that hold. It takes no memory.
    pub fn new(alloc: A, seed: Seed) -> Self
        ensures { result ≡ record { both = false; names = []; values = [] } }
    {
        Booleans {
            both: false,
            names: Names::new(alloc, seed),
            values: Vec::new(alloc),
        }
    }
}

impl<'m, A: Allocator> Booleans<'m, A> {
    ghost use Rattle.std.specs.Prelude.{◌≡◌, None, OnErr, OnOk, bytes_eq, position, true};
    ghost use Rattle.cil_projection.specs.Conditions.{appended, noted, settings_of, with_value};

    /// The rules of both branches are taken from now on.
    pub fn take_both(&mut self)
        ensures { self.new ≡ record self.old { both = true } }
    {
        self.both = true;
    }

    /// Whether the rules of both branches are taken.
    pub fn takes_both(&self) -> bool
        ensures { result ≡ (settings_of self.now).both }
    {
        self.both
    }

    /// The value of a name, or none where it is declared with both, or is an operator. One without a declaration is false: it is missing
    /// anyway.
    pub fn value(&self, name: &[u8]) -> Option<bool>
        ensures { result ≡ (settings_of self.now).value name.now }
    {
        if is_among(&OPERATORS, name) {
            return None;
        }
        let Some(number) = self.names.find(last_component(name)) else {
            return Some(false);
        };
        self.values[number].truth()
    }

    /// Adds a name that isn't there.
    fn append(&mut self, name: &'m [u8], value: Value) -> Result<(), AllocError>
        requires { position (bytes_eq name.now) self.old.names ≡ None }
        ensures ok { OnOk result (self.new ≡ appended self.old name.now value) }
        ensures err { OnErr result (self.new ≡ self.old) }
    {
        self.values.reserve(1)?;
        let (_number, new) = self.names.insert(name)?;
        if new {
            self.values.push(value)?;
        }
        Ok(())
    }

    /// Sets the value of a name, whatever declarations say.
    pub fn set(&mut self, name: &'m [u8], value: bool) -> Result<(), AllocError>
        ensures ok { OnOk result (self.new ≡ with_value self.old name.now value) }
        ensures err { OnErr result (self.new ≡ self.old) }
    {
        let Some(number) = self.names.find(name) else {
            return self.append(name, Value::Set(value));
        };
        self.values[number] = Value::Set(value);
        Ok(())
    }

    /// Notes a declaration of a name.
    pub(crate) fn note(&mut self, name: &'m [u8], value: bool) -> Result<(), AllocError>
        ensures ok { OnOk result (self.new ≡ noted self.old (name.now, value)) }
        ensures err { OnErr result (self.new ≡ self.old) }
    {
        let Some(number) = self.names.find(name) else {
            return self.append(name, Value::Own(value));
        };
        self.values[number] = self.values[number].again(value);
        Ok(())
    }
}
