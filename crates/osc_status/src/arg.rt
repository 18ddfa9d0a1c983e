//! Arguments of messages.
ghost use Rattle.std.specs.Prelude.{◌≡◌, ◌==◌, ◌∷◌, ◌++◌, [], length, OnOk, OnErr, option_copied, slice_get};
ghost use Rattle.std.specs.Slice.Iter.{iter_rest};

use play_types::Text;
use std::alloc::{AllocError, Global};
use std::marker::Model;
use std::slice;

/// An argument that is written.
#[derive(Clone, Copy, Debug, PartialEq, Eq)]
pub enum OscArg<'a> {
    /// A number.
    Int(i32),
    /// A word.
    Word(&'a str),
}

/// An argument that was read.
#[derive(Debug, Drop)]
pub enum OscValue {
    /// A number.
    Int(i32),
    /// A word.
    Word(Text),
}

/// Arguments that were read, in order. Contracts see the list.
#[derive(Debug, Drop)]
pub struct ArgList {
    values: Vec<OscValue>,
}

impl Model for ArgList {
    ghost use Rattle.std.specs.Prelude.{List};
    ghost use Rattle.osc_status.specs.declared.arg.OscValue.{OscValue};

    ghost Value = { List OscValue };

    ghost view = { λ l. l.values.items };
}

impl ArgList {
    /// Creates a list without arguments. It takes no memory.
    pub fn new(alloc: Global) -> ArgList
        ensures { result ≡ [] }
    {
        ArgList {
            values: Vec::new(alloc),
        }
    }

    /// Adds an argument at the end. If memory runs out, the list stays as it was.
    pub fn push(&mut self, value: OscValue) -> Result<(), AllocError>
        ensures ok { OnOk result (self.new ≡ self.old ++ value ∷ []) }
        ensures err { OnErr result (self.new ≡ self.old) }
    {
        self.values.push(value)?;
        Ok(())
    }

    /// Returns the number of arguments.
    pub fn len(&self) -> usize
        ensures { result ≡ length self.now }
    {
        self.values.len()
    }

    /// Returns whether there are no arguments.
    pub fn is_empty(&self) -> bool
        ensures { result ≡ (length self.now == 0) }
    {
        self.values.is_empty()
    }

    /// Returns the arguments in order.
    pub fn iter(&self) -> slice::Iter<'_, OscValue>
        ensures { iter_rest result ≡ self.now }
    {
        self.values.iter()
    }

    /// Returns the argument at position `at`, counted from 0: `None` exactly if `at` is not below the length.
    pub fn get(&self, at: usize) -> Option<&OscValue>
        ensures { option_copied result ≡ slice_get self.now at }
    {
        self.values.get(at)
    }
}
