//! A document that is written token by token.
ghost use Rattle.std.specs.Prelude.{◌≡◌, ◌∷◌, ◌++◌, [], OnOk};
ghost use Rattle.json.specs.Print.{print};
ghost use Rattle.json.specs.Token.{begin_array, begin_object, end_array, end_object, key, null};
ghost use Rattle.view_status.specs.Tokens.{flag, named, signed, text, whole};

use json::Writer;
use std::alloc::{AllocError, Global};
use std::marker::Model;

/// A document of JSON, of which contracts see the tokens so far. If memory runs out in a call, the document is not used further.
#[derive(Drop)]
pub(crate) struct Document {
    writer: Writer,
}

impl Model for Document {
    ghost use Rattle.std.specs.Prelude.{◌≡◌, List, []};
    ghost use Rattle.json.specs.Token.{Token};

    ghost Value = { List Token };

    ghost view = { λ d. d.writer.tokens };

    ghost invariant = { λ d. d.writer.before ≡ [] };
}

impl Document {
    /// Creates a document without tokens. It does not allocate.
    pub(crate) fn new(alloc: Global) -> Document
        ensures { result ≡ [] }
    {
        Document {
            writer: Writer::new(Vec::new(alloc)),
        }
    }

    /// Returns the bytes of the document.
    pub(crate) fn into_bytes(self) -> Vec<u8>
        ensures { result.items ≡ print self }
    {
        self.writer.into_inner()
    }

    pub(crate) fn begin_object(&mut self) -> Result<(), AllocError>
        ensures { OnOk result (self.new ≡ self.old ++ begin_object ∷ []) }
    {
        self.writer.begin_object()
    }

    pub(crate) fn end_object(&mut self) -> Result<(), AllocError>
        ensures { OnOk result (self.new ≡ self.old ++ end_object ∷ []) }
    {
        self.writer.end_object()
    }

    pub(crate) fn begin_array(&mut self) -> Result<(), AllocError>
        ensures { OnOk result (self.new ≡ self.old ++ begin_array ∷ []) }
    {
        self.writer.begin_array()
    }

    pub(crate) fn end_array(&mut self) -> Result<(), AllocError>
        ensures { OnOk result (self.new ≡ self.old ++ end_array ∷ []) }
    {
        self.writer.end_array()
    }

    pub(crate) fn null(&mut self) -> Result<(), AllocError>
        ensures { OnOk result (self.new ≡ self.old ++ null ∷ []) }
    {
        self.writer.null()
    }

    /// Writes a whole number.
    pub(crate) fn whole(&mut self, number: u64) -> Result<(), AllocError>
        ensures { OnOk result (self.new ≡ self.old ++ whole number) }
    {
        self.writer.u64(number)
    }

    /// Writes a whole number that may be below 0.
    pub(crate) fn signed(&mut self, number: i64) -> Result<(), AllocError>
        ensures { OnOk result (self.new ≡ self.old ++ signed number) }
    {
        self.writer.i64(number)
    }

    /// Writes the name of a member.
    pub(crate) fn key(&mut self, name: &str) -> Result<(), AllocError>
        ensures { OnOk result (self.new ≡ self.old ++ key name.now ∷ []) }
    {
        self.writer.key(name)
    }

    /// Writes a member that is a whole number.
    pub(crate) fn whole_member(&mut self, name: &str, number: u64) -> Result<(), AllocError>
        ensures { OnOk result (self.new ≡ self.old ++ named name.now (whole number)) }
    {
        self.key(name)?;
        self.whole(number)
    }

    /// Writes a member that is a string.
    pub(crate) fn text_member(&mut self, name: &str, value: &str) -> Result<(), AllocError>
        ensures { OnOk result (self.new ≡ self.old ++ named name.now (text value.now)) }
    {
        self.key(name)?;
        self.writer.string(value)
    }

    /// Writes a member that is true or false.
    pub(crate) fn flag_member(&mut self, name: &str, value: bool) -> Result<(), AllocError>
        ensures { OnOk result (self.new ≡ self.old ++ named name.now (flag value)) }
    {
        self.key(name)?;
        self.writer.boolean(value)
    }
}
