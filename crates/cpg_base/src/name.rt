//! Names of nodes and processes.
ghost use Rattle.std.specs.Prelude.{◌≡◌, ◌↔◌, IfOk, IfSome, IfNone, IsTrue};
ghost use Rattle.cpg_base.specs.Name.{IsName, is_name_byte};

use crate::OutOfMemory;
use std::alloc::{AllocError, Global};
use std::marker::Model;

/// A name of a node or a process, seen as its bytes: 1 to 32 of them, each a letter, a digit, `_`, `-` or `.`.
#[derive(Drop)]
pub struct Name {
    /// The bytes of the name.
    text: String,
}

impl Model for Name {
    ghost use Rattle.std.specs.Prelude.{List, ℕ, string_bytes};

    ghost Value = { List ℕ };

    ghost use Rattle.cpg_base.specs.Name.{IsName};

    ghost view = { λ n. string_bytes n.text };

    ghost invariant = { λ n. IsName (string_bytes n.text) };
}

/// Whether a name may have this byte.
fn is_name_byte(byte: u8) -> bool
    ensures { result ≡ is_name_byte byte }
{
    matches!(byte, b'A'..=b'Z' | b'a'..=b'z' | b'0'..=b'9' | b'_' | b'-' | b'.')
}

/// Whether a text is a name: 1 to 32 bytes, each of which a name may have.
fn is_name(text: &[u8]) -> bool
    ensures { IsTrue result ↔ IsName text.now }
{
    1 <= text.len() && text.len() <= 32 && text.iter().all(|byte| is_name_byte(*byte))
}

impl Name {
    /// Returns the name with this text, and `None` exactly if the text is no name: if it is empty, has more than 32 bytes, or
    /// has a byte other than a letter, a digit, `_`, `-` or `.`.
    pub fn new(alloc: Global, text: &str) -> Result<Option<Name>, OutOfMemory>
        ensures name { IfOk result (λ r. IfSome r (λ name. name ≡ text.now)) }
        // a text that is taken is a name, and one that isn't is none
        ensures taken { IfOk result (λ r. IfSome r (λ _. IsName text.now)) }
        ensures refused { IfOk result (λ r. IfNone r (¬ IsName text.now)) }
    {
        if !is_name(text.as_bytes()) {
            return Ok(None);
        }
        let text = String::from_str(alloc, text)?;
        Ok(Some(Name { text }))
    }

    /// Returns the text of the name.
    pub fn as_str(&self) -> &str
        ensures text { result.now ≡ self.now }
        ensures name { IsName self.now }
    {
        self.text.as_str()
    }

    /// Returns a copy of the name.
    pub fn copy(&self) -> Result<Name, OutOfMemory>
        ensures { IfOk result (λ name. name ≡ self.now) }
    {
        Ok(Name {
            text: self.text.clone()?,
        })
    }
}

/// Names are equal if their texts are.
impl PartialEq for Name {
    ghost use Rattle.std.specs.Prelude.{bytes_eq};
    ghost use Rattle.std.specs.Cmp.Rules.{comparing};
    ghost use Rattle.std.proofs.Common.{rules};

    ghost eq = { bytes_eq };

    ghost laws = { Prim.search (comparing, rules) };

    fn eq(&self, other: &Name) -> bool {
        self.text.as_str() == other.text.as_str()
    }
}

/// Whether two lists of names are equal.
pub fn are_same_names(names: &[Name], others: &[Name]) -> bool
    ensures { IsTrue result ↔ (names.now ≡ others.now) }
{
    names == others
}

/// A clone is an equal name.
impl Clone for Name {
    ghost is_clone = { λ name copy. copy ≡ name };

    fn clone(&self) -> Result<Name, AllocError> {
        Ok(self.copy()?)
    }
}
