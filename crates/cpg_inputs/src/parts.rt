//! The parts from which `hyper` makes one graph: graphs with their periods.
ghost use Rattle.std.specs.Prelude.{◌≡◌, ◌<◌, ◌≤◌, length};

use cpg_hyper::Part;
use std::marker::Model;

/// Between one and four graphs with their periods, in the order of the words. The rules of admission haven't been asked
/// of the graphs.
#[derive(Drop)]
pub struct Parts {
    // each with its graph and its period
    parts: Vec<Part>,
}

impl Model for Parts {
    ghost use Rattle.std.specs.Prelude.{List, length, ◌<◌, ◌≤◌};
    ghost use Rattle.cpg_hyper.specs.declared.part.Part.{Part};

    ghost Value = { List Part };

    ghost view = { λ p. p.parts.items };

    ghost invariant = { λ p. (0 < length p.parts.items) × (length p.parts.items ≤ 4) };
}

impl Parts {
    /// Takes a list of one to four parts as it is.
    pub(crate) fn new(parts: Vec<Part>) -> Parts
        requires some { 0 < length parts.items }
        requires few { length parts.items ≤ 4 }
        ensures { result ≡ parts.items }
    {
        Parts { parts }
    }

    /// Returns the list of the parts, in the order of the words.
    pub fn as_slice(&self) -> &[Part]
        ensures parts { result.now ≡ self.now }
        ensures some { 0 < length self.now }
        ensures few { length self.now ≤ 4 }
    {
        self.parts.as_slice()
    }
}
