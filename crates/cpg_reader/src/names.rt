//! Names and their numbers.
ghost use Rattle.std.specs.Prelude.{◌≡◌, ◌≤◌, ◌<◌, ℕ, List, map, length, IfOk, IfSome, position, bytes_eq};
ghost use Rattle.cpg_reader.specs.Reading.{Gives};
ghost use Rattle.cpg_reader.specs.Names.{apart, number_of};

use crate::place::{Key, Place, ReadFault, Table};
use crate::shape::{RawProcess, RawSlot};
use cpg_base::Name;
use indexmap::IndexSet;
use std::alloc::Global;
use std::marker::Model;

/// An element that has a name, which no other element of its list may have. A slot has that of its node.
pub trait Named {
    // the name of the element, as its bytes
    ghost named: { Self → List ℕ };

    /// Returns the name of the element.
    fn name(&self) -> &str
        ensures { result.now ≡ named self.now };
}

impl Named for Name {
    ghost named = { λ name. name };

    fn name(&self) -> &str {
        self.as_str()
    }
}

impl Named for RawSlot {
    ghost named = { λ slot. slot.node };

    fn name(&self) -> &str {
        self.node.as_str()
    }
}

impl Named for RawProcess {
    ghost named = { λ process. process.name };

    fn name(&self) -> &str {
        self.name.as_str()
    }
}

/// Names that differ, seen as their list. The number of a name is its place.
#[derive(Drop)]
pub struct Names<'a> {
    /// The names, in the order of their numbers.
    names: IndexSet<&'a str>,
}

impl<'a> Model for Names<'a> {
    ghost use Rattle.std.specs.Prelude.{List, ℕ, map};

    ghost Value = { List (List ℕ) };

    ghost view = { λ n. map (λ name. name.now) n.names.keys };
}

impl<'a> Names<'a> {
    /// Returns the names of the elements. An error is the first name that an earlier element has, at its place, or that
    /// memory runs out.
    #[tactic(auto, unfolding(crate::specs::Names::apart))]
    pub fn of<T: Named>(
        alloc: Global,
        table: Table,
        key: Key,
        elements: &'a [T],
    ) -> Result<Names<'a>, ReadFault>
        ensures apart { Gives (λ _. tt) result (apart table key (map T.named elements.now)) }
        ensures names { IfOk result (λ names. names ≡ map T.named elements.now) }
    {
        let mut names = IndexSet::new(alloc);
        for (index, element) in elements.iter().enumerate() {
            // an earlier element has the name
            if !names.insert(element.name())? {
                return Err(ReadFault::DoubleName(Place::of_name(table, index as u64, key)));
            }
        }
        Ok(Names { names })
    }

    /// Returns the number of a name. If it isn't among the names, the error shows the place at which it stands.
    #[tactic(auto, unfolding(crate::specs::Names::number_of))]
    pub fn number(&self, place: Place, name: &str) -> Result<u32, ReadFault>
        requires few { length self.now ≤ 128 }
        ensures number { Gives (λ n. n) result (number_of self.now place name.now) }
    {
        match self.names.get_index_of(name) {
            // there are at most 128 names, so the cast keeps it
            Some(number) => Ok(number as u32),
            None => Err(ReadFault::UnknownName(place)),
        }
    }
}
