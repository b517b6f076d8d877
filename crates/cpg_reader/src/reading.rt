//! Reading a graph file.
ghost use Rattle.std.specs.Prelude.{◌≡◌, ◌≢◌, Err};
ghost use Rattle.toml.specs.View.{table_view};
ghost use Rattle.cpg_reader.specs.Reading.{Gives};
ghost use Rattle.cpg_reader.specs.Document.{read_members, problem_of};

use crate::building::problem_of;
use crate::place::ReadFault;
use crate::ranges::limits;
use crate::shape::raw_problem;
use cpg_base::Problem;
use std::alloc::Global;

/// Returns the graph that the table of a document says. An error is the first reason to refuse it, or that memory runs
/// out.
#[tactic(auto, unfolding(crate::specs::Document::read_members))]
fn read_members(alloc: Global, members: &toml::Table) -> Result<Problem, ReadFault>
    ensures { Gives (λ p. p) result (read_members (table_view members.now)) }
{
    let raw = raw_problem(alloc, members)?;
    limits(alloc, &raw)?;
    problem_of(alloc, raw)
}

/// Reads the bytes of a graph file and returns the graph that they say. Sizes are in bytes, and times in the time units
/// of the file.
///
/// An error is the first that applies, each looked for in the whole document before the next, with its first place: the
/// bytes aren't UTF-8 or spell no TOML document, a field is bad, a count or a number is beyond its limit, a name stands
/// twice, a name names nothing. `OutOfMemory` may come instead of any of these.
pub fn read_problem(alloc: Global, bytes: &[u8]) -> Result<Problem, ReadFault>
    ensures { result ≢ Err ReadFault.OutOfMemory → result ≡ problem_of bytes.now }
{
    match toml::table_from_slice(alloc, bytes) {
        Ok(table) => read_members(alloc, &table),
        Err(error) => {
            // memory ran out, or the bytes spell no document
            if error.is_memory() {
                Err(ReadFault::OutOfMemory)
            } else {
                Err(ReadFault::NotToml)
            }
        }
    }
}
