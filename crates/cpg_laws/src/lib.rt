//! Laws on graph files, on graphs, on packs and on tables, each on an empty body, so that a reader can cite it.
#![tactic(auto)]

ghost use Rattle.cpg_laws.specs.DocumentFaults.{FilesAreRefusedByDocument};
ghost use Rattle.cpg_laws.specs.GraphFiles.{GraphFilesShowFirstFaults};
ghost use Rattle.cpg_laws.specs.Graphs.{CyclesAreRefusedFirst, GraphsShowFirstCauses};
ghost use Rattle.cpg_laws.specs.Packs.{FrontsOfPacksAreRefused, PacksAreRefusedAtOnePlace};
ghost use Rattle.cpg_laws.specs.Refusals.{RefusalsAreFirst};
ghost use Rattle.cpg_laws.specs.Tables.{FormedRowsHaveFewColumns, HeardLiteralsAreTrue};

mod limits;

pub use limits::limits_are_these;

/// A graph file is refused by the first of its faults, and read as a graph if it has none.
pub fn graph_files_show_first_faults()
    ensures { GraphFilesShowFirstFaults }
{}

/// A graph file is refused with a fault exactly if it has that fault, none of an earlier kind anywhere, and none of its
/// kind at an earlier place; no two of its faults stand at one place.
pub fn refusals_are_first()
    ensures { RefusalsAreFirst }
{}

/// The faults of a graph file are those that its document has, each kind by what stands at the places of the document; the
/// file is refused by the first of them, and read as a graph exactly if it has none.
pub fn files_are_refused_by_document()
    ensures { FilesAreRefusedByDocument }
{}

/// A graph is refused for a cycle exactly if it has one, unless memory runs out; and the refusal shows one of its cycles.
pub fn cycles_are_refused_first()
    ensures { CyclesAreRefusedFirst }
{}

/// A graph is refused for its first cause, in this order: a cycle, too many tracks, two live inputs of a join, a sender
/// without a slot, a message that is too big, a given order that isn't topological. There is one first cause at most,
/// except that a graph may have several cycles.
pub fn graphs_show_first_causes()
    ensures { GraphsShowFirstCauses }
{}

/// Bytes are a pack, or are refused at one place, and no other.
pub fn packs_are_refused_at_one_place()
    ensures { PacksAreRefusedAtOnePlace }
{}

/// The first bytes of a pack, if these aren't all, are no pack, and are refused at their end.
pub fn fronts_of_packs_are_refused()
    ensures { FrontsOfPacksAreRefused }
{}

/// Each literal that a node has heard in a scenario holds in it, whatever the tables are.
pub fn heard_literals_are_true()
    ensures { HeardLiteralsAreTrue }
{}

/// In tables that keep V1 and V2, a formed row has at most as many columns as the variables that it depends on have views.
pub fn formed_rows_have_few_columns()
    ensures { FormedRowsHaveFewColumns }
{}
