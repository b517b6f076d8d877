//! Whether the node of an item has heard all literals of the item's columns by their times.
ghost use Rattle.std.specs.Prelude.{◌≡◌, ◌<◌, ℕ, All, Contains, IfOk, IfSome, List, false, get_or, true};
ghost use Rattle.std.specs.Bool.{OnTrue};
ghost use Rattle.cpg_base.specs.Graph.{Graph, IsVariable, item_count, process_count};
ghost use Rattle.cpg_base.specs.Scenario.{Scenario, IsScenario};
ghost use Rattle.cpg_cube.specs.Cube.{IsRising, matches};
ghost use Rattle.cpg_table.specs.Table.{NodeTable, columns_of};
ghost use Rattle.cpg_table.specs.declared.rule.Rule.{Rule};
ghost use Rattle.cpg_tree.specs.Space.{IsInSpace};
ghost use Rattle.cpg_violation.specs.Sure.{IsSure};
ghost use Rattle.cpg_violation.specs.Violation.{AllHold, row_rules};
ghost use Rattle.cpg_check_quick.specs.Hearing.{AreLeft, AreOwnEnded, BeginsWith, IsAllHeard, IsEndedBy, IsOwnEnded, IsOwnOver, IsOwner};
ghost use Rattle.cpg_check_quick.specs.Listening.{IsListener};
ghost use Rattle.cpg_check_quick.specs.Order.{IsOverBy, execution};
ghost use Rattle.cpg_check_quick.specs.HeardRows.{AreToldIn, IsHeardRow};
ghost use Rattle.cpg_check_quick.specs.Sequences.{AreSequences};

use crate::bounds::list_unknown;
use crate::heard_rows::HeardRow;
use crate::sequences::Sequences;
use cpg_base::{OutOfMemory, Problem, Variable};
use cpg_cube::{Column, Cube, Literal, VARIABLES};
use cpg_row_trees::are_same_literals;
use cpg_rules::Admitted;
use cpg_tree::Space;
use cpg_violation::has_come;
use std::alloc::Global;
use std::mem;

/// The process whose count or value a variable is; `None` if it isn't a variable of the graph.
fn owner(problem: &Problem, variable: u8) -> Option<u32>
    ensures { IfSome result (IsOwner problem.now variable) }
{
    match Variable::of(variable) {
        Variable::Count(process) => {
            if (process as usize) < problem.processes().len() {
                Some(process)
            } else {
                None
            }
        }
        Variable::Value(condition) => {
            if condition < problem.conditions() {
                Some(problem.process_of(condition))
            } else {
                None
            }
        }
    }
}

/// Whether a process on an item's node is known to have ended by the item's columns: it comes before the item, or
/// before its producer, in the sequence of the node, or is the producer itself. `is_sent_in_time` is true only if V5 is
/// known to hold at the item. False guarantees nothing.
fn has_ended(
    admitted: &Admitted,
    sequences: &Sequences<'_>,
    item: u32,
    is_sent_in_time: bool,
    process: u32,
) -> bool
    requires item { item < item_count admitted.now.graph }
    requires process { process < process_count admitted.now.graph }
    ensures { OnTrue result ((tables : List NodeTable) → AreSequences (execution admitted.now.graph) admitted.now.graph tables sequences.now →
        AllHold admitted.now.graph tables row_rules → (is_sent_in_time ≡ true → IsSure admitted.now.graph tables Rule.Inputs item) →
        IsEndedBy admitted.now.graph tables process item) }
{
    let problem = admitted.problem();
    let node = problem.node_of(process);
    // a start: the process has to come before it in the sequence
    if (item as usize) < problem.processes().len() {
        return sequences.is_before(node, process, item);
    }
    // a send may be before its producer's end
    if !is_sent_in_time {
        return false;
    }
    let producer = problem.producer(item);
    // the producer has ended by then, as the send keeps V5
    if process == producer {
        return true;
    }
    sequences.is_before(node, process, producer)
}

/// Whether a variable's process is on an item's node and is known to have ended by the item's columns. False guarantees
/// nothing. `is_sent_in_time` is true only if V5 is known to hold at the item.
fn is_own_ended(
    admitted: &Admitted,
    sequences: &Sequences<'_>,
    item: u32,
    is_sent_in_time: bool,
    variable: u8,
) -> bool
    requires item { item < item_count admitted.now.graph }
    ensures { OnTrue result ((tables : List NodeTable) → AreSequences (execution admitted.now.graph) admitted.now.graph tables sequences.now →
        AllHold admitted.now.graph tables row_rules → (is_sent_in_time ≡ true → IsSure admitted.now.graph tables Rule.Inputs item) →
        IsOwnEnded admitted.now.graph tables item variable) }
{
    let problem = admitted.problem();
    // not a variable of the graph
    let Some(process) = owner(problem, variable) else {
        return false;
    };
    // a node hears only its own processes end
    if problem.node_of(process) != problem.home(item) {
        return false;
    }
    has_ended(admitted, sequences, item, is_sent_in_time, process)
}

/// A mark for each variable, by number: whether its process is on an item's node and is known to have ended by the
/// item's columns. `is_sent_in_time` is true only if V5 is known to hold at the item.
pub(crate) fn own_ended(
    admitted: &Admitted,
    sequences: &Sequences<'_>,
    item: u32,
    is_sent_in_time: bool,
) -> [bool; VARIABLES]
    requires item { item < item_count admitted.now.graph }
    ensures { (tables : List NodeTable) → AreSequences (execution admitted.now.graph) admitted.now.graph tables sequences.now →
        AllHold admitted.now.graph tables row_rules → (is_sent_in_time ≡ true → IsSure admitted.now.graph tables Rule.Inputs item) →
        AreOwnEnded admitted.now.graph tables item result }
{
    let mut known = [false; VARIABLES];
    // there are 256 variables, so the number of each fits a byte
    for variable in 0..VARIABLES {
        known[variable] = is_own_ended(admitted, sequences, item, is_sent_in_time, variable as u8);
    }
    known
}

/// Whether all these literals are on variables that `known` marks. The loop never stops early, so that a compiler can
/// take several at a step.
fn are_known(known: &[bool; VARIABLES], literals: &[Literal]) -> bool
    ensures { OnTrue result (All (λ l. get_or known.now l.variable false ≡ true) literals.now) }
{
    let mut are_known = true;
    for literal in literals {
        are_known &= known[literal.variable as usize];
    }
    are_known
}

/// Whether the variables of these literals, which rise, are all below one: the last is, or there is none.
fn are_below(literals: &[Literal], variable: usize) -> bool
    requires { IsRising literals.now }
    ensures { OnTrue result (All (λ l. l.variable < variable) literals.now) }
{
    match literals.last() {
        Some(last) => (last.variable as usize) < variable,
        None => true,
    }
}

/// How many variables, from 0 on, are marked before the first that isn't: `VARIABLES` if all are.
fn marked_from_start(known: &[bool; VARIABLES]) -> usize
    ensures marked { (v : ℕ) → v < result → get_or known.now v false ≡ true }
    ensures gap { get_or known.now result false ≡ false }
{
    for variable in 0..VARIABLES {
        if !known[variable] {
            return variable;
        }
    }
    VARIABLES
}

/// Whether all literals of a cube are on variables that `known` marks. All below `first` are marked, so a look at the
/// last literal is mostly enough.
fn is_cube_known(known: &[bool; VARIABLES], first: usize, cube: &Cube) -> bool
    requires { (v : ℕ) → v < first → get_or known.now v false ≡ true }
    ensures { OnTrue result (All (λ l. get_or known.now l.variable false ≡ true) cube.now) }
{
    let literals = cube.literals();
    if are_below(literals, first) {
        return true;
    }
    are_known(known, literals)
}

/// Whether all literals of all these columns are on variables that `known` marks.
pub(crate) fn are_all_known(known: &[bool; VARIABLES], columns: &[Column]) -> bool
    ensures { OnTrue result (All (λ c. All (λ l. get_or known.now l.variable false ≡ true) c.cube) columns.now) }
{
    let first = marked_from_start(known);
    for column in columns {
        if !is_cube_known(known, first, &column.cube) {
            return false;
        }
    }
    true
}

/// Whether `literals` begin with `others`, and all after these are on variables that `known` marks.
fn begin_with(known: &[bool; VARIABLES], literals: &[Literal], others: &[Literal]) -> bool
    ensures { OnTrue result (BeginsWith known.now literals.now others.now) }
{
    let count = others.len();
    // too few to begin with all the others
    if literals.len() < count {
        return false;
    }
    if !are_known(known, &literals[count..]) {
        return false;
    }
    are_same_literals(&literals[..count], others)
}

/// What the node of an item may have heard by the item's columns.
#[derive(Drop)]
pub(crate) struct Listener<'a> {
    /// The graph of the rows.
    pub(crate) admitted: &'a Admitted,
    /// The rows of all executions, and which follow one another on each node.
    pub(crate) sequences: &'a Sequences<'a>,
    /// The node of the item.
    pub(crate) node: u32,
    /// Marks of the variables whose processes have always ended on the node by the item's columns.
    pub(crate) known: [bool; VARIABLES],
    /// The rows of items that the node hears, in the order in which they are asked.
    pub(crate) heard_rows: Vec<HeardRow<'a>>,
}

impl<'a> Listener<'a> {
    /// Whether a process is over by a time in the scenarios of a space. False guarantees nothing.
    fn is_over(&self, process: u32, space: &Space, time: u64) -> bool
        ensures { OnTrue result ((tables : List NodeTable) (s : Scenario) →
            AreSequences (execution self.now.admitted.now.graph) self.now.admitted.now.graph tables self.now.sequences.now →
            IsScenario self.now.admitted.now.graph s → IsInSpace space.now s → IsOverBy tables (execution self.now.admitted.now.graph process s) process time s) }
    {
        let Some(row) = self.sequences.rows.list.get(process as usize) else {
            return false;
        };
        if row.is_early(time) {
            return true;
        }
        row.is_over(space, time)
    }

    /// Whether the process of a variable is on the node, and over by a time in the scenarios of a space. False
    /// guarantees nothing.
    fn is_own_over(&self, variable: u8, space: &Space, time: u64) -> bool
        ensures { OnTrue result ((tables : List NodeTable) (s : Scenario) →
            AreSequences (execution self.now.admitted.now.graph) self.now.admitted.now.graph tables self.now.sequences.now →
            IsScenario self.now.admitted.now.graph s → IsInSpace space.now s → IsOwnOver self.now.admitted.now.graph tables self.now.node variable time s) }
    {
        let problem = self.admitted.problem();
        // not a variable of the graph
        let Some(process) = owner(problem, variable) else {
            return false;
        };
        let (home, node) = (problem.node_of(process), self.node);
        if home != node {
            return false;
        }
        self.is_over(process, space, time)
    }

    /// Whether the process of each of these literals is on the node, and over by a time in the scenarios of a space.
    /// False guarantees nothing.
    fn are_over(&self, literals: &[Literal], space: &Space, time: u64) -> bool
        ensures { OnTrue result ((tables : List NodeTable) (s : Scenario) →
            AreSequences (execution self.now.admitted.now.graph) self.now.admitted.now.graph tables self.now.sequences.now →
            IsScenario self.now.admitted.now.graph s → IsInSpace space.now s →
            All (λ l. IsOwnOver self.now.admitted.now.graph tables self.now.node l.variable time s) literals.now) }
    {
        for literal in literals {
            if !self.is_own_over(literal.variable, space, time) {
                return false;
            }
        }
        true
    }

    /// Whether the frame of a heard row's column at a place has told, by the time of `column`, all of its literals that
    /// aren't on known variables: `column` begins with the literals of that column. False guarantees nothing.
    fn is_told_by(&self, heard_row: &HeardRow<'_>, place: usize, column: &Column) -> bool
        ensures { OnTrue result ((tables : List NodeTable) (x : ℕ) → IsListener tables x self.now →
            IsHeardRow self.now.admitted.now.graph tables self.now.node heard_row.now → AllHold self.now.admitted.now.graph tables row_rules →
            Contains (columns_of tables x) column.now → IsAllHeard self.now.admitted.now.graph tables self.now.node column.now) }
    {
        // called for its clause alone that the graph is admitted
        let _problem = self.admitted.problem();
        let Some(own) = heard_row.columns.get(place) else {
            return false;
        };
        if !has_come(own.time, heard_row.delay, column.time) {
            return false;
        }
        begin_with(&self.known, column.cube.literals(), own.cube.literals())
    }

    /// Whether the first of the heard rows tells all literals of a column that aren't on known variables, by its own
    /// column at `place` or by the next one, to which `place` then moves: mostly the columns of a message and of its
    /// target are in one order. False guarantees nothing.
    fn is_told(&self, column: &Column, place: &mut usize) -> bool
        ensures { OnTrue result ((tables : List NodeTable) (x : ℕ) → IsListener tables x self.now →
            AllHold self.now.admitted.now.graph tables row_rules → Contains (columns_of tables x) column.now →
            IsAllHeard self.now.admitted.now.graph tables self.now.node column.now) }
    {
        let Some(heard_row) = self.heard_rows.get(0) else {
            return false;
        };
        if self.is_told_by(heard_row, *place, column) {
            return true;
        }
        let next = place.saturating_add(1);
        if !self.is_told_by(heard_row, next, column) {
            return false;
        }
        *place = next;
        true
    }

    /// Keeps those of the wanted literals that no heard row is found to tell by a column's time wherever that matches.
    /// The column has to imply each of them, and the space to have all scenarios that it matches. `places` and `left`
    /// are lists to work in, and are overwritten.
    fn listen(
        &self,
        column: &Column,
        space: &Space,
        places: &mut Vec<u32>,
        wanted: &mut Vec<Literal>,
        left: &mut Vec<Literal>,
    ) -> Result<(), OutOfMemory>
        ensures { IfOk result (λ _. (g : Graph) (tables : List NodeTable) →
            All (IsHeardRow g tables self.now.node) self.now.heard_rows.items → AreToldIn column.now.cube wanted.old.items →
            ((s : Scenario) → IsScenario g s → matches column.now.cube s ≡ true → IsInSpace space.now s) →
            AreLeft g tables self.now.node column.now wanted.old.items wanted.new.items) }
    {
        for heard_row in self.heard_rows.as_slice() {
            // the other rows need not be asked
            if wanted.is_empty() {
                return Ok(());
            }
            let has_told = heard_row.tell(column, wanted.as_slice(), space, places, left)?;
            if !has_told {
                continue;
            }
            mem::swap(wanted, left);
        }
        Ok(())
    }

    /// Whether the node has heard all literals of one of the item's columns by its time, wherever it matches: the low
    /// and the high of each, which different items may have told. `place` is where `is_told` looks first; the three
    /// lists are to work in, and are overwritten. False guarantees nothing.
    fn hears(
        &self,
        column: &Column,
        place: &mut usize,
        places: &mut Vec<u32>,
        wanted: &mut Vec<Literal>,
        left: &mut Vec<Literal>,
    ) -> Result<bool, OutOfMemory>
        ensures { IfOk result (λ all. OnTrue all ((tables : List NodeTable) (x : ℕ) → IsListener tables x self.now →
            AllHold self.now.admitted.now.graph tables row_rules → Contains (columns_of tables x) column.now →
            IsAllHeard self.now.admitted.now.graph tables self.now.node column.now)) }
    {
        // mostly a single frame tells all
        if self.is_told(column, place) {
            return Ok(true);
        }
        let literals = column.cube.literals();
        let problem = self.admitted.problem();
        // narrowed in place, since a space is long to copy
        let mut space = self.sequences.rows.everywhere;
        // no scenario matches the column
        if !space.narrow_to(literals) {
            return Ok(true);
        }
        list_unknown(problem.faults(), &self.known, literals, wanted)?;
        self.listen(column, &space, places, wanted, left)?;
        Ok(self.are_over(wanted.as_slice(), &space, column.time))
    }

    /// Whether the node has heard all literals of each of these columns of the item by its time, wherever it matches.
    /// False guarantees nothing.
    pub(crate) fn hears_all(&self, alloc: Global, columns: &[Column]) -> Result<bool, OutOfMemory>
        ensures { IfOk result (λ all. OnTrue all ((tables : List NodeTable) (x : ℕ) → IsListener tables x self.now →
            AllHold self.now.admitted.now.graph tables row_rules → columns.now ≡ columns_of tables x →
            All (IsAllHeard self.now.admitted.now.graph tables self.now.node) columns.now)) }
    {
        // where `is_told` looks first, and lists to work in, for all columns
        let mut place = 0;
        let mut places = Vec::new(alloc);
        let mut wanted = Vec::new(alloc);
        let mut left = Vec::new(alloc);
        for column in columns {
            let heard = self.hears(column, &mut place, &mut places, &mut wanted, &mut left)?;
            if !heard {
                return Ok(false);
            }
        }
        Ok(true)
    }
}
