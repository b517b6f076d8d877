//! Items that are marked because a rule is known to hold there. The search for its first violation leaves them out.
ghost use Rattle.std.specs.Prelude.{◌≡◌, ◌<◌, ◌∷◌, ℕ, IfOk, List, false, get_or, true};
ghost use Rattle.std.specs.Bool.{OnTrue};
ghost use Rattle.cpg_base.specs.Graph.{Graph, item_count};
ghost use Rattle.cpg_table.specs.Table.{NodeTable};
ghost use Rattle.cpg_table.specs.declared.rule.Rule.{Rule};
ghost use Rattle.cpg_violation.specs.Sure.{AreRowMarks, AreTimeMarks};
ghost use Rattle.cpg_violation.specs.Violation.{AllHold, row_rules, time_rules};

use cpg_base::OutOfMemory;
use std::alloc::Global;

/// The marks of V1 to V3, by item. Items past the end of a list aren't marked.
#[derive(Drop)]
pub struct RowMarks {
    /// V1: the item and the processes of its literals are active.
    pub activity: Vec<bool>,
    /// V2: no two columns match together.
    pub single: Vec<bool>,
    /// V3: some column matches if the item is active.
    pub present: Vec<bool>,
}

/// The marks of V4 to V9, by item. Items past the end of a list aren't marked.
#[derive(Drop)]
pub struct TimeMarks {
    /// V4: the node has heard the literals in time.
    pub heard: Vec<bool>,
    /// V5: the release and live inputs, or the producer, come no later than the column.
    pub inputs: Vec<bool>,
    /// V6: executions of a node don't overlap.
    pub processor: Vec<bool>,
    /// V7: a send is at the start of a slot of its own node, and no other item of the node has that slot.
    pub slot: Vec<bool>,
    /// V8: a frozen item has one time.
    pub frozen: Vec<bool>,
    /// V9: an execution ends by its due.
    pub due: Vec<bool>,
}

/// Whether an item is marked: not if it is past the end of the marks.
pub fn is_marked(marks: &[bool], item: u32) -> bool
    ensures { result ≡ get_or marks.now item false }
{
    // no mark was set for it
    if item as usize >= marks.len() {
        return false;
    }
    marks[item as usize]
}

/// Whether each of the first `items` items is marked.
pub fn are_all(marks: &[bool], items: u32) -> bool
    ensures { OnTrue result ((x : ℕ) → x < items → get_or marks.now x false ≡ true) }
{
    for item in 0..items {
        if !is_marked(marks, item) {
            return false;
        }
    }
    true
}

/// A mark for each of the first `items` items, by number: whether it passes a test. The contract says only that a set
/// mark is of one of these items, and that the item passes. The one error is `OutOfMemory`.
pub fn tested_marks<F: Fn(u32) -> bool>(
    alloc: Global,
    items: u32,
    test: F,
) -> Result<Vec<bool>, OutOfMemory>
    requires { (x : ℕ) → x < items → F.pre test x }
    ensures { IfOk result (λ marks. (x : ℕ) → get_or marks.items x false ≡ true → (x < items) × F.post test x true) }
{
    let mut marks = Vec::new(alloc);
    marks.reserve(items as usize)?;
    for item in 0..items {
        marks.push(test(item))?;
    }
    Ok(marks)
}

impl RowMarks {
    /// Whether each of the first `items` items is marked for V1, V2 and V3. Then these rules hold, if the graph has no
    /// other items.
    pub fn are_all(&self, items: u32) -> bool
        ensures { OnTrue result ((g : Graph) (tables : List NodeTable) → items ≡ item_count g → AreRowMarks g tables self.now → AllHold g tables row_rules) }
    {
        if !are_all(self.activity.as_slice(), items) {
            return false;
        }
        if !are_all(self.single.as_slice(), items) {
            return false;
        }
        are_all(self.present.as_slice(), items)
    }
}

impl TimeMarks {
    /// Whether each of the first `items` items is marked for each rule from V4 to V9. Then these rules hold, if the
    /// graph has no other items.
    pub fn are_all(&self, items: u32) -> bool
        ensures { OnTrue result ((g : Graph) (tables : List NodeTable) → items ≡ item_count g → AreTimeMarks g tables self.now →
            AllHold g tables (Rule.Heard ∷ time_rules)) }
    {
        if !are_all(self.heard.as_slice(), items) {
            return false;
        }
        if !are_all(self.inputs.as_slice(), items) {
            return false;
        }
        if !are_all(self.processor.as_slice(), items) {
            return false;
        }
        if !are_all(self.slot.as_slice(), items) {
            return false;
        }
        if !are_all(self.frozen.as_slice(), items) {
            return false;
        }
        are_all(self.due.as_slice(), items)
    }
}
