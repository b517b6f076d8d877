//! The graphs of the tests, as files have them.
use cpg_reader::read_problem;
use cpg_rules::{Admitted, admit};
use std::alloc::Global;

/// The pair: A (process 0) sends B (process 1), which is on the other node, a message (item 2). One fault may strike.
pub const PAIR: &str = r#"faults = 1
deadline = 100
node = [{ name = "N1" }, { name = "N2" }]
slot = [{ node = "N1", length = 10, bytes = 8 }, { node = "N2", length = 10, bytes = 8 }]
process = [
  { name = "A", node = "N1", wcet = 30, alpha = 2, chi = 3, mu = 5 },
  { name = "B", node = "N2", wcet = 10, alpha = 2, chi = 3, mu = 5 },
]
edge = [{ from = "A", to = "B" }]
"#;

/// The pair with a frozen message, and with a deadline that is met.
pub const FROZEN: &str = r#"faults = 1
deadline = 122
node = [{ name = "N1" }, { name = "N2" }]
slot = [{ node = "N1", length = 10, bytes = 8 }, { node = "N2", length = 10, bytes = 8 }]
process = [
  { name = "A", node = "N1", wcet = 30, alpha = 2, chi = 3, mu = 5 },
  { name = "B", node = "N2", wcet = 10, alpha = 2, chi = 3, mu = 5 },
]
edge = [{ from = "A", to = "B", frozen = true }]
"#;

/// A decides between B, on the other node, and C; J, on B's node, joins both. No fault may strike.
pub const CHOICE: &str = r#"faults = 0
deadline = 95
node = [{ name = "N1" }, { name = "N2" }]
slot = [{ node = "N1", length = 10, bytes = 8 }, { node = "N2", length = 10, bytes = 8 }]
process = [
  { name = "A", node = "N1", wcet = 30, alpha = 2, chi = 3, mu = 5 },
  { name = "B", node = "N2", wcet = 10, alpha = 2, chi = 3, mu = 5 },
  { name = "C", node = "N1", wcet = 10, alpha = 2, chi = 3, mu = 5 },
  { name = "J", node = "N2", wcet = 5, join = true, alpha = 2, chi = 3, mu = 5 },
]
edge = [
  { from = "A", to = "B", when = true },
  { from = "A", to = "C", when = false },
  { from = "B", to = "J" },
  { from = "C", to = "J" },
]
"#;

/// A decides between B, on the other node, and C. One fault may strike.
pub const FORK: &str = r#"faults = 1
deadline = 1000000
node = [{ name = "N1" }, { name = "N2" }]
slot = [{ node = "N1", length = 10, bytes = 8 }, { node = "N2", length = 10, bytes = 8 }]
process = [
  { name = "A", node = "N1", wcet = 10, alpha = 2, chi = 3, mu = 5 },
  { name = "B", node = "N2", wcet = 10, alpha = 2, chi = 3, mu = 5 },
  { name = "C", node = "N1", wcet = 10, alpha = 2, chi = 3, mu = 5 },
]
edge = [{ from = "A", to = "B", when = true }, { from = "A", to = "C", when = false }]
"#;

/// A graph like `CHOICE`, with two faults, a release, deadlines that aren't all met, frozen items, and K and L after J.
pub const MIXED: &str = r#"faults = 2
deadline = 150
node = [{ name = "N1" }, { name = "N2" }]
slot = [{ node = "N1", length = 10, bytes = 8 }, { node = "N2", length = 10, bytes = 8 }]
process = [
  { name = "A", node = "N1", wcet = 30, alpha = 2, chi = 3, mu = 5, release = 7 },
  { name = "B", node = "N2", wcet = 10, alpha = 2, chi = 3, mu = 5, deadline = 140 },
  { name = "C", node = "N1", wcet = 10, parts = 2, alpha = 2, chi = 3, mu = 5 },
  { name = "J", node = "N2", wcet = 5, join = true, alpha = 2, chi = 3, mu = 5 },
  { name = "K", node = "N2", wcet = 4, alpha = 1, frozen = true },
  { name = "L", node = "N1", wcet = 6, mu = 1 },
]
edge = [
  { from = "A", to = "B", when = true, frozen = true },
  { from = "A", to = "C", when = false },
  { from = "B", to = "J" },
  { from = "C", to = "J" },
  { from = "J", to = "K" },
  { from = "J", to = "L" },
]
"#;

/// Returns the graph of a text, or `None` if the text isn't one, it isn't admitted, or memory runs out.
pub fn admitted(alloc: Global, text: &str) -> Option<Admitted> {
    match read_problem(alloc, text.as_bytes()) {
        Ok(problem) => admit(alloc, problem).ok(),
        Err(_) => None,
    }
}
