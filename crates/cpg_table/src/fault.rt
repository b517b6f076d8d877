//! A violation of the rules of valid tables.

use cpg_base::Scenario;

/// The first violation of a rule of valid tables (docs/RULES.md).
#[derive(Drop)]
pub struct Fault {
    /// The number of the rule, from 1 for V1 to 10 for V10.
    pub rule: u8,
    /// The number of the item.
    pub item: u32,
    /// The number of the column in the item's row, counted from 0; `None` if what breaks the rule is that no column is
    /// there or matches.
    pub column: Option<u32>,
    /// The least scenario in which the rule is broken so.
    pub scenario: Scenario,
}
