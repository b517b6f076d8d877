//! The law that tables exist for every admitted graph and every order under which no item is too wide.
#![tactic(auto)]

ghost use Rattle.cpg_built_laws.specs.Exist.{TablesExist};

/// Does nothing: its contract says that, under an order in which no item is too wide by its views, an admitted graph
/// has rows that a builder may find, and tables of them within the limits.
pub fn tables_exist()
    ensures { TablesExist }
{}
