//! All tables of type `Tables` are those of a pack.
ghost use Rattle.std.specs.Prelude.{All};
ghost use Rattle.cpg_base.specs.Name.{IsName};
ghost use Rattle.cpg_codec.specs.Packs.{AreLawful};

use cpg_base::Name;
use cpg_head::HeadProcess;
use cpg_table::Tables;

/// These names are well-formed. The function does nothing and is there for its contract.
fn nodes_are_named(names: &[Name])
    ensures { All IsName names.now }
{
    for name in names {
        // called for its contract: a name is well-formed
        let _text = name.as_str();
    }
}

/// The names of these processes are well-formed. The function does nothing and is there for its contract.
fn processes_are_named(processes: &[HeadProcess])
    ensures { All (λ p. IsName p.name) processes.now }
{
    for process in processes {
        // called for its contract: a name is well-formed
        let _text = process.name.as_str();
    }
}

/// Any tables are lawful. The function does nothing and is there for its contract: the types of head and tables keep the
/// limits, and that of names their form.
pub fn tables_are_lawful(tables: &Tables)
    ensures { AreLawful tables.now }
{
    let head = tables.head();
    nodes_are_named(head.nodes());
    processes_are_named(head.processes());
}
