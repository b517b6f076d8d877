//! The halt of a run whose compile fails.
ghost use Rattle.std.specs.Prelude.{◌≡◌};
ghost use Rattle.cpg_app.specs.Halts.{halt_of_compile};

use cpg_core::CompileFault;
use cpg_refusal::Halt;
use cpg_rules::Admitted;

/// Returns the halt of a run whose compile fails, with the graph, which the line of the halt needs for its names.
pub fn halt_of_compile(graph: Admitted, fault: CompileFault) -> Halt
    ensures { result ≡ halt_of_compile graph fault }
{
    match fault {
        CompileFault::TooWide(item) => Halt::TooWide { graph, item },
        CompileFault::Late {
            scenario,
            process,
            finish,
        } => Halt::Late {
            graph,
            scenario,
            process,
            finish,
        },
        CompileFault::OutOfMemory => Halt::Memory,
    }
}
