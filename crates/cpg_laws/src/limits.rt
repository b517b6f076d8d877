//! The limits, in numbers.
ghost use Rattle.std.specs.Prelude.{◌≡◌};
ghost use Rattle.cpg_base.specs.declared.limits.TheConstants.{LARGEST, LONGEST, MOST_COLUMNS, MOST_CONDITIONS, MOST_EDGES, MOST_FAULTS, MOST_LOAD, MOST_NODES, MOST_PARTS, MOST_PROCESSES, MOST_TRACKS};
ghost use Rattle.cpg_base.specs.declared.variable.TheConstants.{FIRST_VALUE};

/// The limits that definitions cite, which are constants of the code, in plain numbers.
pub fn limits_are_these()
    ensures faults { MOST_FAULTS ≡ 8 }
    ensures nodes { MOST_NODES ≡ 16 }
    ensures processes { MOST_PROCESSES ≡ 128 }
    ensures edges { MOST_EDGES ≡ 256 }
    ensures conditions { MOST_CONDITIONS ≡ 32 }
    ensures parts { MOST_PARTS ≡ 255 }
    ensures tracks { MOST_TRACKS ≡ 16384 }
    ensures columns { MOST_COLUMNS ≡ 16384 }
    ensures load { MOST_LOAD ≡ 524288 }
    ensures longest { LONGEST ≡ 1000000000 }
    ensures largest { LARGEST ≡ 65535 }
    ensures values { FIRST_VALUE ≡ 128 }
{}
