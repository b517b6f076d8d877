//! Variables: a scenario gives a number to each.
ghost use Rattle.std.specs.Prelude.{◌≡◌};
ghost use Rattle.cpg_base.specs.Variable.{variable_at, number_of_variable, top, top_of};

/// The number of the first variable that is a condition's value; those below are the fault counts of processes.
pub const FIRST_VALUE: u8 = 128;

/// What a variable is, with the number of its process or condition.
#[derive(Clone, Copy, Debug, PartialEq, Eq)]
pub enum Variable {
    /// The fault count of a process.
    Count(u32),
    /// The value of a condition, 0 or 1.
    Value(u32),
}

impl Variable {
    /// Returns the variable with this number: below 128 the fault count of the process of that number, from 128 on a value.
    pub fn of(number: u8) -> Variable
        ensures variable { result ≡ variable_at number }
        ensures number { number ≡ number_of_variable result }
    {
        if number < FIRST_VALUE {
            return Variable::Count(u32::from(number));
        }
        Variable::Value(u32::from(number - FIRST_VALUE))
    }

    /// Returns the greatest number that the variable has in scenarios of at most `k` faults: `k` for a fault count, 1 for a value.
    pub fn top(self, k: u8) -> u8
        ensures { result ≡ top_of k self }
    {
        match self {
            Variable::Count(_) => k,
            Variable::Value(_) => 1,
        }
    }
}

/// Returns the greatest number that the variable with this number has in scenarios of at most `k` faults.
pub fn top(k: u8, variable: u8) -> u8
    ensures { result ≡ top k variable }
{
    Variable::of(variable).top(k)
}
