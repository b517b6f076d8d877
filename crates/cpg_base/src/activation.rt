//! How processes become active.
ghost use Rattle.std.specs.Prelude.{◌≡◌};
ghost use Rattle.cpg_base.specs.Activity.{is_active};

/// Whether a process is active in a scenario, and in which way.
#[derive(Clone, Copy, Debug, PartialEq, Eq)]
pub enum Activation {
    /// It isn't active.
    Inactive,
    /// It has no inputs, or it is no join and all its inputs are live.
    Plain,
    /// It is a join, and the edge of this number is the first of its inputs that is live.
    By(u32),
}

impl Activation {
    /// Whether the process is active, in whatever way.
    pub fn is_active(&self) -> bool
        ensures { result ≡ is_active self.now }
    {
        match self {
            Activation::Inactive => false,
            Activation::Plain | Activation::By(_) => true,
        }
    }
}
