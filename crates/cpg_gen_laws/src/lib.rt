//! Laws on the graphs that numbers generate: each is admitted, nothing in it is too wide, and nothing is late.
#![tactic(auto)]

ghost use Rattle.cpg_gen_laws.specs.Admission.{GeneratedHaveFewTracks, GeneratedHaveNoCycle, GeneratedHaveSingleJoins, GeneratedMessagesFit, GeneratedShowNoFault};
ghost use Rattle.cpg_gen_laws.specs.Timing.{GeneratedAreInTime, GeneratedEndEarly};
ghost use Rattle.cpg_gen_laws.specs.Width.{GeneratedAreNarrow, GeneratedHaveFewScenarios, GeneratedHaveFewViews, GeneratedHaveSmallLoads, GeneratedMessagesHaveFewViews};

/// The graph of no number has a cycle.
pub fn generated_have_no_cycle()
    ensures { GeneratedHaveNoCycle }
{}

/// The graph of every number has at most four tracks.
pub fn generated_have_few_tracks()
    ensures { GeneratedHaveFewTracks }
{}

/// No outcome makes two inputs of a join live in the graph of any number.
pub fn generated_have_single_joins()
    ensures { GeneratedHaveSingleJoins }
{}

/// Each message of the graph of every number fits into its sender's slot.
pub fn generated_messages_fit()
    ensures { GeneratedMessagesFit }
{}

/// The graph of every number keeps all rules: it isn't refused, except that memory may run out.
pub fn generated_show_no_fault()
    ensures { GeneratedShowNoFault }
{}

/// The graph of every number has at most 7,564 scenarios, and so no item has more views.
pub fn generated_have_few_scenarios()
    ensures scenarios { GeneratedHaveFewScenarios }
    ensures views { GeneratedHaveFewViews }
{}

/// Each message of the graph of every number has at most four views, under any order.
pub fn generated_messages_have_few_views()
    ensures { GeneratedMessagesHaveFewViews }
{}

/// The loads of all items together, which bound the columns of all rows, are at most 514,832 under any order.
pub fn generated_have_small_loads()
    ensures { GeneratedHaveSmallLoads }
{}

/// Nothing in the graph of any number is too wide under any order.
pub fn generated_are_narrow()
    ensures { GeneratedAreNarrow }
{}

/// Under a topological order no process of the graph of any number ends later than 19,720.
pub fn generated_end_early()
    ensures { GeneratedEndEarly }
{}

/// Under a topological order no process of the graph of any number ends past its due.
pub fn generated_are_in_time()
    ensures { GeneratedAreInTime }
{}
