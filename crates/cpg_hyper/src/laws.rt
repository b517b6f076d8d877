//! Laws on the instances of parts in the graph of all instances.
ghost use Rattle.cpg_hyper.specs.Laws.{InstancesAreActivatedAlike, InstancesAreActiveAlike, InstancesAreCopies, InstancesAreLiveAlike, InstancesHaveConditions, InstancesHaveEdges, InstancesHaveScenarios, InstancesLastAsLong, ValidTablesKeepPeriods, ValidTablesStartInstances};

/// Law: the processes of an instance are the copies of its part's processes.
pub fn instances_are_copies()
    ensures { InstancesAreCopies }
{}

/// Law: the edges of an instance are the copies of its part's edges.
pub fn instances_have_edges()
    ensures { InstancesHaveEdges }
{}

/// Law: a scenario, seen on an instance, is a scenario of the instance's part.
pub fn instances_have_scenarios()
    ensures { InstancesHaveScenarios }
{}

/// Law: executions of an instance last as long as those of its part, in what the scenario is for the instance.
pub fn instances_last_as_long()
    ensures { InstancesLastAsLong }
{}

/// Law: a process of an instance has a condition exactly if the part's process has one.
pub fn instances_have_conditions()
    ensures { InstancesHaveConditions }
{}

/// Law: if the graph of all instances has a topological order, a process of an instance is activated as the part's
/// process is, in what the scenario is for the instance.
pub fn instances_are_activated_alike()
    ensures { InstancesAreActivatedAlike }
{}

/// Law: if the graph of all instances has a topological order, a process of an instance is active exactly if the part's
/// process is, in what the scenario is for the instance.
pub fn instances_are_active_alike()
    ensures { InstancesAreActiveAlike }
{}

/// Law: if the graph of all instances has a topological order, an edge of an instance is live exactly if the part's
/// edge is, in what the scenario is for the instance.
pub fn instances_are_live_alike()
    ensures { InstancesAreLiveAlike }
{}

/// Law: valid tables have a start for each process of an instance that is active.
pub fn valid_tables_start_instances()
    ensures { ValidTablesStartInstances }
{}

/// Law: in valid tables each execution in an instance starts at its release or later and ends by its due, both counted from
/// the beginning of the instance.
pub fn valid_tables_keep_periods()
    ensures { ValidTablesKeepPeriods }
{}
