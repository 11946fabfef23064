//! What holds of memory nodes side by side.
ghost use Rattle.node_rules.specs.NodeActs.{NodeIsItsActs};
ghost use Rattle.node_rules.specs.NumaLaw.{NodesAreLawful};

/// For every class table, every number of nodes and every trace without a drain and a resize, in every order of the
/// threads' picks: each node is what its own picks make of it, and of that run all holds that holds of the allocator; the
/// calls that are told are a run on disjoint blocks over the hugepages of all nodes, each block in the node of its
/// call.
pub fn nodes_are_lawful()
    ensures { NodesAreLawful }
{}

/// The parts of a node are what was asked of them makes of them. Each act at its shards, heap or map is what its thread asks
/// of that part, and the thread goes on by the reply alone. So for every class table, every valid trace and every order of
/// picks, the parts and the replies are what the list of acts makes of an empty node; and two runs whose acts agree have the
/// same, whatever else differs.
pub fn node_is_its_acts()
    ensures { NodeIsItsActs }
{}
