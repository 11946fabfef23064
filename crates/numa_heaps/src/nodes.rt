//! How many memory nodes there are, and the number of one.
ghost use Rattle.std.specs.Prelude.{◌≡◌, ◌<◌, ◌≤◌, ◌%◌, ◌↔◌, Some, None, MatchOption};
ghost use Rattle.node_rules.specs.Nodes.{home};

use tc_model::Config;
use tc_units::ThreadNo;

/// How many memory nodes there are: 1 to 8.
#[derive(Clone, Copy, Debug, PartialEq, Eq)]
pub struct Nodes {
    count: u8,
    ghost some: { 0 < count },
    ghost few: { count ≤ 8 },
}

/// The number of a memory node, from 0.
#[derive(Clone, Copy, Debug, PartialEq, Eq)]
pub struct NodeNo(pub u8);

impl Nodes {
    /// So many nodes. `None` exactly where there are none, or more than 8.
    pub fn new(count: u8) -> Option<Nodes>
        ensures { MatchOption result ((0 < count → 8 < count)) (λ n. n.count ≡ count) }
    {
        if count == 0 || count > 8 {
            return None;
        }
        Some(Nodes { count })
    }

    /// How many.
    pub fn count(self) -> u8
        ensures is { result ≡ self.count }
        ensures some { 0 < result }
        ensures few { result ≤ 8 }
    {
        self.count
    }

    /// The node of a thread, for good: that of the CPU at which it begins.
    pub(crate) fn home(self, config: &Config, thread: ThreadNo) -> NodeNo
        requires { 0 < config.now.cpus }
        ensures { result.0 ≡ home self.count config.now thread.0 }
    {
        NodeNo(thread.0 % config.cpus % self.count)
    }
}
