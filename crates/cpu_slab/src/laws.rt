//! What holds of the victim of a growth, as definitions.
ghost use Rattle.cpu_slab.specs.Growth.{VictimsAreBest};
ghost use Rattle.cpu_slab.specs.Grows.{GrowthIsExact};

/// The victim of a growth has most unused bytes of all other classes, and is the least such class.
pub fn victims_are_best()
    ensures { VictimsAreBest }
{}

/// A capacity grows exactly where the rule lets it, by how much the rule says.
pub fn growth_is_exact()
    ensures { GrowthIsExact }
{}
