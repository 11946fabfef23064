//! The calls of a bag, each as one equation.
ghost use Rattle.std.specs.Prelude.{◌≡◌, ◌<◌, ◌≤◌, [], ◌∷◌, length};
ghost use Rattle.rseq_core.specs.Bags.{appended, without_first, emptied};

use tc_units::{Addr, Bag};

/// Appends an object.
pub(crate) fn append_one(bag: &mut Bag<Addr>, object: Addr)
    requires { 0 < bag.old.spare }
    ensures { bag.new ≡ appended bag.old (object ∷ []) }
{
    bag.push(object);
}

/// Appends objects.
pub(crate) fn append(bag: &mut Bag<Addr>, objects: &[Addr])
    requires { length objects.now ≤ bag.old.spare }
    ensures { bag.new ≡ appended bag.old objects.now }
{
    for object in objects {
        append_one(bag, *object);
    }
}

/// Drops the first `n` objects.
pub(crate) fn drop_first(bag: &mut Bag<Addr>, n: u32)
    requires { n ≤ length bag.old.items }
    ensures { bag.new ≡ without_first n bag.old }
{
    bag.drop_front(n as usize);
}

/// Drops all objects.
pub(crate) fn empty(bag: &mut Bag<Addr>)
    ensures { bag.new ≡ emptied bag.old }
{
    bag.clear();
}
