//! The rule of the table, and its steps.
use crate::view::{Key, Stall, View};
use atomic_table::{Join, Play, Split, TableRule};
use std::marker::{Brand, PhantomData};
use tc_model::Machine;

/// The rule: what the words, the parts at home and what all seats know have to do with each other.
pub struct Law<M> {
    of: PhantomData<M>,
}

impl<M: Machine> TableRule<Stall<M::Part>, View<M, M::Part, M::Local>, Key<M>> for Law<M> {
    ghost use Rattle.part_lock.specs.Lock.{Kept, main_view};

    ghost holds = { Kept M.rules };

    ghost first = { main_view };
}

/// Loads the halt word.
pub struct See<M> {
    of: PhantomData<M>,
}

impl<M: Machine> Play<Stall<M::Part>, View<M, M::Part, M::Local>> for See<M> {
    ghost use Rattle.part_lock.specs.Lock.{Sees};

    ghost then = { Sees M.rules };
}

/// Raises the halt word to the seat's cause.
pub struct Halts;

impl<X, P, L> Play<Stall<P>, View<X, P, L>> for Halts {
    ghost use Rattle.part_lock.specs.Lock.{Sets};

    ghost then = { Sets };
}

/// Takes the turn of a part.
pub struct Take<M> {
    of: PhantomData<M>,
}

impl<M: Machine> Play<Stall<M::Part>, View<M, M::Part, M::Local>> for Take<M> {
    ghost use Rattle.part_lock.specs.Lock.{Takes};

    ghost then = { Takes M.rules M.fits };
}

/// Draws a ticket.
pub struct Draw;

impl<X, P, L> Play<Stall<P>, View<X, P, L>> for Draw {
    ghost use Rattle.part_lock.specs.Lock.{Draws};

    ghost then = { Draws };
}

/// Gives a part back with an entry.
pub struct Give<M> {
    of: PhantomData<M>,
}

impl<M: Machine> Play<Stall<M::Part>, View<M, M::Part, M::Local>> for Give<M> {
    ghost use Rattle.part_lock.specs.Lock.{Gives};

    ghost then = { Gives M.rules };
}

/// Gives a part back without one.
pub struct Return;

impl<X, P, L> Play<Stall<P>, View<X, P, L>> for Return {
    ghost use Rattle.part_lock.specs.Lock.{Returns};

    ghost then = { Returns };
}

/// Gives a part back without one, for want of memory.
pub struct Fail;

impl<X, P, L> Play<Stall<P>, View<X, P, L>> for Fail {
    ghost use Rattle.part_lock.specs.Lock.{Fails};

    ghost then = { Fails };
}

/// Names the thread of the next seat.
pub trait Pick {
    ghost use Rattle.std.specs.Prelude.{ℕ};

    ghost thread: { ℕ };
}

impl Pick for Brand {
    ghost thread = { 0 };
}

/// Cuts the seat of a thread off the main one.
pub struct CutFor<M, T> {
    of: PhantomData<(M, T)>,
}

impl<M: Machine, T: Pick> Split<View<M, M::Part, M::Local>> for CutFor<M, T> {
    ghost use Rattle.part_lock.specs.Lock.{seated, newcomer};

    ghost left = { seated T.thread };

    ghost right = { newcomer M.rules T.thread };
}

/// Joins the seat of a thread to the main one.
pub struct Keep;

impl<X, P, L> Join<View<X, P, L>> for Keep {
    ghost use Rattle.part_lock.specs.Lock.{joined};
    ghost use Rattle.part_lock.specs.declared.view.View.TheVariants.{Spent};

    ghost both = { joined };

    ghost spent = { Spent };
}
