//! The parts, each under a lock of its own: opening, seats, one step, joining, closing.
ghost use Rattle.std.specs.Prelude.{◌≡◌, ◌≢◌, ℕ, ◌+◌, ◌<◌, ◌≤◌, ◌++◌, [], ◌∷◌, Some, IfOk, IfErr, vec_len, vec_capacity, length, map, false, true, All, replicate, slice_get};
ghost use Rattle.std.specs.Slots.{IsFull, slots_len, slots_items};
ghost use Rattle.tc_model.specs.Rises.{Has};
ghost use Rattle.part_lock.specs.Lock.{first_lead, one_more, one_joined, IsMain, part_no, part_word};
ghost use Rattle.part_lock.specs.Closes.{IsClosed};
ghost use Rattle.part_lock.specs.Turns.{halt_number, IsReady, IsFresh, Ready, Tells};
ghost use Rattle.part_lock.specs.declared.view.Stage.TheVariants.{Idle};
ghost use Rattle.part_lock.specs.declared.view.View.TheVariants.{Works};

use crate::moved::{drain, fill, unfill};
use crate::rule::{CutFor, Keep, Law, Pick, See};
use crate::view::{Key, Stall, Step, View};
use crate::words::{HALT, zeros};
use atomic_table::{Refused, Table};
use std::alloc::{AllocError, Global};
use std::marker::Brand;
use std::sync::Wait;
use tc_model::{Entry, Halt, Machine, PartNo};
use tc_units::ThreadNo;

/// A right to take turns of the parts, of a thread or of the main one. It has no bytes.
pub type Seat<M> = atomic_table::Seat<
    Stall<<M as Machine>::Part>,
    View<M, <M as Machine>::Part, <M as Machine>::Local>,
>;

/// The parts of a machine for several threads: a word of halt, a word of tickets, and a word and a slot
/// for each part, with unused words between.
#[derive(Drop)]
pub struct Parts<M: Machine> {
    pub(crate) key: Key<M>,
    pub(crate) table: Table<Stall<M::Part>, View<M, M::Part, M::Local>, Key<M>, Law<M>, Global>,
    pub(crate) alloc: Global,
    pub ghost keyed: { table.shared.key ≡ key },
    pub ghost sized: { table.shared.table_id.words ≡ part_word table.shared.table_id.slots },
}

/// No memory was there. What was given comes back.
#[derive(Drop)]
pub struct OpenFault<M: Machine> {
    pub machine: M,
    pub parts: Vec<M::Part>,
}

/// What threads left of a machine's parts, and the entries of the acts at each part.
#[derive(Drop)]
pub struct Closed<M: Machine> {
    pub machine: M,
    pub parts: Vec<M::Part>,
    pub entries: Vec<Vec<Entry>>,
}

fn halt_of(n: u64) -> Halt
    requires { (n ≢ 0) × (n ≤ 2) }
    ensures { halt_number result ≡ n }
{
    if n == 1 { Halt::Full } else { Halt::Memory }
}

impl<M: Machine> Parts<M> {
    /// Puts the machine's parts, at its start, each under a lock of its own, with the main seat. Tickets
    /// from `events` on aren't used.
    pub fn open(
        alloc: Global,
        machine: M,
        parts: Vec<M::Part>,
        events: u64,
    ) -> Result<(Parts<M>, Seat<M>), OpenFault<M>>
        requires events { events ≤ 40000000 }
        requires start { parts.items ≡ (M.rules machine).parts }
        ensures key { IfOk result (λ r. (r.0.key.machine ≡ machine) × (r.0.key.events ≡ events)) }
        ensures seat { IfOk result (λ r. r.1.table_id ≡ r.0.table.shared.table_id) }
        ensures main { IfOk result (λ r. IsMain r.0.key (first_lead r.0.key) r.1.me) }
        ensures err { IfErr result (λ e. (e.machine ≡ machine) × (e.parts.items ≡ parts.items)) }
    {
        let Ok(words) = zeros(alloc, parts.len()) else {
            return Err(OpenFault { machine, parts });
        };
        let Ok(stalls) = Vec::with_capacity(alloc, parts.len()) else {
            return Err(OpenFault { machine, parts });
        };
        let Ok(back) = Vec::with_capacity(alloc, parts.len()) else {
            return Err(OpenFault { machine, parts });
        };
        let stalls = fill(alloc, parts, stalls);
        let key = Key {
            machine,
            events: events as u32,
        };
        match Table::new(alloc, words.as_slice(), stalls, &key) {
            Ok((table, seat)) => Ok((Parts { key, table, alloc }, seat)),
            Err(Refused { slots }) => {
                let Key { machine, events: _ } = key;
                let parts = unfill(slots, back);
                Err(OpenFault { machine, parts })
            }
        }
    }

    fn seat_as<T: Pick>(&self, main: &mut Seat<M>, thread: ThreadNo) -> Seat<M>
        requires thread { thread.0 ≡ T.thread }
        requires seat { main.old.table_id ≡ self.now.table.shared.table_id }
        requires main { (m : _) × (l : M.Local) × IsMain self.now.key m main.old.me × (slice_get (M.rules self.now.key.machine).locals T.thread ≡ Some l) × (Has m.threads T.thread → ⊥) }
        ensures seat { (main.new.table_id ≡ main.old.table_id) × (result.table_id ≡ main.old.table_id) }
        ensures main { (m : _) → IsMain self.now.key m main.old.me → IsMain self.now.key (one_more T.thread m) main.new.me }
        ensures worker { (l : M.Local) → slice_get (M.rules self.now.key.machine).locals T.thread ≡ Some l → Ready self.now.key T.thread l result.me }
        ensures fresh { IsFresh result.me }
    {
        let _ = thread;
        self.table.shared.split_seat::<CutFor<M, T>>(main)
    }

    /// A seat for a thread of the machine that has had none yet. Its local is the one at the machine's
    /// start.
    pub fn seat(&self, main: &mut Seat<M>, thread: ThreadNo) -> Seat<M>
        requires seat { main.old.table_id ≡ self.now.table.shared.table_id }
        requires main { (m : _) × (l : M.Local) × IsMain self.now.key m main.old.me × (slice_get (M.rules self.now.key.machine).locals thread.0 ≡ Some l) × (Has m.threads thread.0 → ⊥) }
        ensures seat { (main.new.table_id ≡ main.old.table_id) × (result.table_id ≡ main.old.table_id) }
        ensures main { (m : _) → IsMain self.now.key m main.old.me → IsMain self.now.key (one_more thread.0 m) main.new.me }
        ensures worker { (l : M.Local) → slice_get (M.rules self.now.key.machine).locals thread.0 ≡ Some l → Ready self.now.key thread.0 l result.me }
        ensures fresh { IsFresh result.me }
    {
        self.seat_as::<Brand>(main, thread)
    }

    /// Keeps what a worker's seat knows. It holds no part.
    pub fn join(&self, main: &mut Seat<M>, worker: Seat<M>)
        requires seat { (main.old.table_id ≡ self.now.table.shared.table_id) × (worker.table_id ≡ self.now.table.shared.table_id) }
        requires main { (m : _) × IsMain self.now.key m main.old.me }
        requires worker { (w : _) × (worker.me ≡ (Works w, [])) × (w.stage ≡ Idle) }
        ensures seat { main.new.table_id ≡ main.old.table_id }
        ensures main { (m : _) (w : _) → IsMain self.now.key m main.old.me → worker.me ≡ (Works w, []) → IsMain self.now.key (one_joined m w) main.new.me }
    {
        self.table.shared.join_seat::<Keep>(main, worker);
    }

    /// One try at the local's next act: takes the part that it wants, which it may wait for, looks whether
    /// the act waits and is polite, draws a ticket, acts and enters the act. Once a thread met the limit
    /// or want of memory, no step moves.
    pub fn step<R: Wait>(
        &self,
        rt: &R,
        seat: &mut Seat<M>,
        thread: ThreadNo,
        local: &mut M::Local,
    ) -> Step
        requires seat { seat.old.table_id ≡ self.now.table.shared.table_id }
        requires ready { Ready self.now.key thread.0 local.old seat.old.me }
        requires wants { (i : ℕ) × ((M.rules self.now.key.machine).want local.old ≡ Some (part_no i)) }
        ensures seat { seat.new.table_id ≡ seat.old.table_id }
        ensures ready { Ready self.now.key thread.0 local.new seat.new.me }
        ensures told { (w : _) → IsReady self.now.key thread.0 local.old w seat.old.me → Tells M.rules self.now.key w local.old local.new seat.new.me result }
    {
        let Some(part) = self.key.machine.want(local) else {
            unreachable!()
        };
        self.step_at(rt, seat, thread, local, part)
    }

    /// The same for a local that is known to want this part.
    pub(crate) fn step_at<R: Wait>(
        &self,
        rt: &R,
        seat: &mut Seat<M>,
        thread: ThreadNo,
        local: &mut M::Local,
        part: PartNo,
    ) -> Step
        requires seat { seat.old.table_id ≡ self.now.table.shared.table_id }
        requires ready { Ready self.now.key thread.0 local.old seat.old.me }
        requires wants { (M.rules self.now.key.machine).want local.old ≡ Some part }
        ensures seat { seat.new.table_id ≡ seat.old.table_id }
        ensures ready { Ready self.now.key thread.0 local.new seat.new.me }
        ensures told { (w : _) → IsReady self.now.key thread.0 local.old w seat.old.me → Tells M.rules self.now.key w local.old local.new seat.new.me result }
    {
        let halt = self.table.shared.load::<See<M>>(seat, HALT);
        if halt != 0 {
            return Step::Halted {
                cause: halt_of(halt),
            };
        }
        self.take_turn(rt, seat, part, thread);
        let answer = self.act_in(seat, local, part.0 as usize, thread);
        self.set_halt(seat, answer);
        answer
    }

    /// The machine with its parts and the entries of the acts at each, once every other seat was joined.
    /// Refused only for memory, with all untouched.
    pub fn close(self, main: Seat<M>) -> Result<Closed<M>, (Parts<M>, Seat<M>)>
        requires seat { main.table_id ≡ self.table.shared.table_id }
        requires main { (m : _) × IsMain self.key m main.me × (length m.kept ≡ length m.threads) }
        ensures machine { IfOk result (λ c. c.machine ≡ self.key.machine) }
        ensures closed { IfOk result (λ c. (m : _) → IsMain self.key m main.me → IsClosed M.rules self.key m c.parts.items (map (λ v. v.items) c.entries.items)) }
        ensures err { IfErr result (λ e. (e.0 ≡ self) × (e.1 ≡ main)) }
    {
        let Ok(parts) = Vec::with_capacity(self.alloc, self.table.slot_count()) else {
            return Err((self, main));
        };
        let Ok(entries) = Vec::with_capacity(self.alloc, self.table.slot_count()) else {
            return Err((self, main));
        };
        let Parts {
            key,
            table,
            alloc: _,
        } = self;
        let Key { machine, events: _ } = key;
        let (parts, entries) = drain(table.close_with(main), parts, entries);
        Ok(Closed {
            machine,
            parts,
            entries,
        })
    }
}
