//! What one thread has: a local at each memory node, the nodes of its calls, and what it decided.
ghost use Rattle.std.specs.Prelude.{◌≡◌, ◌+◌, ◌<◌, ◌≤◌, ◌^◌, ℕ, List, [], length, map, drop, option_map, slice_get, All, Some, IfOk, OnErr, false};
ghost use Rattle.std.specs.Option.{option_to_list};
ghost use Rattle.tc_units.specs.declared.spans.ClassRow.{ClassRow};
ghost use Rattle.tc_model.specs.Input.{Input};
ghost use Rattle.tc_model.specs.Run.{tried};
ghost use Rattle.tc_model.specs.Steps.{acted};
ghost use Rattle.call_steps.specs.Local.{Decided};
ghost use Rattle.alloc_rules.specs.Fits.{Fits};
ghost use Rattle.alloc_rules.specs.Inputs.{setting_of};
ghost use Rattle.alloc_rules.specs.Machine.{after, waits};
ghost use Rattle.no_caches.specs.NoCaches.{no_caches, about_none, fits};
ghost use Rattle.numa_heaps.specs.declared.nodes.NodeNo.{NodeNo as Number};
ghost use Rattle.node_rules.specs.Beside.{node_now, local_now, decided_at};
ghost use Rattle.node_rules.specs.Joined.{bytes_before, shifted};
ghost use Rattle.numa_heaps.specs.Local.{decided_of, IsChange};
ghost use Rattle.node_rules.specs.Numa.{numa_rules};
ghost use Rattle.node_rules.specs.NumaLaw.{IsLow, IsOneAct, FitsThread, waits_now};

use crate::nodes::NodeNo;
use alloc_rules::{Part, number_of};
use call_steps::Setting;
use no_caches::{NoCaches, NoPart, PlainLocal};
use std::alloc::{AllocError, Global};
use std::marker::Model;
use tc_machine::{act_at, waits_at};
use tc_model::{Acted, Answer, Call, PartNo};
use tc_units::{Addr, HUGE_PAGES, Listed, PAGE_BYTES};

/// Bytes of a hugepage.
const HUGE_BYTES: u64 = HUGE_PAGES as u64 * PAGE_BYTES;

/// A call that was decided, with the number of the thread's act that decided it, and its answer as it is told.
#[derive(Clone, Copy, Debug)]
pub struct Told {
    pub act: u64,
    pub call: Call,
    pub answer: Answer,
}

/// A thread: what it has at each node, the node of each of its calls, how many of them have ended, how many acts it has
/// done, and its decided calls in their order.
#[derive(Drop)]
pub struct NumaLocal {
    pub(crate) here: Vec<PlainLocal>,
    pub(crate) route: Listed<NodeNo>,
    /// Calls that have ended.
    pub(crate) place: usize,
    pub(crate) acts: u64,
    pub(crate) answers: Vec<Told>,
}

impl Model for NumaLocal {
    ghost use Rattle.node_rules.specs.Beside.{Beside};
    ghost use Rattle.node_rules.specs.Numa.{NodeLocal};
    ghost use Rattle.numa_heaps.specs.Local.{thread_of};

    ghost Value = { Beside NodeLocal };

    ghost view = { λ l. thread_of l.here.items l.route l.place l.acts l.answers.items };
}

impl NumaLocal {
    /// A thread before its first act, with a local at each node, and the nodes of its calls.
    pub(crate) fn new(alloc: Global, here: Vec<PlainLocal>, route: Vec<NodeNo>) -> NumaLocal
        ensures { result ≡ record { here = here.items; route = map (λ (n : Number). n.0) route.items; ended = 0; acts = 0; answers = [] } }
    {
        NumaLocal {
            here,
            route: Listed::new(route),
            place: 0,
            acts: 0,
            answers: Vec::new(alloc),
        }
    }

    /// The node of its call under way.
    pub(crate) fn node(&self) -> Option<NodeNo>
        ensures { node_now self.now ≡ option_map (λ (n : Number). n.0) result }
    {
        self.route.as_slice().get(self.place).copied()
    }
}

/// How many bytes lie before a node, where each has so many hugepages.
fn bytes_before(node: NodeNo, huge: u32) -> u64
    ensures is { result ≡ bytes_before huge node.0 }
    ensures low { result < 2 ^ 61 }
{
    u64::from(node.0) * u64::from(huge) * HUGE_BYTES
}

/// An answer whose address is greater by so much.
fn shifted(answer: Answer, bytes: u64) -> Answer
    requires low { IsLow answer }
    requires bytes { bytes < 2 ^ 61 }
    ensures { result ≡ shifted bytes answer }
{
    match answer {
        Answer::Block { addr, len } => Answer::Block {
            addr: Addr(addr.0 + bytes),
            len,
        },
        Answer::Freed { addr } => Answer::Freed {
            addr: Addr(addr.0 + bytes),
        },
        other => other,
    }
}

/// The call that a node's local decided behind `i` others, as the thread's act of this number.
fn told_of(inner: &PlainLocal, i: usize, node: NodeNo, huge: u32, act: u64) -> Told
    requires within { i < length inner.now.answers }
    requires low { All (λ (d : Decided). IsLow d.answer) (drop i inner.now.answers) }
    ensures { (d : Decided) → slice_get inner.now.answers i ≡ Some d → decided_of result ≡ decided_at huge node.0 act d }
{
    let line = inner.call_line(i);
    Told {
        act,
        call: line.call,
        answer: shifted(line.answer, bytes_before(node, huge)),
    }
}

impl NumaLocal {
    /// The part that the next act is on: one of the node of the call under way, each of which has so many.
    pub(crate) fn want(&self, setting: &Setting) -> Option<PartNo>
        ensures { (nodes : ℕ) (input : Input) → setting_of input ≡ setting.now → result ≡ (numa_rules nodes input).want self.now }
    {
        let node = self.node()?;
        let inner = self.here.get(usize::from(node.0))?;
        let target = inner.want(setting)?;
        let classes = setting.table.len();
        let place = number_of(0, classes, target);
        Some(PartNo(u16::from(node.0) * (classes as u16 + 3) + place.0))
    }

    /// How many calls have ended.
    pub(crate) fn done(&self) -> u64
        ensures { result ≡ self.now.ended }
    {
        self.place as u64
    }

    /// Whether the next act waits at a part of its node.
    pub(crate) fn waits(&self, part: &Part<NoPart>) -> bool
        requires { (rows : List ClassRow) × FitsThread rows part.now self.now }
        ensures { result ≡ waits_now part.now (local_now self.now) }
    {
        let Some(node) = self.node() else {
            unreachable!()
        };
        waits_at::<NoCaches, _>(part, &self.here[usize::from(node.0)])
    }

    /// The act at a part of the node of the call under way. Want of memory changes nothing.
    pub(crate) fn act(
        &mut self,
        setting: &Setting,
        part: &mut Part<NoPart>,
    ) -> Result<Acted, AllocError>
        requires { FitsThread setting.now.table part.old self.old }
        ensures part { (nodes : ℕ) (input : Input) → setting_of input ≡ setting.now → IfOk result (λ _. part.new ≡ (tried (numa_rules nodes input) part.old self.old).0) }
        ensures local { (nodes : ℕ) (input : Input) → setting_of input ≡ setting.now → IfOk result (λ _. self.new ≡ (tried (numa_rules nodes input) part.old self.old).1) }
        ensures answer { IfOk result (λ a. a ≡ acted (waits_now part.old (local_now self.old))) }
        ensures err { OnErr result ((part.new ≡ part.old) × (self.new ≡ self.old)) }
    {
        let Some(node) = self.node() else {
            unreachable!()
        };
        self.answers.reserve(1)?;
        let inner = &mut self.here[usize::from(node.0)];
        let Some(change) = act_there(setting, part, inner, node, self.acts)? else {
            return Ok(Acted::NotYet);
        };
        self.place += change.ended;
        if let Some(told) = change.told {
            self.answers.push_reserved(told);
        }
        self.acts += 1;
        Ok(Acted::Moved)
    }
}

/// What an act made of a node's local: how many calls it ended, none or one, and the call that it decided.
#[derive(Clone, Copy)]
struct Change {
    ended: usize,
    told: Option<Told>,
}

/// The act of a node's local there. `None` where it waits, and then nothing changes.
fn act_there(
    setting: &Setting,
    part: &mut Part<NoPart>,
    inner: &mut PlainLocal,
    node: NodeNo,
    act: u64,
) -> Result<Option<Change>, AllocError>
    requires fits { Fits setting.now.table fits part.old inner.old }
    requires goes { waits part.old inner.old ≡ false → IsOneAct inner.old (after (no_caches setting.now.table) about_none part.old inner.old).1 }
    ensures change { IfOk result (IsChange setting.now node.0 act part.old inner.old part.new inner.new) }
    ensures err { OnErr result ((part.new ≡ part.old) × (inner.new ≡ inner.old)) }
{
    let (decided, ended) = (inner.answers().len(), inner.done());
    match act_at::<NoCaches, _>(setting, part, inner)? {
        Acted::NotYet => Ok(None),
        Acted::Moved => {
            let ended = (inner.done() - ended) as usize;
            let told = told_behind(inner, decided, node, setting.config.huge, act);
            Ok(Some(Change { ended, told }))
        }
    }
}

/// The call that a node's local decided behind `n` others, as the thread's act of this number, if it decided one.
fn told_behind(inner: &PlainLocal, n: usize, node: NodeNo, huge: u32, act: u64) -> Option<Told>
    requires few { length inner.now.answers ≤ n + 1 }
    requires low { All (λ (d : Decided). IsLow d.answer) (drop n inner.now.answers) }
    ensures { map decided_of (option_to_list result) ≡ map (decided_at huge node.0 act) (drop n inner.now.answers) }
{
    if n < inner.answers().len() {
        Some(told_of(inner, n, node, huge, act))
    } else {
        None
    }
}
