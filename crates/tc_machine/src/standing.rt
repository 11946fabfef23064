//! The blocks that stand after some calls.
ghost use Rattle.std.specs.Prelude.{◌≡◌, ◌≢◌, ◌<◌, ◌≤◌, ◌^◌, ℕ, List, [], length, Some, OnOk, unwrap_or};
ghost use Rattle.std.specs.Option.{option_or};
ghost use Rattle.tc_model.specs.Blocks.{live_bytes};
ghost use Rattle.tc_model.specs.declared.answers.CallLine.{CallLine as Line};
ghost use Rattle.tc_machine.specs.Standing.{bytes_of_label, bytes_of_labels, AreStanding};

use crate::listener::Listener;
use std::alloc::{AllocError, Global};
use tc_model::{Answer, Call, CallLine};
use tc_units::Label;

/// More bytes than any block has.
const NO_BLOCK: u64 = u64::MAX;

/// So many labels of freed blocks are kept until their bytes are taken away: a processor then waits for their places in memory
/// together.
const MOST_FREED: usize = 64;

/// How many calls there were, and the blocks that stand: their number, and their bytes with those of the blocks that were freed
/// last, whose labels are kept; and by label the bytes of the block that its allocation got, or `NO_BLOCK`.
#[derive(Drop)]
pub struct Standing {
    pub calls: u64,
    pub lens: Vec<u64>,
    pub count: u64,
    pub bytes: u64,
    pub freed: Vec<Label>,
}

/// The bytes that are noted of a label's block, or none.
fn bytes_of(lens: &[u64], label: Label) -> u64
    ensures { result ≡ unwrap_or (bytes_of_label lens.now label.0) 0 }
{
    match lens.get(label.0 as usize) {
        Some(len) if *len != NO_BLOCK => *len,
        _ => 0,
    }
}

impl Standing {
    /// No call, and no block.
    pub(crate) fn new(alloc: Global) -> Self
        ensures { AreStanding [] result }
    {
        Standing {
            calls: 0,
            lens: Vec::new(alloc),
            count: 0,
            bytes: 0,
            freed: Vec::new(alloc),
        }
    }

    /// The bytes of the blocks that were freed last.
    fn freed_bytes(&self) -> u64
        requires { bytes_of_labels self.now.lens.items self.now.freed.items < 2 ^ 64 }
        ensures { result ≡ bytes_of_labels self.now.lens.items self.now.freed.items }
    {
        let lens = self.lens.as_slice();
        self.freed.iter().map(|label| bytes_of(lens, *label)).sum()
    }

    /// The bytes of the blocks that stand.
    #[inline(never)]
    pub fn live_bytes(&self) -> u64
        requires { (earlier : List Line) × AreStanding earlier self.now }
        ensures { (earlier : List Line) → AreStanding earlier self.now → result ≡ live_bytes earlier }
    {
        self.bytes - self.freed_bytes()
    }

    /// Takes away the bytes of the blocks that were freed last, once they are many.
    #[inline(always)]
    fn settle(&mut self)
        requires { (earlier : List Line) × AreStanding earlier self.old }
        ensures standing { (earlier : List Line) → AreStanding earlier self.old → AreStanding earlier self.new }
        ensures few { length self.new.freed.items < MOST_FREED }
    {
        if self.freed.len() >= MOST_FREED {
            self.bytes = self.live_bytes();
            self.freed.clear();
        }
    }
}

/// Notes the bytes of a label's block, where none is noted.
fn note(lens: &mut Vec<u64>, label: Label, len: u64) -> Result<(), AllocError>
    requires { len ≤ 2 ^ 37 }
    ensures here { OnOk result (bytes_of_label lens.new.items label.0 ≡ option_or (bytes_of_label lens.old.items label.0) (Some len)) }
    ensures others { OnOk result ((other : ℕ) → label.0 ≢ other → bytes_of_label lens.new.items other ≡ bytes_of_label lens.old.items other) }
{
    let place = label.0 as usize;
    if lens.len() <= place {
        lens.resize(place + 1, NO_BLOCK)?;
    }
    if lens[place] == NO_BLOCK {
        lens[place] = len;
    }
    Ok(())
}

/// A call's answer adds the block of an allocation, and takes away that of a free.
impl Listener for Standing {
    ghost use Rattle.tc_machine.specs.Standing.{AreStanding, MayStand};

    ghost heard = { λ before standing calls. AreStanding calls standing };

    ghost may_hear = { λ before. MayStand };

    #[inline(always)]
    fn hear(&mut self, line: &CallLine) -> Result<(), AllocError> {
        self.settle();
        self.calls += 1;
        match line.answer {
            Answer::Block { len, .. } => {
                let Call::Malloc { label, .. } = line.call else {
                    unreachable!()
                };
                note(&mut self.lens, label, len)?;
                self.count += 1;
                self.bytes += len;
            }
            Answer::Freed { .. } => {
                let Call::Free { label } = line.call else {
                    unreachable!()
                };
                self.freed.push(label)?;
                self.count -= 1;
            }
            _ => {}
        }
        Ok(())
    }
}
