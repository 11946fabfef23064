//! Reading an order file.
ghost use Rattle.std.specs.Prelude.{◌≡◌, ◌+◌, ◌≤◌, ◌<◌, ◌^◌, ◌++◌, length, replicate, Ok, Some, OnOk, IfOk, IfErr, All};
ghost use Rattle.std.specs.Result.{result_err};
ghost use Rattle.trace_reader.specs.Reading.{verdict};
ghost use Rattle.trace_reader.specs.Orders.{line_turns, order_rules, read_order_line, picks_by, IsOrderFault};
ghost use Rattle.trace_reader.specs.Turning.{order_line_at, IsOrderLineFault};

use crate::limits::MOST_LINES;
use crate::turn::{Turns, read_turns};
use crate::why::{OrderFault, OrderWhy};
use std::alloc::{AllocError, Global};
use tc_model::MOST_PICKS;
use trace_text::{Fields, Lines};

/// Most lines ask for no more picks than these, which are written in one step.
const FEW_PICKS: usize = 8;

/// Appends so many picks of a thread. Few picks are cut from as many as are written in one step, which guesses no count.
fn push_picks(picks: &mut Vec<u16>, thread: u16, count: usize) -> Result<(), AllocError>
    requires { length picks.old.items + count < 2 ^ 32 }
    ensures { OnOk result (picks.new.items ≡ picks.old.items ++ replicate count thread) }
{
    let end = picks.len() + count;
    if count > FEW_PICKS {
        return picks.resize(end, thread);
    }
    picks.extend_from_slice(&[thread; FEW_PICKS])?;
    picks.truncate(end);
    Ok(())
}

/// The picks so far.
#[derive(Drop)]
struct Picked {
    /// The thread of each pick.
    picks: Vec<u16>,
}

impl Picked {
    /// What a line says, or the first rule that it fails.
    fn judge(&self, threads: u8, line: &mut Fields) -> Result<Turns, OrderWhy>
        ensures verdict { result_err result ≡ verdict order_rules (order_line_at threads self.now.picks.items line.old) }
        ensures turns { IfOk result (λ turns. line_turns line.old.fields ≡ Some turns) }
        ensures number { IfOk result (λ _. line.old.line ≤ MOST_LINES) }
    {
        if line.line() > MOST_LINES {
            return Err(OrderWhy::Lines);
        }
        let turns = read_turns(line)?;
        if turns.thread >= u16::from(threads) {
            return Err(OrderWhy::Thread);
        }
        if self.picks.len() + turns.picks as usize > MOST_PICKS as usize {
            return Err(OrderWhy::Picks);
        }
        Ok(turns)
    }

    /// Reads one line by its rules, in their order.
    fn read_line(&mut self, threads: u8, line: &mut Fields) -> Result<(), OrderFault>
        ensures read { OnOk result (read_order_line (order_line_at threads self.old.picks.items line.old) ≡ Ok self.new.picks.items) }
        ensures number { OnOk result (line.old.line ≤ MOST_LINES) }
        ensures fault { IfErr result (IsOrderLineFault (order_line_at threads self.old.picks.items line.old)) }
    {
        let number = line.line();
        let turns = match self.judge(threads, line) {
            Ok(turns) => turns,
            Err(why) => return Err(OrderFault::BadLine { line: number, why }),
        };
        let count = turns.picks as usize;
        push_picks(&mut self.picks, turns.thread, count).map_err(|_| OrderFault::Memory)
    }
}

/// The thread of each pick that an order file asks for, for so many threads. Unless memory runs out, a
/// refusal is the first bad line with the first rule that it fails.
#[tactic(auto, using(crate::proofs::Picked::picked_below))]
pub fn read_order(alloc: Global, bytes: &[u8], threads: u8) -> Result<Vec<u16>, OrderFault>
    ensures picks { IfOk result (λ picks. picks_by threads bytes.now ≡ Ok picks.items) }
    ensures threads { IfOk result (λ picks. All (λ thread. thread < threads) picks.items) }
    ensures fault { IfErr result (IsOrderFault threads bytes.now) }
{
    // Room for a pick a byte, which is about what order files have. What isn't written takes no memory.
    let picks = Vec::with_capacity(alloc, bytes.len()).map_err(|_| OrderFault::Memory)?;
    let mut picked = Picked { picks };
    let mut lines = Lines::new(bytes);
    while let Some(mut line) = lines.next() {
        picked.read_line(threads, &mut line)?;
    }
    Ok(picked.picks)
}
