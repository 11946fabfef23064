//! What a front-end is: parts of its own, a seat for each thread, and rows of calls, each an act on one
//! part.
ghost use Rattle.std.specs.Prelude.{◌≡◌, ◌<◌, ◌≤◌, true, false, length, take, drop, Some, None, IfOk, OnOk, OnErr};
ghost use Rattle.rseq_core.specs.declared.regs.Regs.{Regs as Registers};
ghost use Rattle.call_steps.specs.declared.setting.Setting.{Setting as Under};
ghost use Rattle.call_steps.specs.Calls.{About, Asks, Publishes, Frees, Other};
ghost use Rattle.call_steps.specs.Follows.{next_of, ComesWith, HasObject, Stays};
ghost use Rattle.call_steps.specs.Fronts.{FrontRules, IsEntry, leaving};
ghost use Rattle.call_steps.specs.declared.step.Next.TheVariants.{Row};

use crate::setting::Setting;
use crate::step::{Asking, Came, Freeing, Next, Serving};
use rseq_core::Regs;
use std::alloc::{AllocError, Global};
use tc_model::{Call, Planned};
use tc_units::ThreadNo;

/// A front-end: what stands between the calls of small objects and the shards of their classes. Its rows are
/// all that it adds to the calls: what an act of it hands on is told by a `Came`, so that the calls are
/// decided, fetch, give and publish in one place for all front-ends.
pub trait FrontEnd {
    /// A part, on which one act works at a time.
    type Part: Drop;

    /// What a thread has at the front-end beside its registers.
    type Seat: Drop;

    /// A row of the call programs, with what its call has under way.
    type Row: Copy;

    // What contracts see of it, and what each row is about.
    ghost rules: { Under → FrontRules Self.Part Self.Seat Self.Row };

    ghost about: { Self.Row → About };

    // Its calls are under the setting's table, and no more of its parts stand before the shards than there are.
    ghost same_rows: { (setting : Under) → (rules setting).calls.rows ≡ setting.table };

    ghost split_is_within: { (setting : Under) → (rules setting).split ≤ length (rules setting).parts };

    // The settings under which its parts and seats can be opened.
    ghost can_open: { Under → Type 0 };

    // What an act needs of its part.
    ghost fits: { Under → Self.Part → Self.Seat → Registers → Self.Row → Type 0 };

    /// How many of its parts stand before the shards. The others stand behind the names.
    fn split(setting: &Setting) -> u8
        ensures { result ≡ (rules setting.now).split };

    /// Its parts at the start that stand before the shards.
    fn first_parts(setting: &Setting, alloc: Global) -> Result<Vec<Self::Part>, AllocError>
        requires { can_open setting.now }
        ensures { IfOk result (λ parts. parts.items ≡ take (rules setting.now).split (rules setting.now).parts) };

    /// Its parts at the start that stand behind the names.
    fn later_parts(setting: &Setting, alloc: Global) -> Result<Vec<Self::Part>, AllocError>
        requires { can_open setting.now }
        ensures { IfOk result (λ parts. parts.items ≡ drop (rules setting.now).split (rules setting.now).parts) };

    /// The seat of a thread at the start.
    fn seat(setting: &Setting, thread: ThreadNo) -> Self::Seat
        requires { can_open setting.now }
        ensures { result ≡ (rules setting.now).seats thread.0 };

    /// The call that is planned next begins, if there is one.
    fn begin(setting: &Setting, seat: &mut Self::Seat, planned: Option<Planned>)
        ensures { seat.new ≡ (rules setting.now).calls.begins seat.old planned };

    /// The row with which an allocation of a small object begins. None: it fetches from the shard.
    fn first(
        setting: &Setting,
        seat: &Self::Seat,
        regs: &mut Regs,
        asking: Asking,
    ) -> Option<Self::Row>
        ensures row { result ≡ (rules setting.now).calls.first seat.now asking }
        ensures regs { regs.new ≡ (rules setting.now).calls.to_first regs.old }
        ensures about { IsEntry about (Asks asking) result };

    /// The row that stocks what an allocation fetched besides. None: that is given to the shard.
    fn rest(
        setting: &Setting,
        seat: &Self::Seat,
        regs: &mut Regs,
        serving: Serving,
    ) -> Option<Self::Row>
        ensures row { result ≡ (rules setting.now).calls.rest seat.now serving }
        ensures regs { regs.new ≡ (rules setting.now).calls.to_rest regs.old }
        ensures about { IsEntry about (Publishes serving) result };

    /// The row with which a free begins that has its object in hand. None: that is given to the shard.
    fn free(
        setting: &Setting,
        seat: &Self::Seat,
        regs: &mut Regs,
        freeing: Freeing,
    ) -> Option<Self::Row>
        ensures row { result ≡ (rules setting.now).calls.free seat.now freeing }
        ensures regs { regs.new ≡ (rules setting.now).calls.to_free regs.old }
        ensures about { IsEntry about (Frees freeing) result };

    /// The row of a call of the front-end's own: a drain or a resize.
    fn other(setting: &Setting, seat: &Self::Seat, regs: &mut Regs, call: Call) -> Option<Self::Row>
        ensures row { result ≡ (rules setting.now).calls.other seat.now call }
        ensures regs { regs.new ≡ (rules setting.now).calls.to_other call regs.old }
        ensures about { IsEntry about (Other (Some call)) result };

    /// The row that stands between a call's end and the next call. None: the next call begins.
    fn last(setting: &Setting, seat: &Self::Seat) -> Option<Self::Row>
        ensures row { result ≡ (rules setting.now).calls.last seat.now }
        ensures about { IsEntry about (Other None) result };

    /// The part that a row is at, by its number among the front-end's.
    fn place(setting: &Setting, seat: &Self::Seat, regs: &Regs, row: &Self::Row) -> u16
        ensures place { result ≡ (rules setting.now).place seat.now regs.now row.now }
        ensures low { result < 32768 };

    /// The act of a row, and what comes behind it, as it may. Want of memory changes nothing.
    fn act(
        setting: &Setting,
        part: &mut Self::Part,
        seat: &mut Self::Seat,
        regs: &mut Regs,
        row: &mut Self::Row,
        next: &mut Next<Self::Row>,
    ) -> Result<Came, AllocError>
        requires { fits setting.now part.old seat.old regs.old row.old }
        ensures part { OnOk result (part.new ≡ ((rules setting.now).acts part.old seat.old regs.old row.old).part) }
        ensures seat { OnOk result (seat.new ≡ ((rules setting.now).acts part.old seat.old regs.old row.old).seat) }
        ensures regs { OnOk result (regs.new ≡ ((rules setting.now).acts part.old seat.old regs.old row.old).regs) }
        ensures next { IfOk result (λ c. next_of c row.new next.new ≡ ((rules setting.now).acts part.old seat.old regs.old row.old).next) }
        ensures stays { IfOk result (λ c. Stays c row.old row.new) }
        ensures may { IfOk result (λ c. ComesWith about (rules setting.now).refuses (HasObject (rules setting.now).calls.rows) row.old regs.new (next_of c row.new next.new)) }
        ensures err { OnErr result ((part.new ≡ part.old) × (seat.new ≡ seat.old) × (regs.new ≡ regs.old) × (row.new ≡ row.old)) };

    /// The act of a row, where it can be done at once and the thread stays at that row and its part: else nothing is done.
    fn stay(
        _setting: &Setting,
        _part: &mut Self::Part,
        _seat: &Self::Seat,
        _regs: &mut Regs,
        _row: &Self::Row,
    ) -> bool
        requires { fits _setting.now _part.old _seat.now _regs.old _row.now }
        ensures acted { result ≡ true → (rules _setting.now).acts _part.old _seat.now _regs.old _row.now ≡ leaving _part.new _seat.now _regs.new (Row _row.now) }
        ensures place { result ≡ true → (rules _setting.now).place _seat.now _regs.new _row.now ≡ (rules _setting.now).place _seat.now _regs.old _row.now }
        ensures same { result ≡ false → (_part.new ≡ _part.old) × (_regs.new ≡ _regs.old) }
    {
        false
    }

    /// Whether it is polite to do the act of a row now.
    fn yields(
        setting: &Setting,
        part: &Self::Part,
        seat: &Self::Seat,
        regs: &Regs,
        row: Self::Row,
    ) -> bool
        requires { fits setting.now part.now seat.now regs.now row }
        ensures { result ≡ (rules setting.now).yields part.now seat.now regs.now row };
}
