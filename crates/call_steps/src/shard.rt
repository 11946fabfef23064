//! The acts at the shard of the thread's class.
ghost use Rattle.std.specs.Prelude.{◌≡◌, ◌<◌, ◌-◌, ◌^◌, [], OnOk, OnErr};
ghost use Rattle.class_shard.specs.Shard.{fetched, after_fetch, after_give, freed_by};
ghost use Rattle.holdings.specs.Runs.{small};
ghost use Rattle.rseq_core.specs.Bags.{appended};
ghost use Rattle.call_steps.specs.declared.step.Step.TheVariants as does;
ghost use Rattle.call_steps.specs.declared.step.ShardStep.TheVariants.{Fetch, AddFetch, Give};
ghost use Rattle.call_steps.specs.Local.{class_row};
ghost use Rattle.call_steps.specs.Hands.{given_back};
ghost use Rattle.call_steps.specs.ShardActs.{fetches, adds};
ghost use Rattle.call_steps.specs.Acts.{shard_after};
ghost use Rattle.call_steps.specs.Fits.{FitsBatch, FitsAdd, FitsGive, FitsShard};

use crate::answers::Answers;
use crate::front::FrontEnd;
use crate::local::Local;
use crate::map::span_of;
use crate::setting::{Setting, row_of};
use crate::step::{Asking, Giving, HeapStep, ShardStep, Step};
use class_shard::ClassShard;
use std::alloc::AllocError;
use tc_units::{Run, SpanKind};

/// The act at the shard of its class that the thread does next. Where memory is wanting, all is as before.
pub fn act_shard<F: FrontEnd, A: Answers>(
    setting: &Setting,
    shard: &mut ClassShard,
    local: &mut Local<F, A>,
) -> Result<(), AllocError>
    requires fits { FitsShard (F.rules setting.now).calls.rows shard.old local.old local.old.step }
    requires acts { local.old.acts < 2 ^ 64 - 1 }
    ensures shard { OnOk result (shard.new ≡ (shard_after (F.rules setting.now).calls shard.old local.old local.old.step).0) }
    ensures local { OnOk result (local.new ≡ (shard_after (F.rules setting.now).calls shard.old local.old local.old.step).1) }
    ensures err { OnErr result ((shard.new ≡ shard.old) × (local.new ≡ local.old)) }
{
    match local.step() {
        Step::Shard(ShardStep::Fetch(asking)) => fetch(setting, shard, local, asking),
        Step::Shard(ShardStep::AddFetch { asking, run }) => add(
            setting, shard, local, asking, run,
        )?,
        Step::Shard(ShardStep::Give(giving)) => give(setting, shard, local, giving),
        _ => unreachable!(),
    }
    Ok(())
}

/// An allocation fetches a batch, or asks for a new span.
fn fetch<F: FrontEnd, A: Answers>(
    setting: &Setting,
    shard: &mut ClassShard,
    local: &mut Local<F, A>,
    asking: Asking,
)
    requires batch { FitsBatch (F.rules setting.now).calls.rows local.old.regs }
    requires empty { local.old.regs.hand.items ≡ [] }
    requires acts { local.old.acts < 2 ^ 64 - 1 }
    requires step { local.old.step ≡ does.Shard (Fetch asking) }
    ensures shard { shard.new ≡ after_fetch (class_row (F.rules setting.now).calls.rows local.old).batch shard.old }
    ensures local { local.new ≡ fetches (F.rules setting.now).calls local.old asking (fetched (class_row (F.rules setting.now).calls.rows local.old).batch shard.old) }
{
    let class = local.regs.class;
    let batch = u32::from(row_of::<F>(setting, class).batch);
    shard.fetch(batch, &mut local.regs.hand);
    if local.regs.hand.as_slice().is_empty() {
        local.go(Step::Heap(HeapStep::NewSpan(asking)));
    } else {
        local.serve(setting, asking);
    }
}

/// An allocation adds its new span to the shard, and takes a batch of it.
fn add<F: FrontEnd, A: Answers>(
    setting: &Setting,
    shard: &mut ClassShard,
    local: &mut Local<F, A>,
    asking: Asking,
    run: Run,
) -> Result<(), AllocError>
    requires fits { FitsAdd (F.rules setting.now).calls.rows shard.old local.old run }
    requires empty { local.old.regs.hand.items ≡ [] }
    requires acts { local.old.acts < 2 ^ 64 - 1 }
    requires step { local.old.step ≡ does.Shard (AddFetch asking run) }
    ensures shard { OnOk result (shard.new ≡ (adds (F.rules setting.now).calls shard.old local.old asking (small local.old.regs.class run)).0) }
    ensures local { OnOk result (local.new ≡ (adds (F.rules setting.now).calls shard.old local.old asking (small local.old.regs.class run)).1) }
    ensures err { OnErr result ((shard.new ≡ shard.old) × (local.new ≡ local.old)) }
{
    let class = local.regs.class;
    let batch = u32::from(row_of::<F>(setting, class).batch);
    let span = span_of(run, SpanKind::Small(class));
    shard.add_fetch(span, batch, &mut local.regs.hand)?;
    local.serve(setting, asking);
    Ok(())
}

/// The hand is given to the shard.
fn give<F: FrontEnd, A: Answers>(
    setting: &Setting,
    shard: &mut ClassShard,
    local: &mut Local<F, A>,
    giving: Giving<F::Row>,
)
    requires fits { FitsGive shard.old local.old }
    requires acts { local.old.acts < 2 ^ 64 - 1 }
    requires step { local.old.step ≡ does.Shard (Give giving) }
    ensures shard { shard.new ≡ after_give local.old.regs.hand.items shard.old }
    ensures local { local.new ≡ given_back (F.rules setting.now).calls local.old giving (appended local.old.freed (freed_by local.old.regs.hand.items shard.old)) }
{
    shard.give(local.regs.hand.as_slice(), &mut local.freed);
    local.regs.hand.clear();
    local.go_on_behind(setting, giving);
}
