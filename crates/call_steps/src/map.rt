//! The acts at the page map.
ghost use Rattle.std.specs.Prelude.{◌≡◌, ◌<◌, ◌-◌, ◌^◌, OnOk, OnErr};
ghost use Rattle.call_steps.specs.declared.step.Step.TheVariants as does;
ghost use Rattle.call_steps.specs.declared.step.MapStep.TheVariants.{Lookup};
ghost use Rattle.call_steps.specs.Acts.{map_after, found};
ghost use Rattle.call_steps.specs.Fits.{FitsMap};

use crate::answers::Answers;
use crate::front::FrontEnd;
use crate::heap::run_of;
use crate::local::Local;
use crate::setting::Setting;
use crate::step::{Freeing, Giving, HeapStep, MapStep, NamesStep, ShardStep, Step};
use page_map::PageMap;
use std::alloc::AllocError;
use tc_units::{Addr, Label, Run, SpanKind, SpanRef, addr_of, page_of};

/// A run as a span of this kind.
pub(crate) fn span_of(run: Run, kind: SpanKind) -> SpanRef
    ensures { result ≡ record { first = run.first; pages = run.pages; kind = kind } }
{
    SpanRef {
        first: run.first,
        pages: run.pages,
        kind,
    }
}

/// The act at the page map that the thread does next. Where memory is wanting, all is as before.
pub fn act_map<F: FrontEnd, A: Answers>(
    setting: &Setting,
    map: &mut PageMap,
    local: &mut Local<F, A>,
) -> Result<(), AllocError>
    requires fits { FitsMap map.old local.old local.old.step }
    requires acts { local.old.acts < 2 ^ 64 - 1 }
    ensures map { OnOk result (map.new ≡ (map_after (F.rules setting.now).calls map.old local.old local.old.step).0) }
    ensures local { OnOk result (local.new ≡ (map_after (F.rules setting.now).calls map.old local.old local.old.step).1) }
    ensures err { OnErr result ((map.new ≡ map.old) × (local.new ≡ local.old)) }
{
    match local.step() {
        Step::Map(MapStep::Set { label, run }) => {
            map.set(span_of(run, SpanKind::Large))?;
            let value = Some(addr_of(run.first));
            local.go(Step::Names(NamesStep::Publish { label, value }));
        }
        Step::Map(MapStep::SetSpan { asking, run }) => {
            map.set(span_of(run, SpanKind::Small(local.regs.class)))?;
            local.go(Step::Shard(ShardStep::AddFetch { asking, run }));
        }
        Step::Map(MapStep::Lookup { label, addr }) => match map.get(page_of(addr)) {
            Some(span) => find(setting, local, label, addr, span),
            None => unreachable!(),
        },
        Step::Map(MapStep::Clear { label, run }) => {
            map.clear(span_of(run, SpanKind::Large));
            local.go(Step::Heap(HeapStep::GiveBack { label, run }));
        }
        Step::Map(MapStep::ClearSpan(onward)) => match local.freed.as_slice().first().copied() {
            Some(span) => {
                map.clear(span);
                local.go(Step::Heap(HeapStep::FreeSpan(onward)));
            }
            None => unreachable!(),
        },
        _ => unreachable!(),
    }
    Ok(())
}

/// A free found the span that holds its address: an object comes to the hand, to be pushed, and the span
/// of a large block is to be cleared.
fn find<F: FrontEnd, A: Answers>(
    setting: &Setting,
    local: &mut Local<F, A>,
    label: Label,
    addr: Addr,
    span: SpanRef,
)
    requires acts { local.old.acts < 2 ^ 64 - 1 }
    requires step { local.old.step ≡ does.Map (Lookup label addr) }
    requires room { 0 < local.old.regs.hand.spare }
    ensures { local.new ≡ found (F.rules setting.now).calls local.old label addr span span.kind }
{
    match span.kind {
        SpanKind::Small(class) => {
            local.regs.class = class;
            local.regs.hand.push(addr);
            let freeing = Freeing { label, addr };
            let next = match F::free(setting, &local.seat, &mut local.regs, freeing) {
                Some(row) => Step::Front(row),
                None => Step::Shard(ShardStep::Give(Giving::Freed(freeing))),
            };
            local.go(next);
        }
        SpanKind::Large => {
            let run = run_of(span);
            local.go(Step::Map(MapStep::Clear { label, run }));
        }
    }
}
