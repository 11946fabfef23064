//! The acts at the page heap.
ghost use Rattle.std.specs.Prelude.{◌≡◌, ◌<◌, ◌-◌, ◌*◌, ◌^◌, None};
ghost use Rattle.tc_units.specs.Units.{page_bytes};
ghost use Rattle.tc_model.specs.declared.answers.Answer.TheVariants.{Block};
ghost use Rattle.holdings.specs.Runs.{address_of, run_of};
ghost use Rattle.call_steps.specs.declared.step.Step.TheVariants as does;
ghost use Rattle.call_steps.specs.declared.step.NamesStep.TheVariants as named;
ghost use Rattle.call_steps.specs.Acts.{heap_after};
ghost use Rattle.call_steps.specs.Fits.{FitsHeap};

use crate::answers::Answers;
use crate::front::FrontEnd;
use crate::local::Local;
use crate::setting::{Setting, row_of};
use crate::step::{HeapStep, MapStep, NamesStep, Step};
use page_heap::PageHeap;
use tc_model::Answer;
use tc_units::{Label, PAGE_BYTES, Run, SpanRef, addr_of, pages_for};

/// The act at the page heap that the thread does next: it asks for a run, which decides the allocation of
/// a large block, or of none; it frees a run, which decides the free of a large block; or it unbacks free
/// pages, which decides a release, whose answer is how many pages lost their backing.
pub fn act_heap<F: FrontEnd, A: Answers>(
    setting: &Setting,
    heap: &mut PageHeap,
    local: &mut Local<F, A>,
)
    requires fits { FitsHeap (F.rules setting.now).calls.rows heap.old local.old local.old.step }
    requires acts { local.old.acts < 2 ^ 64 - 1 }
    ensures heap { heap.new ≡ (heap_after (F.rules setting.now).calls heap.old local.old local.old.step).0 }
    ensures local { local.new ≡ (heap_after (F.rules setting.now).calls heap.old local.old local.old.step).1 }
{
    match local.step() {
        Step::Heap(HeapStep::New { label, size }) => match heap.new_run(pages_for(size)) {
            Some(run) => {
                local.go_deciding(block_of(run), Step::Map(MapStep::Set { label, run }));
            }
            None => local.go_deciding(Answer::NoBlock, publish_null(label)),
        },
        Step::Heap(HeapStep::NewSpan(asking)) => {
            let pages = u32::from(row_of::<F>(setting, local.regs.class).pages);
            match heap.new_run(pages) {
                Some(run) => local.go(Step::Map(MapStep::SetSpan { asking, run })),
                None => local.go_deciding(Answer::NoBlock, publish_null(asking.label)),
            }
        }
        Step::Heap(HeapStep::GiveBack { run, .. }) => {
            heap.free_run(run);
            let addr = addr_of(run.first);
            local.end_deciding(setting, Answer::Freed { addr });
        }
        Step::Heap(HeapStep::FreeSpan(onward)) => {
            let Some(span) = local.freed.take_first() else {
                unreachable!()
            };
            heap.free_run(run_of(span));
            local.clear(setting, onward);
        }
        Step::Heap(HeapStep::Unback { pages }) => {
            let pages = heap.release(pages);
            local.end_deciding(setting, Answer::Released { pages });
        }
        _ => unreachable!(),
    }
}

/// An allocation that got nothing publishes null.
fn publish_null<R: Copy>(label: Label) -> Step<R>
    ensures { result ≡ does.Names (named.Publish label None) }
{
    Step::Names(NamesStep::Publish { label, value: None })
}

/// The answer of an allocation that got a run: the block of all its bytes.
fn block_of(run: Run) -> Answer
    ensures { result ≡ Block (address_of run) (run.pages * page_bytes) }
{
    Answer::Block {
        addr: addr_of(run.first),
        len: u64::from(run.pages) * PAGE_BYTES,
    }
}

/// The run of a span.
pub(crate) fn run_of(span: SpanRef) -> Run
    ensures { result ≡ run_of span }
{
    Run {
        first: span.first,
        pages: span.pages,
    }
}
