//! How the caches open and how calls begin there, worked out by hand.
ghost use Rattle.thread_cache.specs.Laws.{AreCacheLimits};

use crate::{CacheLocal, ThreadCaches};
use call_steps::{Asking, FrontEnd, HeapStep, Local, NamesStep, Setting, Step, Target};
use size_classes::ClassTable;
use std::alloc::{AllocError, Global};
use std::process::Abort;
use std::test::Fail;
use tc_model::{Call, Config, Plan, Planned, Script};
use tc_units::{Label, ThreadNo};
use thread_cache::{CacheRow, CacheSeat};

/// Four threads, with 100 bytes each at first.
fn config() -> Config
    ensures { AreCacheLimits result }
{
    Config {
        threads: 4,
        percpu: 100,
        ..Config::default()
    }
}

/// A table of 16, 64 and 8192 bytes.
fn setting_of(rt: &impl Abort, alloc: Global) -> Setting
    ensures { AreCacheLimits result.config }
{
    Setting {
        table: ClassTable::read(alloc, b"16,1,4\n64,1,2\n8192,1,2\n").expect(rt, "a table"),
        config: config(),
    }
}

/// Thread 3 with one call.
fn local_of(alloc: Global, setting: &Setting, call: Call) -> Result<CacheLocal, AllocError>
    requires { AreCacheLimits setting.now.config }
{
    let mut calls = Plan::new(alloc);
    calls.push(Planned {
        line: 5,
        call,
        moved: None,
    })?;
    let script = Script { calls };
    Local::new(alloc, setting, ThreadNo(3), script)
}

#[test]
fn each_thread_has_a_cache(rt: HostRuntime) -> Result<(), Fail> {
    let setting = setting_of(&rt, rt.alloc());
    let caches = ThreadCaches::first_parts(&setting, rt.alloc())?;
    assert_eq!(rt; caches.len(), 4);
    for cache in &caches {
        assert_eq!(rt; (cache.limit(), cache.bytes()), (100, 0));
    }
    let none = ThreadCaches::later_parts(&setting, rt.alloc())?;
    assert_eq!(rt; none.len(), 0);
    assert_eq!(rt;
        ThreadCaches::seat(&setting, ThreadNo(3)),
        CacheSeat {
            own: 3,
            caches: 4,
            victim: 0
        }
    );
    Ok(())
}

#[test]
fn a_call_begins_at_its_part(rt: HostRuntime) -> Result<(), Fail> {
    let setting = setting_of(&rt, rt.alloc());
    let label = Label(7);
    let cases = [
        (
            Call::Malloc { label, size: 17 },
            Target::Front(3),
            Step::Front(CacheRow::Pop(Asking { label, size: 17 })),
        ),
        (
            Call::Malloc { label, size: 8193 },
            Target::Heap,
            Step::Heap(HeapStep::New { label, size: 8193 }),
        ),
        (
            Call::Free { label },
            Target::Names,
            Step::Names(NamesStep::Take { label }),
        ),
        (
            Call::Release { pages: 300 },
            Target::Heap,
            Step::Heap(HeapStep::Unback { pages: 300 }),
        ),
    ];
    for (call, target, step) in cases {
        let local = local_of(rt.alloc(), &setting, call)?;
        assert_eq!(rt; local.want(&setting), Some(target), "{call:?}");
        assert_eq!(rt; local.step(), step, "{call:?}");
    }
    Ok(())
}
