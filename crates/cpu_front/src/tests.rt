//! How calls begin, with steps that were worked out by hand.
ghost use Rattle.cpu_rows.specs.Laws.{AreCpuLimits};

use crate::CpuLocal;
use call_steps::{Asking, HeapStep, Local, NamesStep, Setting, Step, Target};
use cpu_rows::{CpuRow, CpuStep, Draining, Resizing, Stopping};
use size_classes::ClassTable;
use std::alloc::{AllocError, Global};
use std::process::Abort;
use std::test::Fail;
use tc_model::{Call, Config, Plan, Planned, Script};
use tc_units::{Class, CpuNo, Label, ThreadNo};

/// Four CPUs in two domains.
fn config() -> Config
    ensures { AreCpuLimits result }
{
    Config {
        cpus: 4,
        threads: 4,
        domains: 2,
        ..Config::default()
    }
}

/// A table of 16, 64 and 8192 bytes, with four CPUs in two domains.
fn setting_of(rt: &impl Abort, alloc: Global) -> Setting
    ensures { AreCpuLimits result.config }
{
    Setting {
        table: ClassTable::read(alloc, b"16,1,4\n64,1,2\n8192,1,2\n").expect(rt, "a table"),
        config: config(),
    }
}

/// Thread 3 with one call, which begins at CPU 3.
fn local_of(alloc: Global, setting: &Setting, call: Call) -> Result<CpuLocal, AllocError>
    requires { AreCpuLimits setting.now.config }
{
    let mut calls = Plan::new(alloc);
    calls.push(Planned {
        line: 5,
        call,
        moved: None,
    })?;
    let script = Script { calls };
    Local::new(alloc, setting, ThreadNo(3), script)
}

#[test]
fn a_call_begins_at_its_part(rt: HostRuntime) -> Result<(), Fail> {
    let setting = setting_of(&rt, rt.alloc());
    let label = Label(7);
    let class = Class(1);
    let cpu = CpuNo(2);
    let drain = Stopping::Drain(Draining { cpu, taken: 0 });
    let resize = Stopping::Resize(Resizing { cpu, class, cap: 9 });
    let cases = [
        (
            Call::Malloc { label, size: 17 },
            Target::Front(3),
            Step::Front(CpuRow::Cpu(CpuStep::Pop(Asking { label, size: 17 }))),
        ),
        (
            Call::Malloc { label, size: 8193 },
            Target::Heap,
            Step::Heap(HeapStep::New { label, size: 8193 }),
        ),
        (
            Call::Free { label },
            Target::Names,
            Step::Names(NamesStep::Take { label }),
        ),
        (
            Call::Release { pages: 300 },
            Target::Heap,
            Step::Heap(HeapStep::Unback { pages: 300 }),
        ),
        (
            Call::Drain { cpu },
            Target::Front(2),
            Step::Front(CpuRow::Cpu(CpuStep::Stop(drain))),
        ),
        (
            Call::Resize { cpu, class, cap: 9 },
            Target::Front(2),
            Step::Front(CpuRow::Cpu(CpuStep::Stop(resize))),
        ),
    ];
    for (call, target, step) in cases {
        let local = local_of(rt.alloc(), &setting, call)?;
        assert_eq!(rt; local.want(&setting), Some(target), "{call:?}");
        assert_eq!(rt; local.step(), step, "{call:?}");
        assert_eq!(rt;
            (local.done(), local.acts(), local.answers().len()),
            (0, 0, 0)
        );
    }
    Ok(())
}

/// Made to be tried with each of its allocations refused in turn: a thread begins with all its room, or
/// there is none.
#[test]
fn memory_that_runs_out(rt: HostRuntime) -> Result<(), Fail> {
    let Ok(table) = ClassTable::read(rt.alloc(), b"64,1,2\n") else {
        return Ok(());
    };
    let label = Label(0);
    let setting = Setting {
        table,
        config: config(),
    };
    if let Ok(local) = local_of(rt.alloc(), &setting, Call::Free { label }) {
        assert_eq!(rt; local.step(), Step::Names(NamesStep::Take { label }));
    }
    Ok(())
}
