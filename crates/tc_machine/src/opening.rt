//! The parts and the locals with which a run begins.
ghost use Rattle.std.specs.Prelude.{◌≡◌, ◌≤◌, ◌++◌, length, map, IfOk, OnOk};
ghost use Rattle.size_classes.specs.Rows.{IsTable};
ghost use Rattle.trace_reader.specs.Valid.{IsConfig};
ghost use Rattle.alloc_rules.specs.declared.part.Part.TheVariants as part;
ghost use Rattle.alloc_rules.specs.Machine.{heap_config, first_shards, middle_of, parts_of};
ghost use Rattle.tc_machine.specs.Opening.{parts_at, locals_at};

use alloc_rules::Part;
use call_steps::{Answers, FrontEnd, Local, Setting};
use class_shard::ClassShard;
use name_table::NameTable;
use page_heap::{HeapConfig, PageHeap};
use page_map::PageMap;
use std::alloc::{AllocError, Global};
use tc_model::{Config, Script};
use tc_units::{Class, ThreadNo};

/// The limits of the page heap of a trace.
fn heap_limits(config: &Config) -> HeapConfig
    ensures { result ≡ heap_config config.now }
{
    HeapConfig {
        huge: config.huge,
        cache: config.cache,
        region: config.region,
        slack: config.slack,
        window: config.window,
    }
}

/// Parts of the front-end.
fn add_fronts<P: Drop>(fronts: Vec<P>, parts: &mut Vec<Part<P>>) -> Result<(), AllocError>
    ensures { OnOk result (parts.new.items ≡ parts.old.items ++ map part.Front fronts.items) }
{
    for front in fronts {
        parts.push(Part::Front(front))?;
    }
    Ok(())
}

/// A shard for each class, without objects.
fn add_shards<P: Drop>(
    setting: &Setting,
    alloc: Global,
    parts: &mut Vec<Part<P>>,
) -> Result<(), AllocError>
    ensures parts { OnOk result (parts.new.items ≡ parts.old.items ++ map part.Shard (first_shards setting.now.config.transfer 0 setting.now.table)) }
    ensures table { OnOk result (IsTable setting.now.table) }
{
    let classes = setting.table.rows().len();
    for class in 0..classes {
        let class = Class(class as u8);
        let row = setting.table.row(class);
        let shard = ClassShard::open(alloc, class, row, setting.config.transfer)?;
        parts.push(Part::Shard(shard))?;
    }
    Ok(())
}

/// An empty heap, an empty page map, and labels without meaning.
fn add_middle<F: FrontEnd>(
    setting: &Setting,
    alloc: Global,
    labels: u32,
    parts: &mut Vec<Part<F::Part>>,
) -> Result<(), AllocError>
    requires { IsConfig setting.now.config }
    ensures { OnOk result (parts.new.items ≡ parts.old.items ++ middle_of (parts_at (F.rules setting.now) F.about setting.now.config labels)) }
{
    let config = &setting.config;
    parts.push(Part::Heap(PageHeap::open(alloc, &heap_limits(config))?))?;
    parts.push(Part::Map(PageMap::open(alloc, config.huge)?))?;
    parts.push(Part::Names(NameTable::open(alloc, labels)?))?;
    Ok(())
}

/// All parts at their start, by their numbers.
pub fn parts_of<F: FrontEnd>(
    setting: &Setting,
    alloc: Global,
    labels: u32,
) -> Result<Vec<Part<F::Part>>, AllocError>
    requires config { IsConfig setting.now.config }
    requires opens { F.can_open setting.now }
    ensures parts { IfOk result (λ parts. parts.items ≡ parts_of (F.rules setting.now).split (parts_at (F.rules setting.now) F.about setting.now.config labels)) }
    ensures table { OnOk result (IsTable setting.now.table) }
{
    let mut parts = Vec::new(alloc);
    add_fronts(F::first_parts(setting, alloc)?, &mut parts)?;
    add_shards(setting, alloc, &mut parts)?;
    add_middle::<F>(setting, alloc, labels, &mut parts)?;
    add_fronts(F::later_parts(setting, alloc)?, &mut parts)?;
    Ok(parts)
}

/// A thread for each script.
pub(crate) fn locals_of<F: FrontEnd, A: Answers>(
    setting: &Setting,
    alloc: Global,
    scripts: Vec<Script>,
) -> Result<Vec<Local<F, A>>, AllocError>
    requires few { length scripts.items ≤ 64 }
    requires opens { F.can_open setting.now }
    ensures { IfOk result (λ locals. locals.items ≡ locals_at (F.rules setting.now) F.about scripts.items) }
{
    let mut locals = Vec::new(alloc);
    for script in scripts {
        let thread = ThreadNo(locals.len() as u8);
        locals.push(Local::new(alloc, setting, thread, script)?)?;
    }
    Ok(locals)
}
