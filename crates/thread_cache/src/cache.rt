//! The cache of a thread: its free objects by size class, and the limit on their bytes.
ghost use Rattle.std.specs.Prelude.{◌≡◌, ℕ, ◌+◌, ◌-◌, ◌*◌, ◌<◌, ◌≤◌, ◌^◌, ◌↔◌, Bool, [], ◌++◌, All, length, map, min, take, count_by, IfOk, OnOk, OnErr, IsNone};
ghost use Rattle.std.specs.Option.{option_to_list};
ghost use Rattle.tc_units.specs.declared.units.Addr.{Addr};
ghost use Rattle.transfer_cache.specs.Transfer.{last_first};
ghost use Rattle.thread_cache.specs.Cache.{bytes, empty_stack, stack_at, objects_of, opened, fitting, added, trimmed, given, lowered, raised};

use crate::stack::Stack;
use std::alloc::{AllocError, Global};
use std::marker::Model;
use tc_units::{Addr, Bag, Class, ClassRow};

/// Free objects for each class of a table, which one thread puts in and takes out, and a limit on their
/// bytes. What the limit leaves unused may be given up to another cache.
#[derive(Drop)]
pub struct CachePart {
    stacks: Vec<Stack>,
    limit: u64,
    /// The bytes of all objects.
    bytes: u64,
}

impl Model for CachePart {
    ghost use Rattle.thread_cache.specs.Cache.{Cache, IsCounted};

    ghost Value = { Cache };

    ghost view = { λ c. record { stacks = c.stacks.items; limit = c.limit } };

    ghost invariant = { λ c. IsCounted c.stacks.items c.limit c.bytes };
}

/// A list without objects for each class.
fn stacks_of(alloc: Global, rows: &[ClassRow]) -> Result<Vec<Stack>, AllocError>
    requires { All (λ row. 0 < row.size) rows.now }
    ensures { IfOk result (λ stacks. stacks.items ≡ map empty_stack rows.now) }
{
    let mut stacks = Vec::new(alloc);
    for row in rows {
        stacks.push(Stack::new(alloc, row.size))?;
    }
    Ok(stacks)
}

impl CachePart {
    /// An empty cache for the classes of a table, with a limit in bytes.
    pub fn open(alloc: Global, rows: &[ClassRow], limit: u64) -> Result<Self, AllocError>
        requires { All (λ row. 0 < row.size) rows.now }
        ensures { IfOk result (λ cache. cache ≡ opened rows.now limit) }
    {
        Ok(CachePart {
            stacks: stacks_of(alloc, rows)?,
            limit,
            bytes: 0,
        })
    }

    /// The limit on its bytes.
    pub fn limit(&self) -> u64
        ensures { result ≡ self.now.limit }
    {
        self.limit
    }

    /// The bytes of its objects: their sizes' sum, which is within the limit.
    pub fn bytes(&self) -> u64
        ensures bytes { result ≡ bytes self.now }
        ensures within { result ≤ self.now.limit }
    {
        self.bytes
    }

    /// Takes the last object of a class out. `None` exactly where it has none.
    pub fn pop(&mut self, class: Class) -> Option<Addr>
        requires { class.0 < length self.old.stacks }
        ensures popped { option_to_list result ≡ last_first 1 (objects_of self.old class.0) }
        ensures none { IsNone result ↔ (objects_of self.old class.0 ≡ []) }
        ensures left { self.new ≡ trimmed self.old class.0 1 }
        ensures order { objects_of self.old class.0 ≡ objects_of self.new class.0 ++ option_to_list result }
    {
        let stack = &mut self.stacks[usize::from(class.0)];
        let size = stack.size();
        let popped = stack.pop();
        if popped.is_some() {
            self.bytes -= size;
        }
        popped
    }

    /// Appends the longest prefix of a list of objects of a class that keeps the bytes within the limit, and
    /// says how many those are. Where memory is wanting, all is as before.
    pub fn add(&mut self, class: Class, list: &[Addr]) -> Result<u32, AllocError>
        requires class { class.0 < length self.old.stacks }
        requires short { length list.now < 2 ^ 32 }
        ensures count { IfOk result (λ n. n ≡ fitting self.old class.0 (length list.now)) }
        ensures added { OnOk result (self.new ≡ added self.old class.0 list.now) }
        ensures most { IfOk result (λ n. n < length list.now → self.old.limit < bytes self.new + (stack_at self.old class.0).size) }
        ensures err { OnErr result (self.new ≡ self.old) }
    {
        let unused = self.limit - self.bytes;
        let stack = &mut self.stacks[usize::from(class.0)];
        let count = (unused / stack.size()).min(list.len() as u64);
        stack.append(&list[..count as usize])?;
        self.bytes += count * stack.size();
        Ok(count as u32)
    }

    /// Lowers the limit by its unused part, or by `most` where that is less, and says by how much.
    pub fn give_up(&mut self, most: u64) -> u64
        ensures given { result ≡ given self.old most }
        ensures lowered { self.new ≡ lowered self.old most }
    {
        let given = most.min(self.limit - self.bytes);
        self.limit -= given;
        given
    }

    /// Raises the limit.
    pub fn raise(&mut self, n: u64)
        requires { self.old.limit + n < 2 ^ 64 }
        ensures { self.new ≡ raised self.old n }
    {
        self.limit += n;
    }

    /// Takes the last `n` objects of a class out, or all where it has fewer, and appends them to `out`, last
    /// first. Says how many came.
    pub fn trim(&mut self, class: Class, n: u32, out: &mut Bag<Addr>) -> u32
        requires class { class.0 < length self.old.stacks }
        requires room { n ≤ out.old.spare }
        ensures count { result ≡ min n (length (objects_of self.old class.0)) }
        ensures left { self.new ≡ trimmed self.old class.0 n }
        ensures out { out.new.items ≡ out.old.items ++ last_first n (objects_of self.old class.0) }
        ensures spare { out.new.spare + result ≡ out.old.spare }
    {
        let stack = &mut self.stacks[usize::from(class.0)];
        let size = stack.size();
        let count = stack.take(n, out);
        self.bytes -= u64::from(count) * size;
        count
    }
}
