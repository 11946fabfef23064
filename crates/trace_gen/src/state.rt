//! The state of a generator, and the lines that its draws give.
ghost use Rattle.std.specs.Prelude.{◌≡◌, ◌+◌, ◌/◌, ◌%◌, ◌==◌, ◌<◌, ◌≤◌, [], ◌∷◌, ◌++◌, option_to_list, IfOk, OnOk, length, if◌then◌else◌};
ghost use Rattle.trace_gen.specs.Draws.{draw};

use crate::kind::Kind;
use std::alloc::{AllocError, Global};
use std::marker::Model;
use trace_reader::Form;

/// The number behind which the next draw comes, the live labels, and the next label.
#[derive(Drop)]
pub struct Generator {
    number: u32,
    live: Vec<u32>,
    next: u32,
}

impl Model for Generator {
    ghost use Rattle.trace_gen.specs.Generated.{State};

    ghost Value = { State };

    ghost view = { λ g. record { number = g.number; live = g.live.items; next = g.next } };
}

impl Generator {
    ghost use Rattle.trace_gen.specs.Generated.{State, drawn, kind_of, size_of, freed_place, call_line, after_call, next_kind, preempting, at_call, lines_of, cpus_of};

    /// A generator at a seed, without labels.
    pub fn new(alloc: Global, seed: u32) -> Self
        ensures { result ≡ record { number = seed; live = []; next = 0 } }
    {
        Generator {
            number: seed,
            live: Vec::new(alloc),
            next: 0,
        }
    }

    /// Draws a number: 0 to 32767.
    fn draw(&mut self) -> u64
        ensures value { result ≡ draw 0 self.old.number }
        ensures below { result < 32768 }
        ensures after { self.new ≡ drawn 1 self.old }
    {
        let number = (u64::from(self.number) * 1103515245 + 12345) % 2147483648;
        self.number = number as u32;
        number / 65536
    }

    /// The kind of call that a number from 0 to 99 stands for.
    fn kind(&self, chance: u64) -> Kind
        ensures { result ≡ kind_of chance self.now.live }
    {
        match chance {
            0..45 if !self.live.is_empty() => Kind::Free,
            98 => Kind::Drain,
            99 => Kind::Release,
            _ => Kind::Malloc,
        }
    }

    /// Draws the bytes of a request.
    fn size(&mut self) -> u64
        ensures size { result ≡ size_of (draw 0 self.old.number % 16) (draw 1 self.old.number) }
        ensures after { self.new ≡ drawn 2 self.old }
    {
        let scale = self.draw() % 16;
        let drawn = self.draw();
        match scale {
            0..12 => drawn % 1024 + 1,
            15 => drawn * 16,
            _ => drawn,
        }
    }

    /// Takes the next label for an allocation.
    fn malloc(&mut self, thread: u64) -> Result<Form, AllocError>
        requires { self.old.next < 4294967295 }
        ensures line { IfOk result (λ l. l ≡ call_line 1 thread Kind.Malloc self.old) }
        ensures after { OnOk result (self.new ≡ after_call Kind.Malloc self.old) }
    {
        let label = self.next;
        let size = self.size();
        self.live.push(label)?;
        self.next += 1;
        Ok(Form::Malloc {
            thread,
            label: u64::from(label),
            size,
        })
    }

    /// Frees a live label.
    fn free(&mut self, thread: u64) -> Form
        requires { 0 < length self.old.live }
        ensures line { result ≡ call_line 1 thread Kind.Free self.old }
        ensures after { self.new ≡ after_call Kind.Free self.old }
    {
        let place = self.draw() as usize % self.live.len();
        let label = u64::from(self.live.swap_remove(place));
        Form::Free { thread, label }
    }

    /// Preempts every tenth call before one of its first eight instructions.
    fn preemption(&mut self, i: u64, thread: u64, cpus: u64) -> Option<Form>
        requires { 0 < cpus }
        ensures line { result ≡ preempting cpus thread i self.old }
        ensures after { self.new ≡ (if i % 10 == 9 then drawn 2 self.old else self.old) }
    {
        if i % 10 != 9 {
            return None;
        }
        let before = self.draw() % 8 + 1;
        let cpu = self.draw() % cpus;
        Some(Form::Move {
            thread,
            before,
            cpu,
        })
    }

    /// Makes the line of a call.
    fn call(&mut self, kind: Kind, thread: u64, cpus: u64) -> Result<Form, AllocError>
        requires cpus { 0 < cpus }
        requires next { self.old.next < 4294967295 }
        requires live { kind ≡ Kind.Free → 0 < length self.old.live }
        ensures line { IfOk result (λ l. l ≡ call_line cpus thread kind self.old) }
        ensures after { OnOk result (self.new ≡ after_call kind self.old) }
    {
        Ok(match kind {
            Kind::Malloc => self.malloc(thread)?,
            Kind::Free => self.free(thread),
            Kind::Drain => Form::Drain {
                thread,
                cpu: self.draw() % cpus,
            },
            Kind::Release => Form::Release {
                thread,
                pages: self.draw() % 1000,
            },
        })
    }

    /// Makes the lines of call `i`: the line of its preemption, if it has one, and its own.
    pub fn step(
        &mut self,
        i: u64,
        cpus: u64,
        threads: u64,
    ) -> Result<(Option<Form>, Form), AllocError>
        requires threads { 0 < threads }
        requires cpus { cpus ≡ cpus_of threads }
        requires next { self.old.next < 4294967295 }
        ensures lines { IfOk result
            (λ r. option_to_list r.0 ++ r.1 ∷ [] ≡ lines_of threads i self.old) }
        ensures after { OnOk result (self.new ≡ after_call (next_kind self.old) (at_call i self.old)) }
    {
        let thread = self.draw() % threads;
        let chance = self.draw() % 100;
        let kind = self.kind(chance);
        let preemption = self.preemption(i, thread, cpus);
        let call = self.call(kind, thread, cpus)?;
        Ok((preemption, call))
    }
}
