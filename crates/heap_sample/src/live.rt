//! The live samples, by label and by length.
ghost use Rattle.std.specs.Prelude.{◌≡◌, ℕ, ◌+◌, ◌^◌, ◌<◌, ◌==◌, not, [], ◌∷◌, OnOk, OnErr, filter, length};
ghost use Rattle.heap_sample.specs.Samples.{weight_in, AreSame, HasLabel};
ghost use Rattle.heap_sample.specs.Rows.{IsRowsOf};

use crate::rows::Rows;
use crate::sample::{ProfileRow, Sample};
use std::alloc::{AllocError, Global};
use std::collections::HashMap;
use std::marker::Model;
use tc_units::Label;

/// Live samples. Contracts see them with their labels, in any order.
#[derive(Drop)]
pub struct LiveSamples {
    samples: HashMap<u32, Sample>,
    rows: Rows,
    weight: u64,
}

impl Model for LiveSamples {
    ghost use Rattle.std.specs.Prelude.{◌≡◌, List, ℕ};
    ghost use Rattle.std.specs.HashMap.{IsUnique};
    ghost use Rattle.std.specs.Prelude.{nat_eq};
    ghost use Rattle.heap_sample.specs.declared.sample.Sample.{Sample};
    ghost use Rattle.heap_sample.specs.Samples.{weight_in};
    ghost use Rattle.heap_sample.specs.Rows.{CountSamples};

    ghost Value = { List (ℕ × Sample) };

    ghost view = { λ l. l.samples.entries };

    ghost invariant = { λ l. CountSamples l.samples.entries l.rows × (l.weight ≡ weight_in l.samples.entries) × IsUnique nat_eq l.samples };
}

impl LiveSamples {
    /// No samples.
    pub fn new(alloc: Global) -> Self
        ensures { result ≡ [] }
    {
        LiveSamples {
            samples: HashMap::new(alloc),
            rows: Rows::new(alloc),
            weight: 0,
        }
    }

    /// How many bytes of requests the samples stand for, together.
    pub fn weight(&self) -> u64
        ensures { result ≡ weight_in self.now }
    {
        self.weight
    }

    /// The samples by rising length.
    pub fn rows(&self) -> &[ProfileRow]
        ensures { IsRowsOf self.now result.now }
    {
        self.rows.as_slice()
    }

    /// Notes a sample under a label that has none. Where memory is wanting, all is as before.
    pub fn note(&mut self, label: Label, sample: Sample) -> Result<(), AllocError>
        requires fresh { ¬ (HasLabel self.old label.0) }
        requires few { length self.old + 1 < 2 ^ 64 }
        requires fits { weight_in self.old + sample.weight < 2 ^ 64 }
        ensures samples { OnOk result (AreSame self.new ((label.0, sample) ∷ self.old)) }
        ensures err { OnErr result (self.new ≡ self.old) }
    {
        self.rows.note(sample)?;
        if self.samples.insert(label.0, sample).is_err() {
            self.rows.forget(sample);
            return Err(AllocError);
        }
        self.weight += sample.weight;
        Ok(())
    }

    /// Forgets the sample of a label, where there is one.
    pub fn forget(&mut self, label: Label)
        ensures { AreSame self.new (filter (λ s. not (label.0 == s.0)) self.old) }
    {
        if let Some(sample) = self.samples.remove(&label.0) {
            self.rows.forget(sample);
            self.weight -= sample.weight;
        }
    }
}
