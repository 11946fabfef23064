//! The allocator over a front-end is opened.
ghost use Rattle.std.specs.Prelude.{◌≡◌};

use crate::allocator::{Allocator, Opened};
use crate::machine::AllocMachine;
use crate::opening::{locals_of, parts_of};
use alloc_rules::LawfulFront;
use call_steps::{Answers, Setting};
use size_classes::ClassTable;
use std::alloc::{AllocError, Global};
use std::marker::PhantomData;
use std::snapshot::Snapshot;
use tc_model::Call;
use trace_reader::Trace;

impl<F: LawfulFront, A: Answers> Allocator for AllocMachine<F, A> {
    ghost use Rattle.std.specs.Prelude.{◌≡◌};
    ghost use Rattle.std.proofs.Common.{refl};
    ghost use Rattle.alloc_rules.specs.Inputs.{setting_of};
    ghost use Rattle.alloc_rules.specs.Law.{AreLawful};
    ghost use Rattle.tc_machine.specs.Inputs.{input_under};
    ghost use Rattle.tc_machine.specs.Machines.{rules_in};
    ghost use Rattle.alloc_rules.specs.Lawful.{IsLawfulOrder};
    ghost use Rattle.tc_machine.specs.Finish.{finished_in};
    ghost use Rattle.alloc_rules.proofs.Orders.{locals_count, lawful_run};

    type Options = ();

    ghost input = { λ m. input_under m.setting m.trace.value };

    ghost options = { λ m. tt };

    ghost rules_of = { λ options. rules_in F.rules F.about };

    ghost arena = { λ options input. input.asked.config.huge };

    ghost same_rules = { λ m. refl };

    ghost same_turns = { λ m. refl };

    ghost as_many = { λ m. locals_count (F.rules m.setting) F.about (input_under m.setting m.trace.value).asked };

    ghost takes = { F.takes };

    ghost lawful = { λ options input. IsLawfulOrder (rules_in F.rules F.about input) (AreLawful (F.rules (setting_of input)) F.about input.asked (F.fits (setting_of input)) (F.after input)) (F.after input) input.asked.config.events };

    ghost is_lawful = { λ m order moves few. lawful_run (F.rules m.setting) F.about (input_under m.setting m.trace.value).asked (F.fits m.setting) (F.after (input_under m.setting m.trace.value)) (F.lawful (input_under m.setting m.trace.value) m.valid m.taken) m.few order moves few };

    ghost is_few = { λ options input order law. law.few };

    ghost told = { λ options input. finished_in (F.rules (setting_of input)) F.about input.asked };

    fn can_take(call: Call) -> bool {
        F::can_take(call)
    }

    fn open(
        alloc: Global,
        _chosen: (),
        table: ClassTable,
        trace: Trace,
    ) -> Result<Opened<AllocMachine<F, A>>, AllocError> {
        let seen = Snapshot::of(&trace);
        let Trace {
            config,
            scripts,
            turns,
            labels,
        } = trace;
        let setting = Setting { table, config };
        let parts = parts_of::<F>(&setting, alloc, labels)?;
        let locals = locals_of::<F, A>(&setting, alloc, scripts.into_vec())?;
        let machine = AllocMachine {
            setting,
            turns,
            trace: seen,
            of: PhantomData,
            answers: PhantomData,
        };
        Ok(Opened {
            machine,
            parts,
            locals,
        })
    }

    fn threads(&self) -> u8 {
        self.setting.config.threads
    }

    fn most_picks(&self) -> u64 {
        self.setting.config.events
    }
}
