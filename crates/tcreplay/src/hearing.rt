//! What hears the calls of a run: their lines, and their sampled profile.
use heap_sample::Profile;
use std::alloc::AllocError;
use tc_machine::Listener;
use tc_model::CallLine;
use usage_report::push_call_line;

/// A text that gets the lines of calls.
#[derive(Drop)]
pub struct Lines {
    pub text: Vec<u8>,
}

impl Listener for Lines {
    ghost use Rattle.std.specs.Prelude.{◌≡◌, ◌++◌, All, ⊤};
    ghost use Rattle.std.specs.List.{flat_map};
    ghost use Rattle.usage_report.specs.Report.{call_line, IsTellable};

    ghost heard = { λ before lines calls. (lines.text.items ≡ before.text.items ++ flat_map call_line calls) × All IsTellable calls };

    ghost may_hear = { λ before earlier line. ⊤ };

    #[inline(always)]
    fn hear(&mut self, line: &CallLine) -> Result<(), AllocError> {
        push_call_line(&mut self.text, line)?;
        Ok(())
    }
}

/// Keeps nothing of the calls.
#[derive(Drop)]
pub struct Ignored;

impl Listener for Ignored {
    ghost use Rattle.std.specs.Prelude.{⊤};

    ghost heard = { λ before ignored calls. ⊤ };

    ghost may_hear = { λ before earlier line. ⊤ };

    fn hear(&mut self, _line: &CallLine) -> Result<(), AllocError> {
        Ok(())
    }
}

/// A profile that notes the calls.
#[derive(Drop)]
pub struct Sampled {
    pub profile: Profile,
}

impl Listener for Sampled {
    ghost use Rattle.tcreplay.specs.Hearing.{HasSampled, MaySample};

    ghost heard = { λ before sampled. HasSampled before.profile sampled.profile };

    ghost may_hear = { λ before. MaySample before.profile };

    fn hear(&mut self, line: &CallLine) -> Result<(), AllocError> {
        self.profile.add_next(line)
    }
}
