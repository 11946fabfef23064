//! The acts at the names.
ghost use Rattle.std.specs.Prelude.{◌≡◌, ◌<◌, ◌-◌, ◌^◌};
ghost use Rattle.tc_model.specs.Steps.{acted};
ghost use Rattle.call_steps.specs.Acts.{names_after, waits_for};
ghost use Rattle.call_steps.specs.Fits.{FitsNames};

use crate::answers::Answers;
use crate::front::FrontEnd;
use crate::local::Local;
use crate::setting::Setting;
use crate::step::{MapStep, NamesStep, Step};
use name_table::{NameTable, Taken};
use tc_model::{Acted, Answer};

/// The act at the names that the thread does next. `NotYet` exactly where it takes a label that isn't
/// published, and then nothing changes.
pub fn act_names<F: FrontEnd, A: Answers>(
    setting: &Setting,
    names: &mut NameTable,
    local: &mut Local<F, A>,
) -> Acted
    requires fits { FitsNames names.old local.old.step }
    requires acts { local.old.acts < 2 ^ 64 - 1 }
    ensures names { names.new ≡ (names_after (F.rules setting.now).calls names.old local.old local.old.step).0 }
    ensures local { local.new ≡ (names_after (F.rules setting.now).calls names.old local.old local.old.step).1 }
    ensures answer { result ≡ acted (waits_for names.old local.old.step) }
{
    match local.step() {
        Step::Names(NamesStep::Publish { label, value }) => {
            names.publish(label, value);
            local.end(setting);
            Acted::Moved
        }
        Step::Names(NamesStep::Take { label }) => match names.take(label) {
            Taken::Set(None) => {
                local.end_deciding(setting, Answer::FreedNull);
                Acted::Moved
            }
            Taken::Set(Some(addr)) => {
                local.go(Step::Map(MapStep::Lookup { label, addr }));
                Acted::Moved
            }
            Taken::NotYet => Acted::NotYet,
        },
        _ => unreachable!(),
    }
}

/// Whether the thread's next act takes a label that isn't published.
pub fn waits<F: FrontEnd, A: Answers>(names: &NameTable, local: &Local<F, A>) -> bool
    requires { FitsNames names.now local.now.step }
    ensures { result ≡ waits_for names.now local.now.step }
{
    match local.step() {
        Step::Names(NamesStep::Take { label }) => !names.is_published(label),
        _ => false,
    }
}
