//! The acts at the parts of the front-end.
ghost use Rattle.std.specs.Prelude.{◌≡◌, ◌<◌, ◌-◌, ◌^◌, true, false, OnOk, OnErr};
ghost use Rattle.call_steps.specs.Acts.{front_after, front_yields};
ghost use Rattle.call_steps.specs.Fits.{FitsFront};
ghost use Rattle.call_steps.specs.Kept.{target_at};

use crate::answers::Answers;
use crate::front::FrontEnd;
use crate::local::Local;
use crate::setting::Setting;
use crate::step::{Came, Next, Step};
use std::alloc::AllocError;

/// The act at a part of the front-end that the thread does next. Where memory is wanting, all is as before.
#[inline(always)]
pub fn act_front<F: FrontEnd, A: Answers>(
    setting: &Setting,
    part: &mut F::Part,
    local: &mut Local<F, A>,
) -> Result<(), AllocError>
    requires fits { FitsFront (F.fits setting.now) part.old local.old local.old.step }
    requires acts { local.old.acts < 2 ^ 64 - 1 }
    ensures part { OnOk result (part.new ≡ (front_after (F.rules setting.now) F.about part.old local.old local.old.step).0) }
    ensures local { OnOk result (local.new ≡ (front_after (F.rules setting.now) F.about part.old local.old local.old.step).1) }
    ensures err { OnErr result ((part.new ≡ part.old) × (local.new ≡ local.old)) }
{
    match &mut local.step {
        Step::Front(row) => {
            let mut next = Next::End;
            match F::act(
                setting,
                part,
                &mut local.seat,
                &mut local.regs,
                row,
                &mut next,
            )? {
                Came::Row => local.go_on(),
                Came::Next => local.enter(setting, &next),
            }
            Ok(())
        }
        _ => unreachable!(),
    }
}

/// The act at a part of the front-end that the thread does next, where it can be done at once and the thread stays there: else
/// nothing is done.
#[inline(always)]
pub fn stay_front<F: FrontEnd, A: Answers>(
    setting: &Setting,
    part: &mut F::Part,
    local: &mut Local<F, A>,
) -> bool
    requires fits { FitsFront (F.fits setting.now) part.old local.old local.old.step }
    requires acts { local.old.acts < 2 ^ 64 - 1 }
    ensures part { result ≡ true → part.new ≡ (front_after (F.rules setting.now) F.about part.old local.old local.old.step).0 }
    ensures local { result ≡ true → local.new ≡ (front_after (F.rules setting.now) F.about part.old local.old local.old.step).1 }
    ensures stays { result ≡ true → target_at (F.rules setting.now).place local.new local.new.step ≡ target_at (F.rules setting.now).place local.old local.old.step }
    ensures ended { result ≡ true → local.new.ended ≡ local.old.ended }
    ensures same { result ≡ false → (part.new ≡ part.old) × (local.new ≡ local.old) }
{
    match &local.step {
        Step::Front(row) => {
            let stays = F::stay(setting, part, &local.seat, &mut local.regs, row);
            if stays {
                local.go_on();
            }
            stays
        }
        _ => unreachable!(),
    }
}

/// Whether it is polite to let the thread act at a part of the front-end now.
pub fn yields<F: FrontEnd, A: Answers>(
    setting: &Setting,
    part: &F::Part,
    local: &Local<F, A>,
) -> bool
    requires { FitsFront (F.fits setting.now) part.now local.now local.now.step }
    ensures { result ≡ front_yields (F.rules setting.now) part.now local.now local.now.step }
{
    match local.step {
        Step::Front(row) => F::yields(setting, part, &local.seat, &local.regs, row),
        _ => unreachable!(),
    }
}
