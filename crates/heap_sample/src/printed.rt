//! The printed profile of some calls.
ghost use Rattle.std.specs.Prelude.{◌≡◌, ◌++◌, List, OnOk};
ghost use Rattle.tc_model.specs.declared.answers.CallLine.{CallLine};
ghost use Rattle.heap_sample.specs.Profiles.{IsProfileOf};
ghost use Rattle.heap_sample.specs.Lines.{profile_of_calls};

use crate::profile::Profile;
use crate::text::push_profile;
use std::alloc::AllocError;

/// Appends the text of a profile, which is that of the calls whose profile it is.
pub fn push_profile_of(text: &mut Vec<u8>, profile: &Profile) -> Result<(), AllocError>
    ensures { OnOk result ((calls : List CallLine) → IsProfileOf calls profile.now → text.new.items ≡ text.old.items ++ profile_of_calls profile.now.step calls) }
{
    push_profile(text, profile.rows(), profile.peak())
}
