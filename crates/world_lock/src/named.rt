//! What a locked state is a run of, as a type says it.
use std::marker::Brand;

/// Names an input. Of a value under a lock nothing is known but its type, so the type says what the state
/// there is a run of. Whoever has a state picks its input by a call of a function with this parameter.
pub trait Named {
    ghost use Rattle.tc_model.specs.Input.{Input};

    ghost input: { Input };
}

impl Named for Brand {
    ghost use Rattle.world_lock.specs.Locked.{empty_input};

    ghost input = { empty_input };
}
