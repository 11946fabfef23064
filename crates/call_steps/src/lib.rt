//! What a thread does for its calls, one act at a time: each act is one row of the call programs, on one
//! part.
#![tactic(auto)]

mod acts;
mod answers;
mod front;
mod hands;
mod heap;
mod local;
mod map;
mod names;
mod setting;
mod shard;
mod step;

pub use acts::{act_front, stay_front, yields};
pub use answers::Answers;
pub use front::FrontEnd;
pub use heap::act_heap;
pub use local::Local;
pub use map::act_map;
pub use names::{act_names, waits};
pub use setting::Setting;
pub use shard::act_shard;
pub use step::{
    Asking, Came, Freeing, Giving, HeapStep, MapStep, NamesStep, Next, Onward, Serving, ShardStep,
    Step, Target,
};
