//! What holds of CPUs and threads at every act, as definitions.
ghost use Rattle.cpu_drain.specs.Laws.{LeaveKeeps, InstructKeeps, GrowKeeps, StopKeeps, FenceKeeps, TakeKeeps, SetCapKeeps, StartKeeps, SetKeeps, InstructMoves, GrowMoves, AbortMoves, TakeMoves, RemoteMoves, InstructDoes, GrowDoes, TakeDoes};

/// Each act keeps what holds of its CPU and its thread, and leaves every other thread there not
/// current, or as it was.
pub fn acts_keep_seats()
    ensures leave { LeaveKeeps }
    ensures instruct { InstructKeeps }
    ensures grow { GrowKeeps }
    ensures stop { StopKeeps }
    ensures fence { FenceKeeps }
    ensures take { TakeKeeps }
    ensures set_cap { SetCapKeeps }
    ensures start { StartKeeps }
    ensures set { SetKeeps }
{}

/// Acts only move objects between the slots below the tops and the thread's hand.
pub fn acts_only_move()
    ensures instruct { InstructMoves }
    ensures grow { GrowMoves }
    ensures abort { AbortMoves }
    ensures take { TakeMoves }
    ensures remote { RemoteMoves }

    // Which objects those are, by the answer, and what else an act keeps.
    ensures does { InstructDoes }
    ensures grow_does { GrowDoes }
    ensures take_does { TakeDoes }
{}
