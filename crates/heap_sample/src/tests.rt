//! Profiles that were worked out by hand.
ghost use Rattle.std.specs.Prelude.{◌≡◌, ◌<◌, ◌≤◌, All, length};
ghost use Rattle.tc_model.specs.declared.calls.Call.{Call};
ghost use Rattle.tc_model.specs.declared.answers.Answer.{Answer};
ghost use Rattle.heap_sample.specs.Samples.{most_calls};
ghost use Rattle.heap_sample.specs.Profiles.{AreFirstUses};

use crate::{Peak, ProfileRow, profile_of, push_profile_of, thread_law};
use std::alloc::{AllocError, Global};
use std::process::Abort;
use std::test::Fail;
use tc_model::{Answer, Call, CallLine};
use tc_units::{Addr, Label, ThreadNo};

/// A call of a thread, with its answer.
fn line(thread: u8, call: Call, answer: Answer) -> CallLine
    ensures { result ≡ record { thread = record { 0 = thread }; call = call; answer = answer } }
{
    CallLine {
        thread: ThreadNo(thread),
        call,
        answer,
    }
}

/// An allocation.
fn malloc(label: u32, size: u64) -> Call
    ensures { result ≡ Call.Malloc (record { 0 = label }) size }
{
    Call::Malloc {
        label: Label(label),
        size,
    }
}

fn free(label: u32) -> Call
    ensures { result ≡ Call.Free (record { 0 = label }) }
{
    Call::Free {
        label: Label(label),
    }
}

/// The answer of so many bytes, at an address that no profile looks at.
fn block(len: u64) -> Answer {
    Answer::Block {
        addr: Addr(2097152),
        len,
    }
}

const FREED: Answer = Answer::Freed {
    addr: Addr(2097152),
};

/// Asserts the text of a profile, as it is told by the profile and by the calls.
fn assert_text(
    rt: &impl Abort,
    alloc: Global,
    lines: &[CallLine],
    step: u64,
    text: &str,
) -> Result<(), AllocError>
    requires some { 0 < step }
    requires few { length lines.now ≤ most_calls }
    requires threads { All (λ c. c.thread.0 < 64) lines.now }
    requires labels { AreFirstUses lines.now }
{
    let profile = profile_of(alloc, lines, step, 64)?;
    assert_eq!(rt; profile.text()?.as_slice(), text.as_bytes());
    let mut printed = Vec::new(alloc);
    push_profile_of(&mut printed, &profile)?;
    assert_eq!(rt; printed.as_slice(), text.as_bytes());
    Ok(())
}

#[test]
fn each_step_of_bytes_gives_a_sample(rt: HostRuntime) -> Result<(), Fail> {
    let alloc = rt.alloc();
    let lines = [
        line(0, malloc(0, 16), block(16)),
        line(0, malloc(1, 16), block(16)),
        line(0, malloc(2, 64), block(64)),
        line(0, free(1), FREED),
    ];
    assert_text(&rt, alloc, &[], 32, "peak 0 0\n")?;
    // The sums 16, 32 and 96 pass 0, 1 and 3 steps of 32: label 1 stands for 32 bytes until it is freed,
    // and label 2 for 64.
    assert_text(&rt, alloc, &lines, 32, "s 64 1 64\npeak 96 3\n")?;
    // With a step of one byte, each block stands for itself.
    assert_text(&rt, alloc, &lines, 1, "s 16 1 16\ns 64 1 64\npeak 96 3\n")?;
    assert_text(&rt, alloc, &lines, 97, "peak 0 0\n")?;
    thread_law();
    Ok(())
}

#[test]
fn threads_have_sums_of_their_own(rt: HostRuntime) -> Result<(), Fail> {
    let alloc = rt.alloc();
    let most = 1 << 40;
    let lines = [
        line(63, malloc(0, 60), block(64)),
        line(0, malloc(1, 60), block(64)),
        line(63, malloc(2, 60), block(64)),
        line(63, free(0), FREED),
        line(0, malloc(3, 7), Answer::NoBlock),
        line(0, free(3), Answer::FreedNull),
        line(0, free(2), FREED),
        line(0, malloc(4, 60), block(64)),
        line(1, malloc(5, most), block(most)),
    ];
    // Of steps of 100 bytes, thread 63 passes one at label 2, thread 0 one at label 4, and thread 1 so many
    // whole ones in 2 to the power of 40: 10995116277.
    assert_text(
        &rt,
        alloc,
        &lines,
        100,
        "s 64 1 100\ns 1099511627776 1 1099511627700\npeak 1099511627800 9\n",
    )?;
    // Without the last call, the peak of 100 bytes is reached behind the third call, and again at the eighth.
    assert_text(&rt, alloc, &lines[..8], 100, "s 64 1 100\npeak 100 3\n")?;
    Ok(())
}

/// Made to be tried with each of its allocations refused in turn: a profile comes whole, or not at all.
#[test]
fn memory_that_runs_out(rt: HostRuntime) -> Result<(), Fail> {
    let lines = [
        line(0, malloc(0, 8), block(8)),
        line(0, malloc(1, 16), block(16)),
    ];
    let rows = [
        ProfileRow {
            len: 8,
            blocks: 1,
            bytes: 8,
        },
        ProfileRow {
            len: 16,
            blocks: 1,
            bytes: 16,
        },
    ];
    if let Ok(profile) = profile_of(rt.alloc(), &lines, 8, 1) {
        assert_eq!(rt; profile.rows(), rows.as_slice());
        assert_eq!(rt; profile.peak(), Peak { bytes: 24, call: 2 });
    }
    Ok(())
}
