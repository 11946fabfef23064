//! The numbers of one class of a slab, and the class that has most capacity unused.
ghost use Rattle.std.specs.Prelude.{◌≡◌, ◌-◌, ◌*◌, Some, map};
ghost use Rattle.cpu_slab.specs.Growth.{preferred, victim};

/// The numbers of one class.
#[derive(Clone, Copy, Debug)]
pub(crate) struct ClassMarks {
    /// Bytes of an object.
    pub size: u32,
    /// Objects by which the capacity grows.
    pub batch: u32,
    /// Slots that may be used.
    pub cap: u32,
    /// Slots that hold objects.
    pub top: u32,
}

/// A class, and the bytes of its capacity above its top.
#[derive(Clone, Copy, Debug)]
pub(crate) struct Unused {
    pub class: usize,
    pub bytes: u64,
}

impl ClassMarks {
    /// The bytes of the capacity above the top.
    fn unused(&self) -> u64
        ensures { result ≡ (self.now.cap - self.now.top) * self.now.size }
    {
        u64::from(self.cap.saturating_sub(self.top)) * u64::from(self.size)
    }
}

/// The one with more unused bytes, the first where both have as many.
fn preferred(best: Option<Unused>, later: Unused) -> Unused
    ensures { Some result ≡ preferred best (Some later) }
{
    match best {
        Some(best) if best.bytes >= later.bytes => best,
        _ => later,
    }
}

/// The class but `class` with most unused bytes, the least such class.
pub(crate) fn victim(marks: &[ClassMarks], class: usize) -> Option<Unused>
    ensures { result ≡ victim class 0 (map (λ m. (m.cap - m.top) * m.size) marks.now) }
{
    let mut best = None;
    for (i, one) in marks.iter().enumerate() {
        if i != class {
            let bytes = one.unused();
            best = Some(preferred(best, Unused { class: i, bytes }));
        }
    }
    best
}
