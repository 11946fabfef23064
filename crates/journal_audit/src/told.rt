//! What a call line says.
ghost use Rattle.std.specs.Prelude.{◌≡◌, ◌≢◌, [], ◌∷◌, length, drop, slice_get, MatchOption};
ghost use Rattle.std.specs.Option.{option_copied, option_to_list, option_and_then};
ghost use Rattle.journal_audit.specs.Forms.{number, place_by, address_by, drained_by, resized_by};
ghost use Rattle.journal_audit.specs.Forms.{malloc_by, free_by, release_by, drain_by, resize_by, act_by, told_by, names};

use tc_model::Call;
use trace_text::Fields;

/// Bytes from an address on.
#[derive(Clone, Copy)]
pub struct Place {
    pub addr: u64,
    pub len: u64,
}

/// What a drain answered.
#[derive(Clone, Copy)]
pub enum Drained {
    /// How many objects left the CPU's cache.
    Objects(u64),
    /// Which thread had stopped that CPU.
    Busy(u64),
}

/// What a resize answered.
#[derive(Clone, Copy)]
pub enum Resized {
    Set,
    /// Which thread had stopped that CPU.
    Busy(u64),
    /// The greatest capacity of a class, in objects.
    OverStatic(u64),
    /// The bytes of all capacities together.
    OverLimit(u64),
}

/// What a line says of its call and of the answer.
#[derive(Clone, Copy)]
pub enum Act {
    /// `None` where the allocation got nothing.
    Malloc {
        label: u64,
        block: Option<Place>,
    },
    /// `None` where the allocation had got nothing.
    Free {
        label: u64,
        addr: Option<u64>,
    },
    Release {
        pages: u64,
    },
    Drain {
        cpu: u64,
        answer: Drained,
    },
    Resize {
        cpu: u64,
        class: u64,
        cap: u64,
        answer: Resized,
    },
}

/// What a line says.
#[derive(Clone, Copy)]
pub struct Told {
    pub thread: u64,
    pub act: Act,
}

/// The number of a field: a canonical decimal of at most 64 bits.
fn read_number(field: &[u8]) -> Option<u64>
    ensures { result ≡ number field.now }
{
    trace_text::number(field, u64::MAX)
}

/// The number of the next field.
fn next_number(fields: &mut Fields) -> Option<u64>
    ensures number { result ≡ option_and_then number (slice_get fields.old.fields 0) }
    ensures others { fields.new.fields ≡ drop 1 fields.old.fields }
{
    let field = fields.next()?;
    read_number(field.bytes)
}

/// The one field that is left. `None` exactly where another number of them is left.
fn one<'a>(fields: &mut Fields<'a>) -> Option<&'a [u8]>
    ensures { MatchOption result (length fields.old.fields ≢ 1) (λ a. fields.old.fields ≡ a.now ∷ []) }
{
    let a = fields.next()?;
    match fields.next() {
        None => Some(a.bytes),
        Some(_) => None,
    }
}

/// The one field that is left, or the two.
fn one_or_two<'a>(fields: &mut Fields<'a>) -> Option<(&'a [u8], Option<&'a [u8]>)>
    ensures { MatchOption result ((length fields.old.fields ≢ 1) × (length fields.old.fields ≢ 2))
        (λ f. fields.old.fields ≡ f.0.now ∷ option_to_list (option_copied f.1)) }
{
    let first = fields.next()?;
    let Some(second) = fields.next() else {
        return Some((first.bytes, None));
    };
    match fields.next() {
        None => Some((first.bytes, Some(second.bytes))),
        Some(_) => None,
    }
}

/// The block that an allocation got, or `None` where it got nothing.
fn place_with(first: &[u8], second: Option<&[u8]>) -> Option<Option<Place>>
    ensures { result ≡ place_by (first.now ∷ option_to_list (option_copied second.entry)) }
{
    let Some(second) = second else {
        return if first == b"none".as_slice() {
            Some(None)
        } else {
            None
        };
    };
    let addr = read_number(first)?;
    let len = read_number(second)?;
    Some(Some(Place { addr, len }))
}

/// The address that a free gave back, or `None` where there was none.
fn read_address(fields: &mut Fields) -> Option<Option<u64>>
    ensures { result ≡ address_by fields.old.fields }
{
    let field = one(fields)?;
    if field == b"none".as_slice() {
        return Some(None);
    }
    let addr = read_number(field)?;
    Some(Some(addr))
}

fn drained_with(first: &[u8], second: Option<&[u8]>) -> Option<Drained>
    ensures { result ≡ drained_by (first.now ∷ option_to_list (option_copied second.entry)) }
{
    let number = second?;
    if first == b"ok".as_slice() {
        read_number(number).map(Drained::Objects)
    } else if first == b"busy".as_slice() {
        read_number(number).map(Drained::Busy)
    } else {
        None
    }
}

fn resized_with(first: &[u8], second: Option<&[u8]>) -> Option<Resized>
    ensures { result ≡ resized_by (first.now ∷ option_to_list (option_copied second.entry)) }
{
    let Some(number) = second else {
        return if first == b"ok".as_slice() {
            Some(Resized::Set)
        } else {
            None
        };
    };
    if first == b"busy".as_slice() {
        read_number(number).map(Resized::Busy)
    } else if first == b"overstatic".as_slice() {
        read_number(number).map(Resized::OverStatic)
    } else if first == b"overlimit".as_slice() {
        read_number(number).map(Resized::OverLimit)
    } else {
        None
    }
}

fn read_malloc(fields: &mut Fields) -> Option<Act>
    ensures { result ≡ malloc_by fields.old.fields }
{
    let label = next_number(fields)?;
    let (first, second) = one_or_two(fields)?;
    let block = place_with(first, second)?;
    Some(Act::Malloc { label, block })
}

fn read_free(fields: &mut Fields) -> Option<Act>
    ensures { result ≡ free_by fields.old.fields }
{
    let label = next_number(fields)?;
    let addr = read_address(fields)?;
    Some(Act::Free { label, addr })
}

fn read_release(fields: &mut Fields) -> Option<Act>
    ensures { result ≡ release_by fields.old.fields }
{
    let field = one(fields)?;
    let pages = read_number(field)?;
    Some(Act::Release { pages })
}

fn read_drain(fields: &mut Fields) -> Option<Act>
    ensures { result ≡ drain_by fields.old.fields }
{
    let cpu = next_number(fields)?;
    let (first, second) = one_or_two(fields)?;
    let answer = drained_with(first, second)?;
    Some(Act::Drain { cpu, answer })
}

fn read_resize(fields: &mut Fields) -> Option<Act>
    ensures { result ≡ resize_by fields.old.fields }
{
    let cpu = next_number(fields)?;
    let class = next_number(fields)?;
    let cap = next_number(fields)?;
    let (first, second) = one_or_two(fields)?;
    let answer = resized_with(first, second)?;
    Some(Act::Resize {
        cpu,
        class,
        cap,
        answer,
    })
}

/// What the fields behind the thread say, by the call's letter.
fn read_act(letter: &[u8], fields: &mut Fields) -> Option<Act>
    ensures { result ≡ act_by letter.now fields.old.fields }
{
    if letter == b"a".as_slice() {
        read_malloc(fields)
    } else if letter == b"f".as_slice() {
        read_free(fields)
    } else if letter == b"r".as_slice() {
        read_release(fields)
    } else if letter == b"d".as_slice() {
        read_drain(fields)
    } else if letter == b"z".as_slice() {
        read_resize(fields)
    } else {
        None
    }
}

/// What the fields behind the letter say.
pub fn read_told(letter: &[u8], fields: &mut Fields) -> Option<Told>
    ensures { result ≡ told_by (letter.now ∷ fields.old.fields) }
{
    let thread = next_number(fields)?;
    let act = read_act(letter, fields)?;
    Some(Told { thread, act })
}

impl Act {
    /// Whether a line says this of a call.
    pub fn names(self, call: Call) -> bool
        ensures { result ≡ names self call }
    {
        match (self, call) {
            (Act::Malloc { label, .. }, Call::Malloc { label: l, .. }) => label == u64::from(l.0),
            (Act::Free { label, .. }, Call::Free { label: l }) => label == u64::from(l.0),
            (Act::Release { .. }, Call::Release { .. }) => true,
            (Act::Drain { cpu, .. }, Call::Drain { cpu: c }) => cpu == u64::from(c.0),
            (
                Act::Resize {
                    cpu,
                    class,
                    cap,
                    ..
                },
                Call::Resize {
                    cpu: c,
                    class: k,
                    cap: n,
                },
            ) => cpu == u64::from(c.0) && class == u64::from(k.0) && cap == u64::from(n),
            _ => false,
        }
    }
}
