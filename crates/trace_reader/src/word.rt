//! The words with which a line of a trace may begin.
ghost use Rattle.std.specs.Prelude.{◌≡◌};
ghost use Rattle.trace_reader.specs.Words.{call_word_of, word_of};

use tc_model::Head;

/// What the first field of a line names: a head, a call, or the preemption of one.
#[derive(Clone, Copy, Debug, PartialEq, Eq)]
pub enum Word {
    Head(Head),
    Malloc,
    Free,
    Move,
    Release,
    Drain,
    Resize,
}

/// The call, or the preemption, that a field names.
fn read_call_word(field: &[u8]) -> Option<Word>
    ensures { result ≡ call_word_of field.now }
{
    match field {
        [b'a'] => Some(Word::Malloc),
        [b'f'] => Some(Word::Free),
        [b'p'] => Some(Word::Move),
        [b'r'] => Some(Word::Release),
        [b'd'] => Some(Word::Drain),
        [b'z'] => Some(Word::Resize),
        _ => None,
    }
}

/// What a field names. `None` exactly where it is no word of a trace.
pub fn read_word(field: &[u8]) -> Option<Word>
    ensures { result ≡ word_of field.now }
{
    match read_call_word(field) {
        Some(word) => Some(word),
        None => {
            let head = Head::named(field)?;
            Some(Word::Head(head))
        }
    }
}
