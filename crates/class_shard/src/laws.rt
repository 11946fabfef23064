//! The laws of a shard as a value: what a fetch, a new span and a giving leave, and how its spans are cut.
ghost use Rattle.class_shard.specs.Laws.{FetchMoves, AddMoves, GiveMoves, SpansAreCut, DifferByCount};
ghost use Rattle.class_shard.specs.Finds.{FetchFinds};

/// A fetch moves objects out of the shard, no more than are asked for, and keeps the spans.
pub fn fetches_move()
    ensures { FetchMoves }
{}

/// A fetch finds nothing only where the shard has nothing.
pub fn fetches_find()
    ensures { FetchFinds }
{}

/// A new span brings its objects, the first of which leave the shard.
pub fn adds_move()
    ensures { AddMoves }
{}

/// A giving moves objects into the shard, and spans that are all free then leave with all their objects.
pub fn gives_move()
    ensures { GiveMoves }
{}

/// The objects of the spans don't meet, each lies in its span, and each that is in no place is taken.
pub fn spans_are_cut()
    ensures { SpansAreCut }
{}

/// A list in which each address stands at most once has different objects.
pub fn counted_once_differ()
    ensures { DifferByCount }
{}
