//! What the threads and the parts of the allocator hold, as numbers, and what each act does to them.
#![tactic(auto)]

ghost use Rattle.holdings.specs.Laws.{FirstHolds, MovesKeep, Finds, HandsAreTaken, ObjectsAreOnce, OffsLive, MappedAreThere, ClearsAreThere, NamesAreLive, BytesWithin};

/// At the start all of it holds.
pub fn holds_at_first()
    ensures { FirstHolds }
{}

/// An object in a call's hand is one of the hand's class, and is nowhere in the stock.
pub fn hands_are_taken()
    ensures { HandsAreTaken }
{}

/// An object is at one place: loose, in a hand, under a published name, or in the stock.
pub fn objects_are_once()
    ensures { ObjectsAreOnce }
{}

/// A run that a call holds off the page map lives, and meets no span of the map.
pub fn offs_live()
    ensures { OffsLive }
{}

/// A span that a call holds and the map has is of a class, and meets no span of a shard.
pub fn mapped_are_there()
    ensures { MappedAreThere }
{}

/// The span of a large block that a call is to clear is in the map.
pub fn clears_are_there()
    ensures { ClearsAreThere }
{}

/// An address that a label names is an object's, or a live run begins there.
pub fn names_are_live()
    ensures { NamesAreLive }
{}

/// The bytes of live blocks are among those of the live runs.
pub fn bytes_are_within()
    ensures { BytesWithin }
{}

/// A free finds at its address the span of a class of which it is an object, or a large block's.
pub fn frees_find()
    ensures { Finds }
{}

/// Each act keeps all that holds.
pub fn acts_keep()
    ensures { MovesKeep }
{}
