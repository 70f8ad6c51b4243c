//! The law on which every check of a producer's batches rests: neighbours decide all pairs. Its function does nothing;
//! its contract is the law.

ghost use Rattle.std.specs.List.{All};
ghost use Rattle.eos_touch.specs.Neighbours.{HasRecords, NeighboursDecide, NeighboursDecideOrder};

use crate::touch::Touch;

/// For the touches of one producer id in a partition, in offset order:
///
/// - `pair_ok` accepts the first after nothing, and each other one after its neighbour, exactly where the touches are
///   fenced and, if asked for, sequenced;
/// - none of the kinds FirstSequence, Sequence, ZombieEpoch and NoBump stands anywhere exactly where the epochs are in
///   order and, if asked for, the touches are sequenced.
pub fn neighbours(touches: &[Touch], sequenced: bool)
    requires { All HasRecords touches.now }
    ensures decided { NeighboursDecide sequenced touches.now }
    ensures ordered { NeighboursDecideOrder sequenced touches.now }
{}
