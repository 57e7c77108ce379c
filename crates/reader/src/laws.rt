//! What distance guarantees of every reading.
//!
//! The function does nothing. Its contract is the theorem, so that the crate is proved only with it.
ghost use Rattle.reader.specs.Promises.{DistanceDecidesEveryReading};

/// For every lawful field, every plan and every line: different sets of at most d words lie far apart; at most one of them
/// is near a line; if one is, the verdict is a reading of exactly that set; if none is, it is overload or noise.
pub fn distance_decides_every_reading()
    ensures { DistanceDecidesEveryReading }
{}
