//! A number of workers.

ghost use Rattle.std.specs.Prelude.{◌≡◌, ◌≤◌, IfSome, IfNone};

use std::marker::Model;

/// The greatest number of workers.
const MOST: u64 = 64;

/// How many there are where nobody says.
const STANDARD: u64 = 4;

/// How many workers there are, from 1 to 64, of which the caller's thread is one; contracts see the number.
#[derive(Clone, Copy)]
pub struct Workers {
    count: u64,
}

impl Model for Workers {
    ghost use Rattle.std.specs.Prelude.{ℕ, ◌≤◌};

    ghost Value = { ℕ };

    ghost view = { λ w. w.count };

    ghost invariant = { λ w. (1 ≤ w.count) × (w.count ≤ 64) };

    ghost inverse = { λ n. record { count = n } };
}

impl Workers {
    /// So many, if it is a number from 1 to 64.
    pub fn new(count: u64) -> Option<Workers>
        ensures some { IfSome result (λ workers. workers ≡ count) }
        ensures none { IfNone result (1 ≤ count → count ≤ 64 → ⊥) }
    {
        if count == 0 || count > MOST {
            return None;
        }
        Some(Workers { count })
    }

    /// The caller's thread alone.
    pub fn one() -> Workers
        ensures { result ≡ 1 }
    {
        Workers { count: 1 }
    }

    /// As many as there are where nobody says.
    pub fn standard() -> Workers
        ensures { result ≡ 4 }
    {
        Workers { count: STANDARD }
    }

    /// As many as there may be.
    pub fn most() -> Workers
        ensures { result ≡ 64 }
    {
        Workers { count: MOST }
    }

    /// Their number.
    pub fn get(self) -> u64
        ensures number { result ≡ self }
        ensures some { 1 ≤ result }
        ensures most { result ≤ 64 }
    {
        self.count
    }
}
