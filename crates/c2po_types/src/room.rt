//! The weight that is left for a value.

ghost use Rattle.std.specs.Prelude.{◌≡◌, ◌+◌, ◌<◌, ◌≤◌, IfOk, IfErr};
ghost use Rattle.mltl_base.specs.declared.limits.TheConstants.{MAX_WEIGHT};

use crate::UnfoldFault;
use std::marker::Model;

/// The weight that is left for a value, at most MAX_WEIGHT.
#[derive(Clone, Copy)]
pub(crate) struct Room {
    left: u32,
}

impl Model for Room {
    ghost use Rattle.std.specs.Prelude.{ℕ, ◌≤◌};
    ghost use Rattle.mltl_base.specs.declared.limits.TheConstants.{MAX_WEIGHT};

    ghost Value = { ℕ };

    ghost view = { λ room. room.left };

    ghost inverse = { λ left. record { left = left } };

    ghost invariant = { λ room. room.left ≤ MAX_WEIGHT };
}

impl Room {
    /// Makes the room for a weight.
    pub(crate) fn of(weight: u32) -> Room
        requires { weight ≤ MAX_WEIGHT }
        ensures { result ≡ weight }
    {
        Room { left: weight }
    }

    /// Returns the weight that is left.
    #[inline(always)]
    pub(crate) fn get(self) -> u32
        ensures number { result ≡ self }
        ensures limit { result ≤ MAX_WEIGHT }
    {
        self.left
    }

    /// Returns the room that a weight leaves, or `Heavy` if the weight is above the room.
    #[inline(always)]
    pub(crate) fn less(self, weight: u32) -> Result<Room, UnfoldFault>
        ensures left { IfOk result (λ left. left + weight ≡ self) }
        ensures heavy { IfErr result (λ why. self < weight) }
    {
        match self.left.checked_sub(weight) {
            Some(left) => Ok(Room { left }),
            None => Err(UnfoldFault::Heavy),
        }
    }

    /// Returns the room that is left after a weight that fits.
    #[inline(always)]
    pub(crate) fn without(self, weight: u32) -> Room
        requires { weight ≤ self }
        ensures { result + weight ≡ self }
    {
        Room {
            left: self.left - weight,
        }
    }
}
