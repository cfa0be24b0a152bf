//! A bit for each slot of a wheel, which says whether its list has a node.
ghost use Rattle.std.specs.Prelude.{◌≡◌, ℕ, ◌+◌, ◌<◌};
ghost use Rattle.mono_wheel.specs.Bits.{occupied_bit, KeepsOthers, IsFirstAfter};
ghost use Rattle.mono_wheel.specs.Start.{level_count, slot_count};

use crate::level::LEVELS;
use std::marker::Model;

/// One bit for each slot: bit `s` of level `l` is that of list `l * 64 + s`.
#[derive(Drop)]
pub struct Occupied {
    levels: [u64; LEVELS],
}

impl Model for Occupied {
    ghost use Rattle.std.specs.Prelude.{◌≡◌, ℕ, List, length};
    ghost use Rattle.mono_wheel.specs.Start.{level_count};

    ghost Value = { List ℕ };

    ghost view = { λ a. a.levels };

    ghost invariant = { λ a. length a.levels ≡ level_count };
}

impl Occupied {
    /// Returns bits for slots without nodes.
    pub fn new() -> Occupied
        ensures { (list : ℕ) → list < slot_count → occupied_bit result list ≡ 0 }
    {
        Occupied {
            levels: [0; LEVELS],
        }
    }

    /// Sets the bit of a slot.
    pub fn mark(&mut self, list: usize)
        requires { list < slot_count }
        ensures here { occupied_bit self.new list ≡ 1 }
        ensures others { KeepsOthers self.old self.new list }
    {
        self.levels[list / 64] |= 1 << (list % 64);
    }

    /// Clears the bit of a slot.
    pub fn clear(&mut self, list: usize)
        requires { list < slot_count }
        ensures here { occupied_bit self.new list ≡ 0 }
        ensures others { KeepsOthers self.old self.new list }
    {
        self.levels[list / 64] &= !(1 << (list % 64));
    }

    /// Returns the first slot of a level whose bit is set, beginning after this slot and ending with it.
    pub fn first_after(&self, level: usize, slot: usize) -> Option<usize>
        requires level { level < level_count }
        requires slot { slot < 64 }
        ensures { IsFirstAfter self.now level slot result }
    {
        let bits = self.levels[level];
        if bits == 0 {
            return None;
        }
        let turned = bits.rotate_right(slot as u32 + 1);
        Some((slot + 1 + turned.trailing_zeros() as usize) % 64)
    }
}
