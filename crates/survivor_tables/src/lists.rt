// A list of masks in fixed memory, a plain value: it is copied as the table that holds it is.
ghost use Rattle.std.specs.Prelude.{◌≡◌, ◌<◌, ◌≤◌, ◌∷◌, [], ◌++◌, length, take};

use std::marker::Model;

// At most CAP masks: the first `count` of the array.
#[derive(Clone, Copy)]
pub struct MaskList<const CAP: usize> {
    masks: [u64; CAP],
    count: usize,
}

impl<const CAP: usize> Model for MaskList<CAP> {
    ghost use Rattle.std.specs.Prelude.{◌≡◌, ◌≤◌, ◌++◌, length, take, drop};
    ghost use Rattle.std.proofs.Common.{arith, take-append-drop, length-take-le};
    ghost use Rattle.survivor_tables.specs.Lists.{MaskList as Masks};

    ghost Value = { Masks };

    ghost view = { λ l. record { items = take l.count l.masks; spare = drop l.count l.masks } };

    ghost invariant = { λ l. (l.count ≤ CAP) × (length l.masks ≡ CAP) };

    ghost inverse = { λ l. record { masks = l.items ++ l.spare; count = length l.items } };

    ghost inverse_ok = { λ l h i. record {
      masks = take-append-drop l.count l.masks i;
      count = length-take-le l.count l.masks (omega (arith, h.0, h.1)) i;
    } };
}

impl<const CAP: usize> MaskList<CAP> {
    // No mask.
    pub fn new() -> Self
        ensures { result.items ≡ [] }
    {
        MaskList {
            masks: [0u64; CAP],
            count: 0,
        }
    }

    // The first `count` masks of an array, or all of them.
    pub fn first(masks: [u64; CAP], count: usize) -> Self
        ensures { result.items ≡ take count masks.entry }
    {
        MaskList {
            masks,
            count: count.min(CAP),
        }
    }

    // One more mask at the end, where there is a place.
    pub fn push(&mut self, mask: u64)
        ensures room { length self.old.items < CAP → self.new.items ≡ self.old.items ++ mask ∷ [] }
        ensures full { CAP ≤ length self.old.items → self.new ≡ self.old }
    {
        if self.count < CAP {
            self.masks[self.count] = mask;
            self.count += 1;
        }
    }

    // How many masks there are.
    pub fn len(&self) -> usize
        ensures value { result ≡ length self.now.items }
        ensures fits { result ≤ CAP }
    {
        self.count
    }

    // The masks.
    pub fn as_slice(&self) -> &[u64]
        ensures value { result.now ≡ self.now.items }
        ensures fits { length result.now ≤ CAP }
    {
        &self.masks[..self.count]
    }
}
