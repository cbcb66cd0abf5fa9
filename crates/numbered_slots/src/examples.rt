//! Worked examples, as theorems of functions that do nothing.
ghost use Rattle.std.specs.Prelude.{◌≡◌, ℕ, ◌∷◌, [], true, false, Some, None};
ghost use Rattle.numbered_slots.specs.Numbered.{begins, there, with_item, with_last, with_place};

/// Two numbers are given, and the item of the second one comes first. It waits, and can't be read before the first one's.
pub fn early_items()
    ensures early { with_item {T = ℕ} 5 7 (with_place (with_place (record { next = 4; slots = [] }))) ≡ record { next = 4; slots = None ∷ Some 7 ∷ [] } }
    ensures not_yet { begins {T = ℕ} (None ∷ Some 7 ∷ []) ≡ false }
    ensures waits { there {T = ℕ} (None ∷ Some 7 ∷ []) ≡ 1 }
    ensures then_read { begins {T = ℕ} (with_item 4 6 (record { next = 4; slots = None ∷ Some 7 ∷ [] })).slots ≡ true }
    ensures last { with_last {T = ℕ} 8 (record { next = 4; slots = None ∷ [] }) ≡ record { next = 4; slots = None ∷ Some 8 ∷ [] } }
{}
