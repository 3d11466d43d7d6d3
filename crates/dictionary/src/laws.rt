// Laws of the definitions. The function does nothing: its contract is the law.
ghost use Rattle.std.specs.Prelude.{◌≡◌, ◌++◌, ◌↔◌, ℕ, true, false, List, [], ◌∷◌, map};
ghost use Rattle.std.specs.List.{list_any, filter};
ghost use Rattle.dictionary.specs.InEffect.{DictionaryBatch, has_id, replaces, in_effect};

/// The arrays in effect for an id are those of its last batch that is not a delta and of all its batches since, whatever other batches come before or
/// between; an id has none if and only if it has no batch.
pub fn last_batches_are_in_effect()
    ensures since { (id : ℕ) (before since : List DictionaryBatch) (b : DictionaryBatch) → replaces id b ≡ true → list_any (replaces id) since ≡ false
        → in_effect id (before ++ b ∷ since) ≡ b.array ∷ map (λ x. x.array) (filter (has_id id) since) }
    ensures none { (id : ℕ) (batches : List DictionaryBatch) → (in_effect id batches ≡ []) ↔ (list_any (has_id id) batches ≡ false) }
{}
