//! The order of the moves, as functions with empty bodies. With `n` sites, of which there is at least
//! one, the moves are numbered from 0 to `4n + 2`.

ghost use Rattle.std.specs.Prelude.{◌≡◌, ◌≢◌, ◌<◌, ◌≤◌, ◌+◌, ◌*◌, ◌↔◌, ℕ, List, [], length, slice_get, Some};
ghost use Rattle.site_bytes.specs.declared.insn.SiteChange.{SiteChange};
ghost use Rattle.word_map.specs.Words.{Word};
ghost use Rattle.patch_core.specs.Moves.{Put, Sync, Done, batch, batch_next, next_store, break_store, tail_store, head_store};

/// If no site is to change, there is no move: no store, and no CPU that is waited for.
pub fn no_site_no_move()
    ensures { (made : ℕ) → batch_next [] made ≡ Done }
{}

/// There are `4n + 3` moves, and after them the batch is done.
pub fn moves_are_counted()
    ensures many { (sites : List SiteChange) → 0 < length sites
        → length (batch sites) ≡ 4 * length sites + 3 }
    ensures done { (sites : List SiteChange) (made : ℕ) → 0 < length sites
        → (batch_next sites made ≡ Done) ↔ (4 * length sites + 3 ≤ made) }
{}

/// There are three syncs, each after `n` or `2n` stores: after all breakpoints, after all tails and
/// after all heads. Each other move is a store.
pub fn syncs_part_the_stages()
    ensures breakpoints { (sites : List SiteChange) → 0 < length sites
        → batch_next sites (2 * length sites) ≡ Sync }
    ensures tails { (sites : List SiteChange) → 0 < length sites
        → batch_next sites (3 * length sites + 1) ≡ Sync }
    ensures heads { (sites : List SiteChange) → 0 < length sites
        → batch_next sites (4 * length sites + 2) ≡ Sync }
    ensures others { (sites : List SiteChange) (made : ℕ) → made < 4 * length sites + 3
        → made ≢ 2 * length sites → made ≢ 3 * length sites + 1 → made ≢ 4 * length sites + 2
        → (w : Word) × (x : ℕ) × (batch_next sites made ≡ Put w x) }
{}

/// Each site gets its four stores at its own place in the four stages. So its breakpoint comes before
/// its tail, its tail before its head, and a sync between.
pub fn each_site_is_changed_in_order()
    ensures next { (sites : List SiteChange) (k : ℕ) (c : SiteChange) → slice_get sites k ≡ Some c
        → batch_next sites k ≡ next_store c }
    ensures breakpoint { (sites : List SiteChange) (k : ℕ) (c : SiteChange) → slice_get sites k ≡ Some c
        → batch_next sites (length sites + k) ≡ break_store c }
    ensures tail { (sites : List SiteChange) (k : ℕ) (c : SiteChange) → slice_get sites k ≡ Some c
        → batch_next sites (2 * length sites + 1 + k) ≡ tail_store c }
    ensures head { (sites : List SiteChange) (k : ℕ) (c : SiteChange) → slice_get sites k ≡ Some c
        → batch_next sites (3 * length sites + 2 + k) ≡ head_store c }
{}
