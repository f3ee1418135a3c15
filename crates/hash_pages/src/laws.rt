//! Laws of pages and reads, for readers of the definitions and for the layers above. Each is a function
//! with an empty body, whose clause says it.

ghost use Rattle.std.specs.Prelude.{◌≡◌, ◌≢◌, ℕ, ◌+◌, ◌*◌, ◌<◌, ◌≤◌, Bool, [], ◌∷◌, Some, None, length, slice_get};
ghost use Rattle.ft_base.specs.Marks.{is_empty};
ghost use Rattle.site_set.specs.Marks.{word_of};
ghost use Rattle.filter_hash.specs.Pair.{Pair, size_of};
ghost use Rattle.word_map.specs.declared.shape.Shape.{Shape};
ghost use Rattle.word_map.specs.Words.{Words, Sel, Bits};
ghost use Rattle.word_map.specs.Places.{words_for};
ghost use Rattle.word_map.specs.Contents.{other_copy, sel_word};
ghost use Rattle.word_map.specs.Ops.{Store};
ghost use Rattle.hash_pages.specs.Pages.{Page, page_stores};
ghost use Rattle.hash_pages.specs.Reads.{read_next, verdict_of};
ghost use Rattle.hash_pages.specs.Found.{HasPair, read_over, read_start, right_verdict};
ghost use Rattle.hash_pages.specs.Written.{written};

/// A page has a store for each word of its two sets in its copy, and then, as the last, the one of the
/// user's state.
pub fn the_state_is_stored_last()
    ensures count { (p : Page) (pair : Pair) → length (page_stores p pair) ≡ 2 * words_for p.shape.funcs + 1 }
    ensures filter { (p : Page) (pair : Pair) (w : ℕ) → w < words_for p.shape.funcs
        → slice_get (page_stores p pair) w ≡ Some (Store (Bits p.user p.copy 0 w) (word_of pair.filter w)) }
    ensures notrace { (p : Page) (pair : Pair) (w : ℕ) → w < words_for p.shape.funcs
        → slice_get (page_stores p pair) (words_for p.shape.funcs + w)
        ≡ Some (Store (Bits p.user p.copy 1 w) (word_of pair.notrace w)) }
    ensures state { (p : Page) (pair : Pair)
        → slice_get (page_stores p pair) (2 * words_for p.shape.funcs) ≡ Some (Store (Sel p.user) p.sel) }
{}

/// No store of a page is into the other copy of its user.
pub fn no_store_is_into_the_other_copy()
    ensures { (p : Page) (pair : Pair) (i half w x : ℕ) → p.copy < 2
        → slice_get (page_stores p pair) i ≢ Some (Store (Bits p.user (other_copy p.copy) half w) x) }
{}

/// After any number of a page's stores, the other copy of its user is as it was. So is the user's state,
/// unless all are made.
pub fn a_page_leaves_the_other_copy()
    ensures copy { (p : Page) (pair : Pair) (n half w : ℕ) (ws : Words) → p.copy < 2
        → (written p pair n ws).bits p.user (other_copy p.copy) half w
        ≡ ws.bits p.user (other_copy p.copy) half w }
    ensures state { (p : Page) (pair : Pair) (n : ℕ) (ws : Words) → n ≤ 2 * words_for p.shape.funcs
        → (written p pair n ws).sel p.user ≡ ws.sel p.user }
{}

/// After all stores of a page, its copy has the sets, and the user has the page's state.
pub fn a_page_has_its_sets()
    ensures sets { (p : Page) (pair : Pair) (n : ℕ) (ws : Words) → size_of pair ≡ p.shape.funcs
        → 2 * words_for p.shape.funcs < n → HasPair (written p pair n ws) p.user p.copy pair }
    ensures state { (p : Page) (pair : Pair) (n : ℕ) (ws : Words) → 2 * words_for p.shape.funcs < n
        → (written p pair n ws).sel p.user ≡ p.sel }
{}

/// A read makes at most three loads.
pub fn a_read_ends()
    ensures { (shape : Shape) (u f : ℕ) (first second third : Words)
        → read_next (read_over (read_start shape u f) (first ∷ second ∷ third ∷ [])) ≡ None }
{}

/// A read whose first load finds a state, and whose later loads find a pair of sets in the copy that the
/// state names: it ends with `On`, and the registration number, exactly if the user is registered and
/// enabled and the sets match the function. It ends with `Off` exactly if the user is not registered or
/// not enabled, and otherwise with `Apart`.
pub fn a_read_goes_by_state_and_sets()
    ensures { (shape : Shape) (u f reg copy : ℕ) (registered enabled : Bool) (pair : Pair)
        (first second third : Words) → f < size_of pair → copy < 2
        → first.sel u ≡ sel_word reg registered enabled copy (is_empty pair.filter)
        → HasPair second u copy pair → HasPair third u copy pair
        → verdict_of (read_over (read_start shape u f) (first ∷ second ∷ third ∷ [])).phase
        ≡ right_verdict registered enabled pair f reg }
{}

/// A read while one page is written. If it loads the state before the page's last store, it goes by the
/// old state and the old sets, however many stores of the page are made before each of its loads. If it
/// loads the state after that store, it goes by the new state and the new sets.
pub fn a_read_finds_old_or_new_sets()
    ensures before { (p : Page) (old pair : Pair) (f reg i j k : ℕ) (registered enabled : Bool) (ws : Words)
        → f < size_of old → p.copy < 2
        → ws.sel p.user ≡ sel_word reg registered enabled (other_copy p.copy) (is_empty old.filter)
        → HasPair ws p.user (other_copy p.copy) old → i ≤ 2 * words_for p.shape.funcs
        → verdict_of (read_over (read_start p.shape p.user f)
        (written p pair i ws ∷ written p pair j ws ∷ written p pair k ws ∷ [])).phase
        ≡ right_verdict registered enabled old f reg }
    ensures after { (p : Page) (pair : Pair) (f reg i j k : ℕ) (registered enabled : Bool) (ws : Words)
        → f < size_of pair → p.copy < 2 → size_of pair ≡ p.shape.funcs
        → p.sel ≡ sel_word reg registered enabled p.copy (is_empty pair.filter)
        → 2 * words_for p.shape.funcs < i → i ≤ j → j ≤ k
        → verdict_of (read_over (read_start p.shape p.user f)
        (written p pair i ws ∷ written p pair j ws ∷ written p pair k ws ∷ [])).phase
        ≡ right_verdict registered enabled pair f reg }
{}
