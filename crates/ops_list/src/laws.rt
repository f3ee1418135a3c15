//! Laws of the list, as functions with empty bodies: what the stores of a linker and the loads of a
//! walker make of the list that words have.

ghost use Rattle.std.specs.Prelude.{◌≡◌, ℕ, suc, ◌<◌, false, List, ◌∷◌, ◌++◌, All};
ghost use Rattle.ft_base.specs.declared.number.UserNo.{UserNo};
ghost use Rattle.ft_base.specs.Order.{has};
ghost use Rattle.word_map.specs.declared.shape.Shape.{Shape};
ghost use Rattle.word_map.specs.Words.{Words, Link, read};
ghost use Rattle.ops_list.specs.declared.linker.LinkPhase.TheVariants.{Linking, Unlinking};
ghost use Rattle.ops_list.specs.declared.walker.WalkPhase.TheVariants.{Starting, At};
ghost use Rattle.ops_list.specs.Walks.{WalkFits, walk_to};
ghost use Rattle.ops_list.specs.Lists.{IsList, nth_user, last_user, after_stores, next_load, after_loads};

/// Words have one list at most, and no user stands in it twice.
pub fn words_have_one_list()
    ensures one { (ws : Words) (users others : List ℕ) → IsList ws users → IsList ws others → users ≡ others }
    ensures front { (ws : Words) (front back : List ℕ) (u : ℕ) → IsList ws (front ++ u ∷ back)
        → has u front ≡ false }
    ensures back { (ws : Words) (front back : List ℕ) (u : ℕ) → IsList ws (front ++ u ∷ back)
        → has u back ≡ false }
{}

/// A user that is pushed comes in front of the others. Between the two stores the list is as it was.
pub fn a_push_keeps_the_others()
    ensures between { (ws : Words) (users : List ℕ) (u : UserNo) → IsList ws users → has u.0 users ≡ false
        → IsList (after_stores 1 (Linking u (nth_user users 0)) ws) users }
    ensures pushed { (ws : Words) (users : List ℕ) (u : UserNo) → IsList ws users → has u.0 users ≡ false
        → IsList (after_stores 2 (Linking u (nth_user users 0)) ws) (u.0 ∷ users) }
{}

/// A user that is unlinked is on the list no more. Its own link is as it was, and a walk that stands
/// on it goes on to the users after it.
pub fn an_unlink_keeps_the_way_on()
    ensures list { (ws : Words) (front back : List ℕ) (u : ℕ) → IsList ws (front ++ u ∷ back)
        → IsList (after_stores 1 (Unlinking (last_user front) (nth_user back 0)) ws) (front ++ back) }
    ensures link { (ws : Words) (front back : List ℕ) (u : ℕ) → IsList ws (front ++ u ∷ back)
        → read (Link u) (after_stores 1 (Unlinking (last_user front) (nth_user back 0)) ws)
        ≡ read (Link u) ws }
    ensures walk { (ws : Words) (front back : List ℕ) (u : UserNo) (i : ℕ) → IsList ws (front ++ u.0 ∷ back)
        → after_loads (suc i) (At u) (after_stores 1 (Unlinking (last_user front) (nth_user back 0)) ws)
        ≡ walk_to (nth_user back i) }
{}

/// A walk visits the users of the list in their order, and then ends. From a user of the list on it
/// visits those after it. What each load gives fits if the users are in the shape.
pub fn a_walk_visits_the_list()
    ensures head { (ws : Words) (users : List ℕ) (i : ℕ) → IsList ws users
        → after_loads (suc i) Starting ws ≡ walk_to (nth_user users i) }
    ensures user { (ws : Words) (front back : List ℕ) (u : UserNo) (i : ℕ) → IsList ws (front ++ u.0 ∷ back)
        → after_loads (suc i) (At u) ws ≡ walk_to (nth_user back i) }
    ensures fits { (shape : Shape) (ws : Words) (users : List ℕ) (n : ℕ) → IsList ws users
        → All (λ u. u < shape.users) users
        → let phase = after_loads n Starting ws in WalkFits shape phase (next_load phase ws) }
{}
