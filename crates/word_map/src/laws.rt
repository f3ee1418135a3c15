//! Laws of the map, as functions with empty bodies.

ghost use Rattle.std.specs.Prelude.{◌≡◌, ℕ, ◌+◌, ◌*◌, ◌<◌, Bool, List, Option, length, slice_index, slice_set};
ghost use Rattle.ft_base.specs.declared.number.UserNo.{UserNo};
ghost use Rattle.site_bytes.specs.declared.insn.Insn.{Insn};
ghost use Rattle.word_map.specs.declared.sel.Sel.{Sel};
ghost use Rattle.word_map.specs.declared.shape.Shape.{Shape};
ghost use Rattle.word_map.specs.Words.{Word, opening, put, read};
ghost use Rattle.word_map.specs.Contents.{digit, half_size, halves, high, low, mark_weight, name_of, named, returned_at, sel_parts, sel_word, tramp_user, tramp_word};
ghost use Rattle.word_map.specs.Instructions.{insn_numbered, number_of};
ghost use Rattle.word_map.specs.Places.{IsMap, IsOpening, IsThere, len, place, words_in};

/// Each word of a shape has a place of its own.
pub fn places_differ()
    ensures { (shape : Shape) → IsMap shape (place shape) (len shape) }
{}

/// What a word holds stands in the list at its place, and a store at that place is a store into that
/// word alone.
pub fn the_list_has_the_words()
    ensures read { (shape : Shape) (pids : ℕ) (list : List ℕ) (w : Word) → IsThere shape w
        → read w (words_in shape pids list) ≡ slice_index list (place shape w) }
    ensures store { (shape : Shape) (pids : ℕ) (list : List ℕ) (w : Word) (x : ℕ) → length list ≡ len shape
        → IsThere shape w → words_in shape pids (slice_set list (place shape w) x) ≡ put w x (words_in shape pids list) }
{}

/// The list at the start has the opening words.
pub fn the_list_begins_with_the_opening()
    ensures { (shape : Shape) (pids : ℕ) (list : List ℕ) → IsOpening shape pids list
        → words_in shape pids list ≡ opening pids }
{}

/// A user's state says what it was made of.
pub fn a_state_says_what_it_was_made_of()
    ensures { (s : Sel) → s.copy < 2 → sel_parts (sel_word s.reg s.registered s.enabled s.copy s.empty) ≡ s }
{}

/// A mark counts one item, and one of a command if it is a command's. The clock tells how many items there
/// are, and how many commands have returned, whether one more has begun or not.
pub fn the_clock_counts_items_and_commands()
    ensures mark { (of_commands items : ℕ) (command : Bool)
        → halves of_commands items + mark_weight command ≡ halves (of_commands + digit command) (items + 1) }
    ensures items { (of_commands items : ℕ) → items < half_size → low (halves of_commands items) ≡ items }
    ensures returned { (returned items : ℕ) (begun : Bool) → items < half_size
        → returned_at (halves (2 * returned + digit begun) items) ≡ returned }
{}

/// A task's word says how many acts it has finished, and its last request.
pub fn a_quiet_word_says_acts_and_request()
    ensures { (acts request : ℕ) → request < half_size
        → (high (halves acts request) ≡ acts) × (low (halves acts request) ≡ request) }
{}

/// The number of an instruction is of that one alone.
pub fn a_number_is_of_one_instruction()
    ensures { (insn : Insn) → insn_numbered (number_of insn) ≡ insn }
{}

/// A trampoline's word says which user it has, and under which number the user was registered.
pub fn a_trampoline_says_its_user()
    ensures { (reg u : ℕ) → u + 1 < half_size → (tramp_user (tramp_word reg u) ≡ u) × (high (tramp_word reg u) ≡ reg) }
{}

/// A word that names a user, or none, names that one.
pub fn a_name_is_of_one_user()
    ensures { (user : Option UserNo) → named (name_of user) ≡ user }
{}
