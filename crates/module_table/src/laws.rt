//! What holds after any lines, whatever the order of loads, unloads and edits. Each law is a function
//! whose clause says it.

ghost use Rattle.std.specs.Prelude.{◌≡◌, ℕ, List, [], ◌∷◌, length};
ghost use Rattle.std.specs.List.{AllByRecursion as Each};
ghost use Rattle.ft_base.specs.Job.{Func, Job, MaxDepth};
ghost use Rattle.ft_base.specs.Desk.{Desk};
ghost use Rattle.ft_desk.specs.Declarations.{Declared};
ghost use Rattle.func_table.specs.Modules.{modules_in};
ghost use Rattle.module_table.specs.Lines.{Line, after_lines, at_first, desk_after};
ghost use Rattle.module_table.specs.Reached.{HidesFunctions, IsLineIn};

/// After any lines a user is sited at a function exactly if it is registered, matches the function by
/// its filter and its own notrace set, and the function lies in no module or its module is loaded.
pub fn hidden_functions_are_not_sited()
    ensures { (d : Declared) (functions : List Func) (absent : List ℕ) (lines : List Line)
        → length functions ≡ d.funcs → Each (IsLineIn d (length (modules_in functions))) lines
        → HidesFunctions (after_lines (at_first d functions absent) lines) }
{}

/// The command that ends a load or an unload changes nothing on the desk.
pub fn depth_is_set_to_itself()
    ensures { (job : Job) (desk : Desk) (k : ℕ) → desk_after job desk k (MaxDepth desk.depth ∷ []) ≡ desk }
{}
