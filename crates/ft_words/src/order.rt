//! What the words can order, and the form that is said.

ghost use Rattle.std.specs.Prelude.{◌≡◌, ◌≢◌, IfSome, IfNone};
ghost use Rattle.std.specs.Option.{option_copied};
ghost use Rattle.ft_words.specs.declared.order.Form.{Form};
ghost use Rattle.ft_words.specs.Language.{form_name, SaysForm};

use thiserror::Error;

/// What is printed of a history, or of the functions that are traced at its end.
#[derive(Clone, Copy, PartialEq, Eq)]
pub enum Form {
    /// The whole history, with a line for each item. The lines are this project's own: no tool
    /// prints the like.
    Log,
    /// A line for each entry callback of a user of the kind `function`: the task, its CPU and
    /// context, the place in the history, the function that is called, the one that calls it, and
    /// the user. The kernel's tracer `function` prints the like into the file `trace` (ftrace.rst,
    /// Output format), and so does `trace-cmd report`.
    Function,
    /// For each user of the kind `graph`, the calls that it traced as nested braces, with the
    /// places that each took. The kernel's tracer `function_graph` prints the like into the file
    /// `trace` (ftrace.rst, function graph tracer), and so does `uftrace replay`.
    Graph,
    /// For each user of the kind `profile`, how often each function was hit, and the places that
    /// its calls took; for each fprobe, its hits and those that it missed. The kernel prints the
    /// like into the files `trace_stat/function<cpu>` (ftrace.rst, The File System,
    /// function_profile_enabled), and so does `uftrace report`.
    Profile,
    /// The functions that are traced after the commands that have returned: how many users each
    /// has, whether one of them asks for registers and whether one replaces the function, and what
    /// the call site calls. The kernel prints the like into the file `enabled_functions`
    /// (ftrace.rst, The File System).
    Enabled,
    /// The lines that load and unload modules, each with its answer and the numbers of the commands
    /// that carry it out. The lines are this project's own: no tool prints the like.
    Modules,
    /// The ring of each CPU: how many entries it holds of how many that were written into it, and the
    /// line of each, as in the form function; then how often each trigger fired. The kernel prints the
    /// like into the files `per_cpu/cpu<cpu>/trace` (ftrace.rst, The File System).
    Rings,
}

/// What the program is to do.
#[derive(Clone, Copy, PartialEq, Eq)]
pub enum Order {
    /// Carry out the script that the source gives, and print its history in this form.
    Replay(Form),
    /// Carry out the script that the source gives with running threads, and print their history in
    /// this form.
    Run(Form),
    /// Carry out the script that is generated from this seed, and print a summary of its history.
    /// The source isn't read.
    Bulk(u32),
}

/// Why the words give no order.
#[derive(Clone, Copy, Debug, Drop, Error)]
pub enum WordsFault {
    /// The words aren't in the command's language.
    #[error("the words are not in the command's language")]
    Language,
    /// Out of memory.
    #[error("out of memory")]
    NoMemory,
}

/// The form of this name.
fn form_of(name: &str) -> Option<Form>
    ensures some { IfSome result (λ f. name.now ≡ form_name f) }
    ensures none { IfNone result ((f : Form) → name.now ≢ form_name f) }
{
    match name {
        "log" => Some(Form::Log),
        "function" => Some(Form::Function),
        "graph" => Some(Form::Graph),
        "profile" => Some(Form::Profile),
        "enabled" => Some(Form::Enabled),
        "modules" => Some(Form::Modules),
        "rings" => Some(Form::Rings),
        _ => None,
    }
}

/// The form that is said with `--print`, if anything is.
pub fn form_said(print: Option<&str>) -> Option<Form>
    ensures some { IfSome result (SaysForm (option_copied print.entry)) }
    ensures none { IfNone result ((f : Form) → ¬ SaysForm (option_copied print.entry) f) }
{
    match print {
        Some(name) => form_of(name),
        None => Some(Form::Log),
    }
}
