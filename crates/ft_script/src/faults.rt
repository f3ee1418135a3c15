//! Why a script is refused, and at which line.

ghost use Rattle.std.specs.Prelude.{◌≡◌, Some};
ghost use Rattle.ft_script.specs.FaultText.{cause_word, fault_text};
ghost use Rattle.ft_script.specs.declared.faults.Cause.TheVariants.{NoMemory};
ghost use Rattle.ft_script.specs.Script.{no_memory};

use std::alloc::AllocError;
use std::error::Error;
use std::fmt;

/// Why a line is refused. Of several causes the first in this order is reported. A missing last line
/// feed is reported as `Syntax` before any other.
#[derive(Clone, Copy, Debug, PartialEq, Eq)]
pub enum Cause {
    /// There is no line 1, or it is none of `ftrace 1`, `ftrace 2` and `ftrace 3`.
    Version,
    /// The line has none of the forms or is in the wrong place, or no line feed ends it.
    Syntax,
    /// A number or a name is outside its limits, or there is one too many of something.
    Limit,
    /// A function, a user or a pid is declared once more, or a module is absent once more.
    Duplicate,
    /// A function, a module, a user, a pid or a CPU isn't declared above.
    Unknown,
    /// The text of a filter or of a trigger is refused.
    Pattern,
    /// A call and its return, or an interrupt and its return, don't match.
    Unbalanced,
    /// No line has another cause, and the script can't end: this is the lowest line that would be
    /// left waiting.
    Deadlock,
    /// No line has another cause, and a module may be unloaded when a function of it is needed: this is
    /// the lowest line of a call that may find it so, or of a user that calls such a function or puts it
    /// in the place of others.
    Unloaded,
    /// Out of memory. The line is 0.
    NoMemory,
}

impl Cause {
    /// The word for it.
    fn word(self) -> &'static str
        ensures { result.now ≡ cause_word self }
    {
        match self {
            Cause::Version => "version",
            Cause::Syntax => "syntax",
            Cause::Limit => "limit",
            Cause::Duplicate => "duplicate",
            Cause::Unknown => "unknown",
            Cause::Pattern => "pattern",
            Cause::Unbalanced => "unbalanced",
            Cause::Deadlock => "deadlock",
            Cause::Unloaded => "unloaded",
            Cause::NoMemory => "no memory",
        }
    }
}

impl From<AllocError> for Cause {
    ghost from_gives = { λ _ cause. cause ≡ NoMemory };

    fn from(_error: AllocError) -> Cause {
        Cause::NoMemory
    }
}

/// The lowest line that is refused, from 1, and its first cause.
#[derive(Clone, Copy, Debug, PartialEq, Eq)]
pub struct ScriptFault {
    pub line: u32,
    pub cause: Cause,
}

impl From<AllocError> for ScriptFault {
    ghost from_gives = { λ _ fault. fault ≡ no_memory };

    fn from(_error: AllocError) -> ScriptFault {
        ScriptFault {
            line: 0,
            cause: Cause::NoMemory,
        }
    }
}

impl fmt::Display for ScriptFault {
    ghost output = { λ f. Some (fault_text f) };

    fn fmt<W: fmt::Write>(&self, f: &mut fmt::Formatter<W>) -> fmt::Result {
        let line = self.line;
        let word = self.cause.word();
        write!(f, "line {line}: {word}")
    }
}

impl Error for ScriptFault {}
