//! What holds between the calls of this crate. Each law is a function whose clause says it.

ghost use Rattle.std.specs.Prelude.{◌≡◌, ◌≢◌, ◌<◌, ℕ, Some, ◌∷◌, List};
ghost use Rattle.site_bytes.specs.declared.insn.Insn.{Insn};
ghost use Rattle.site_bytes.specs.Bytes.{breakpoint, bytes_of, four_bytes, head_byte, tail_number, IsInsn};

use crate::codec::{BREAKPOINT, decode, encode};
use crate::insn::Insn;
use ft_base::FuncNo;
use ft_base::limits::FUNCS;

/// Decoding an instruction's bytes gives the instruction back.
pub fn decodes_what_it_encodes(f: FuncNo, insn: Insn) -> Option<Insn>
    requires func { f.0 < FUNCS }
    requires slot { IsInsn insn }
    ensures { result ≡ Some insn }
{
    decode(f, encode(f, insn))
}

/// Two instructions of a function have different bytes.
pub fn differs_by_instruction()
    ensures { (f : ℕ) (one other : Insn) → f < FUNCS → IsInsn one → IsInsn other
        → bytes_of f one ≡ bytes_of f other → one ≡ other }
{}

/// The head and the tail of an instruction are its bytes.
pub fn splits_into_head_and_tail()
    ensures { (f : ℕ) (insn : Insn) → head_byte insn ∷ four_bytes (tail_number f insn) ≡ bytes_of f insn }
{}

/// The breakpoint is that of the definitions, and no instruction begins with it: so a CPU can tell
/// a site that is being patched from one that isn't.
pub fn breakpoint_is_no_head()
    ensures value { BREAKPOINT ≡ breakpoint }
    ensures head { (insn : Insn) → head_byte insn ≢ BREAKPOINT }
    ensures bytes { (f : ℕ) (insn : Insn) (tail : List ℕ) → bytes_of f insn ≢ (BREAKPOINT ∷ tail) }
{}
