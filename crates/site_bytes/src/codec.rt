//! From instructions to bytes and back.

ghost use Rattle.std.specs.Prelude.{◌≡◌, ◌≢◌, ◌<◌, ◌∷◌, ℕ, IfSome, IfNone};
ghost use Rattle.site_bytes.specs.declared.insn.Insn.{Insn};
ghost use Rattle.site_bytes.specs.Bytes.{bytes_of, four_bytes, head_byte, tail_number, trampoline_at, IsInsn};

use crate::insn::Insn;
use ft_base::limits::{FUNCS, TRAMPS};
use ft_base::{FuncNo, function_address};

/// The head of a call site that is being patched: the breakpoint instruction, `INT3`.
pub const BREAKPOINT: u8 = 0xCC;

/// The head of the nop.
const NOP_HEAD: u8 = 0x0F;

/// The tail of the nop, `1F 44 00 00`.
const NOP_TAIL: u32 = 0x0000_441F;

/// The head of a call. Its tail is the distance to the target.
const CALL_HEAD: u8 = 0xE8;

/// The address of the list caller.
const LIST_CALLER: u32 = 0x0F_0000;

/// The address of the trampoline of slot 0.
const FIRST_TRAMPOLINE: u32 = 0x10_0000;

/// The bytes from the address of a trampoline to that of the next.
pub const TRAMPOLINE_STEP: u32 = 256;

/// The bytes of a call site.
const SITE_BYTES: u32 = 5;

/// The head of an instruction: its first byte.
pub fn head_of(insn: Insn) -> u8
    ensures { result ≡ head_byte insn }
{
    match insn {
        Insn::Nop => NOP_HEAD,
        Insn::List | Insn::Own(_) => CALL_HEAD,
    }
}

/// The tail of an instruction of function `f`: its other four bytes as one number, the lowest byte
/// first.
pub fn tail_of(f: FuncNo, insn: Insn) -> u32
    requires func { f.0 < FUNCS }
    requires slot { IsInsn insn }
    ensures { result ≡ tail_number f.0 insn }
{
    // A call's distance counts from the address after the call.
    let next = function_address(f) + SITE_BYTES;
    match insn {
        Insn::Nop => NOP_TAIL,
        Insn::List => LIST_CALLER - next,
        Insn::Own(slot) => FIRST_TRAMPOLINE + TRAMPOLINE_STEP * u32::from(slot) - next,
    }
}

/// A head and a tail as the five bytes of a site.
pub fn join(head: u8, tail: u32) -> [u8; 5]
    ensures { result ≡ head ∷ four_bytes tail }
{
    let [first, second, third, fourth] = tail.to_le_bytes();
    [head, first, second, third, fourth]
}

/// The bytes of an instruction of function `f`.
pub fn encode(f: FuncNo, insn: Insn) -> [u8; 5]
    requires func { f.0 < FUNCS }
    requires slot { IsInsn insn }
    ensures { result ≡ bytes_of f.0 insn }
{
    join(head_of(insn), tail_of(f, insn))
}

/// The instruction of function `f` that has these bytes. `None` exactly if none has them: under a
/// breakpoint, with any other head, and at a call of what is neither the list caller nor the
/// trampoline of a slot.
pub fn decode(f: FuncNo, bytes: [u8; 5]) -> Option<Insn>
    requires { f.0 < FUNCS }
    ensures some { IfSome result (λ insn. IsInsn insn × (bytes_of f.0 insn ≡ bytes)) }
    ensures none { IfNone result ((insn : Insn) → IsInsn insn → bytes_of f.0 insn ≢ bytes) }
{
    let [head, b0, b1, b2, b3] = bytes;
    let tail = u32::from_le_bytes([b0, b1, b2, b3]);
    match head {
        NOP_HEAD if tail == NOP_TAIL => Some(Insn::Nop),
        CALL_HEAD => called(f, tail),
        _ => None,
    }
}

/// The instruction of function `f` that is a call with this tail.
fn called(f: FuncNo, tail: u32) -> Option<Insn>
    requires { f.0 < FUNCS }
    ensures some { IfSome result (λ insn. IsInsn insn × (head_byte insn ≡ CALL_HEAD) × (tail_number f.0 insn ≡ tail)) }
    ensures none { IfNone result ((insn : Insn) → IsInsn insn → head_byte insn ≡ CALL_HEAD → tail_number f.0 insn ≢ tail) }
{
    let target = (function_address(f) + SITE_BYTES).checked_add(tail)?;
    match target {
        LIST_CALLER => Some(Insn::List),
        _ => Some(Insn::Own(slot_at(target)?)),
    }
}

/// The slot whose trampoline is at this address.
fn slot_at(address: u32) -> Option<u8>
    ensures some { IfSome result (λ slot. (slot < TRAMPS) × (trampoline_at slot ≡ address)) }
    ensures none { IfNone result ((slot : ℕ) → slot < TRAMPS → trampoline_at slot ≢ address) }
{
    let offset = address.checked_sub(FIRST_TRAMPOLINE)?;
    let slot = offset / TRAMPOLINE_STEP;
    if offset % TRAMPOLINE_STEP == 0 && slot < TRAMPS {
        Some(slot as u8)
    } else {
        None
    }
}
