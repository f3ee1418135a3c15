//! The instruction that a call site's `next` word tells, as a number.

ghost use Rattle.std.specs.Prelude.{◌≡◌, ◌+◌, ◌<◌};
ghost use Rattle.ft_base.specs.declared.limits.TheConstants.{TRAMPS};
ghost use Rattle.word_map.specs.Instructions.{insn_numbered, number_of};

use site_bytes::Insn;

/// The number of an instruction.
pub fn number_of(insn: Insn) -> u64
    ensures { result ≡ number_of insn }
{
    match insn {
        Insn::Nop => 0,
        Insn::List => 1,
        Insn::Own(slot) => 2 + u64::from(slot),
    }
}

/// The instruction of a number.
pub fn insn_numbered(number: u64) -> Insn
    requires { number < 2 + TRAMPS }
    ensures { result ≡ insn_numbered number }
{
    match number {
        0 => Insn::Nop,
        1 => Insn::List,
        _ => Insn::Own((number - 2) as u8),
    }
}
