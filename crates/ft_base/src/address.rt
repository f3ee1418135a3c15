//! Where functions stand in memory. The numbers are this project's own.

ghost use Rattle.std.specs.Prelude.{◌≡◌, ◌<◌};
ghost use Rattle.ft_base.specs.Address.{function_at};

use crate::limits::FUNCS;
use crate::number::FuncNo;

/// The address of function 0.
pub const FIRST_FUNCTION: u32 = 0x1000;

/// The bytes from the address of a function to that of the next.
pub const FUNCTION_STEP: u32 = 64;

/// The address of a function, at which its call site begins.
pub fn function_address(f: FuncNo) -> u32
    requires { f.0 < FUNCS }
    ensures { result ≡ function_at f.0 }
{
    FIRST_FUNCTION + FUNCTION_STEP * f.0
}
