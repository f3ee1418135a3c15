//! Functions by line number.

ghost use Rattle.std.specs.Prelude.{◌≡◌, ◌-◌, true, if◌then◌else◌};
ghost use Rattle.std.specs.Str.Parse.{digits_value};
ghost use Rattle.filter_commands.specs.Forms.{is_number};
ghost use Rattle.filter_commands.specs.Causes.{has_no_line};

use crate::numbers::number_to;

/// The number of the function at the line that these digits name, in a table of this size. Lines
/// count from 1 and functions from 0. `None` exactly if the table has no such line.
pub fn function_at_line(digits: &str, size: u32) -> Option<u32>
    requires { is_number digits.now ≡ true }
    ensures { let number = digits_value 10 digits.now in result ≡ (if has_no_line size number then None else Some (number - 1)) }
{
    let number = number_to(digits, size)?;
    Some(number - 1)
}
