//! Numbers within bounds.

ghost use Rattle.std.specs.Prelude.{◌≡◌, true, if◌then◌else◌};
ghost use Rattle.std.specs.Str.Parse.{digits_value};
ghost use Rattle.filter_commands.specs.Forms.{is_number, is_outside};

/// The number that these digits write, if it is one of 1 to `most`.
pub fn number_to(digits: &str, most: u32) -> Option<u32>
    requires { is_number digits.now ≡ true }
    ensures { let number = digits_value 10 digits.now in result ≡ (if is_outside most number then None else Some number) }
{
    match digits.parse::<u32>() {
        Ok(number) => {
            if number == 0 || number > most {
                None
            } else {
                Some(number)
            }
        }
        // The number is past 32 bits, and so past `most`.
        Err(_) => None,
    }
}
