//! Cutting an input at its line `log`.

ghost use Rattle.std.specs.Prelude.{◌≡◌, ◌+◌, ◌++◌, ◌<◌, ◌^◌, length, IfOk, IfErr, IfSome, IfNone};
ghost use Rattle.std.specs.List.{position};
ghost use Rattle.judge_app.specs.Cut.{IsCut, IsNoLog, IsUncut, is_feed, log_line};

/// The line between the script and the log.
const LINE: &[u8] = b"log\n";

/// A script and a log.
#[derive(Clone, Copy, Drop)]
pub struct Parts<'a> {
    /// The script.
    pub script: &'a [u8],
    /// The log.
    pub log: &'a [u8],
    /// The number of the log's first line in the input, from 1.
    pub first: u32,
}

/// Cuts an input at its first line `log`. The error is the number of the line after its last, if there is
/// no such line.
pub fn cut_input(input: &[u8]) -> Result<Parts<'_>, u32>
    requires { length input.now + 2 < 2 ^ 32 }
    ensures some { IfOk result (λ p. IsCut input.entry.now p.script.now p.log.now p.first) }
    ensures none { IfErr result (λ next. IsUncut input.entry.now next) }
{
    let mut line = 1;
    let mut at = 0;
    loop {
        if let Some(log) = below_line(&input[at..]) {
            return Ok(Parts {
                script: &input[..at],
                log,
                first: line + 1,
            });
        }
        match feed(&input[at..]) {
            Some(feed) => at += feed + 1,
            None => return Err(line),
        }
        line += 1;
    }
}

/// What stands below the line `log`, if the text begins with it.
fn below_line(text: &[u8]) -> Option<&[u8]>
    ensures some { IfSome result (λ log. text.entry.now ≡ log_line ++ log.now) }
    ensures none { IfNone result (IsNoLog text.entry.now) }
{
    text.strip_prefix(LINE)
}

/// The place of the first line feed.
fn feed(text: &[u8]) -> Option<usize>
    ensures { result ≡ position is_feed text.now }
{
    text.iter().position(|byte| *byte == b'\n')
}
