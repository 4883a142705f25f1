// What is printed as the answer to a line.
ghost use Rattle.std.specs.Prelude.{◌≡◌, is_ok, string_bytes};
ghost use Rattle.refusal.specs.Numbers.{number_of};
ghost use Rattle.lines.specs.Printed.{bad_line, no_line, ok_line, printed};

use refusal::Refusal;
use std::alloc::AllocError;

// Prints the answer to a line that is no command, or not one that can come now.
pub fn print_bad(out: &mut String) -> Result<(), AllocError>
    ensures { string_bytes out.new ≡ printed (is_ok result) (string_bytes out.old) bad_line }
{
    out.push_str("bad\n")
}

// Prints the answer to a call that was refused.
pub fn print_no(out: &mut String, why: Refusal) -> Result<(), AllocError>
    ensures { string_bytes out.new ≡ printed (is_ok result) (string_bytes out.old) (no_line (number_of why)) }
{
    // Whole first, here and below: where memory is wanting, nothing is printed.
    let n = why.number();
    let text = format!(in *out.allocator(); "no {n}\n")?;
    out.push_str(text.as_str())
}

// Prints the answer to a call that was accepted; after a read, with the words.
pub fn print_ok(
    out: &mut String,
    filled: usize,
    drawn: usize,
    words: &[u16],
) -> Result<(), AllocError>
    ensures { string_bytes out.new ≡ printed (is_ok result) (string_bytes out.old) (ok_line filled drawn words.now) }
{
    let mut text = format!(in *out.allocator(); "ok {filled} {drawn}")?;
    for word in words {
        write!(text, " {word}")?;
    }
    text.push('\n')?;
    out.push_str(text.as_str())
}
