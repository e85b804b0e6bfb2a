//! Writes to standard output and to standard error.
ghost use Rattle.std.specs.Prelude.{◌≡◌, ◌∷◌, ◌++◌, [], IfErr, OnOk};
ghost use Rattle.std.specs.Io.KnownBytes.{Appends};
ghost use Rattle.apex_files.specs.Refusal.{status_of, refusal_line};

use crate::refusal::Refusal;
use std::io;
use std::io::Write;

/// Writes all bytes.
pub fn print<'a, W: Write>(output: &mut W, bytes: &[u8]) -> Result<(), Refusal<'a>>
    ensures written { OnOk result
        (Appends (W.contents output.old) (W.contents output.new) bytes.now) }
    ensures refused { IfErr result (λ refusal. refusal ≡ Refusal.Output) }
{
    if output.write_all(bytes).is_err() || output.flush().is_err() {
        return Err(Refusal::Output);
    }
    Ok(())
}

/// Writes the line of a refusal, and returns its status. If the line can't be written, only the status reports the
/// refusal.
pub fn refuse<E: Write>(refusal: Refusal<'_>, errors: &mut E) -> u8
    ensures { result ≡ status_of refusal.entry }
{
    let _ = write_line(&refusal, errors);
    refusal.status()
}

/// Writes the line of a refusal.
fn write_line<E: Write>(refusal: &Refusal<'_>, errors: &mut E) -> io::Result<()>
    ensures { let line = refusal_line refusal.now ++ 10 ∷ [] in
        OnOk result (Appends (E.contents errors.old) (E.contents errors.new) line) }
{
    writeln!(errors, "{refusal}")
}
