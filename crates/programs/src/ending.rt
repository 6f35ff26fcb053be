ghost use Rattle.std.specs.Prelude.{◌≡◌, MatchResult};
ghost use Rattle.std.specs.Process.{exit_status};

use std::fmt::Display;
use std::io::Eprint;
use std::process::ExitCode;

// How a program ends: with status 0, or with status 1 and its error behind its name on standard error.
// A failed write is ignored, since nothing is left to tell it to.
pub fn exit_code<E: Display + Drop>(
    rt: &impl Eprint,
    name: &str,
    outcome: Result<(), E>,
) -> ExitCode
    ensures { MatchResult outcome (λ _. exit_status result ≡ 0) (λ _. exit_status result ≡ 1) }
{
    match outcome {
        Ok(()) => ExitCode::SUCCESS,
        Err(error) => {
            let _ = eprintln!(rt; "{name}: {error}");
            ExitCode::FAILURE
        }
    }
}
