//! The error of the answer.

ghost use Rattle.std.specs.Prelude.{◌≡◌};

use gp_base::{NoMemory, Refusal};

/// Why there is no answer.
#[derive(Drop)]
pub enum SerialStop {
    /// A transaction that committed does not run over the row versions: E25 or E26; or there are too many anomalies: E27.
    Refused(Refusal),
    /// Memory ran out.
    NoMemory,
}

impl From<NoMemory> for SerialStop {
    ghost use Rattle.gp_serial.specs.declared.error.SerialStop.TheVariants as stop;

    ghost from_gives = { λ _ e. e ≡ stop.NoMemory };

    fn from(_error: NoMemory) -> SerialStop {
        SerialStop::NoMemory
    }
}
