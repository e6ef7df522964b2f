//! The error of this crate.

ghost use Rattle.std.specs.Prelude.{◌≡◌};

use gp_base::NoMemory;

/// Why no rows remain to be listed.
#[derive(Drop)]
pub enum RemainStop {
    /// There are too many rows.
    TooMany,
    /// Memory ran out.
    NoMemory,
}

impl From<NoMemory> for RemainStop {
    ghost use Rattle.gp_kexec.specs.declared.error.RemainStop.TheVariants as stop;

    ghost from_gives = { λ _ e. e ≡ stop.NoMemory };

    fn from(_error: NoMemory) -> RemainStop {
        RemainStop::NoMemory
    }
}
