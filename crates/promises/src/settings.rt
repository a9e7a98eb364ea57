//! A copy of the settings.
ghost use Rattle.std.specs.Prelude.{◌≡◌, IfOk};

use hls_base::settings::Settings;
use std::alloc::{AllocError, Global};

/// Another owner of the same settings.
pub fn copy_settings(alloc: Global, settings: &Settings) -> Result<Settings, AllocError>
    ensures { IfOk result (λ s. s ≡ settings.now) }
{
    Ok(Settings {
        top: settings.top.copy(alloc)?,
        mul: settings.mul,
        div: settings.div,
        ports: settings.ports,
        plain: settings.plain,
        period: settings.period,
    })
}
