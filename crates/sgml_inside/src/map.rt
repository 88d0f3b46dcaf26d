// Settings of short reference maps.
ghost use Rattle.std.specs.Prelude.{◌≡◌};
ghost use Rattle.sgml_theory_reading.specs.Maps.{setting_or};

use sgml_dtd_maps::MapOf;

/// A setting, or where it is the parent's the next one (11.6).
pub(crate) fn setting_or(setting: MapOf, next: MapOf) -> MapOf
    ensures { result ≡ setting_or setting next }
{
    match setting {
        MapOf::Parent => next,
        MapOf::Empty | MapOf::Map(_) => setting,
    }
}
