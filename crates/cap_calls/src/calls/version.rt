//! The version of the calls.

ghost use Rattle.std.specs.Prelude.{◌≡◌};

/// The version of the calls: 65536 times its major number, 256 times its minor number, and the
/// number of its patch.
pub fn version() -> u32
    ensures { result ≡ 131072 }
{
    131072
}
