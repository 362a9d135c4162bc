//! What the input of `trace` may have, as a law: the contract of a function with an empty body.

ghost use Rattle.std.specs.Prelude.{◌≡◌};
ghost use Rattle.ss_app.specs.declared.TheConstants.{SCRIPT_BYTES};

/// The limit, as a number.
pub fn limits()
    ensures { SCRIPT_BYTES ≡ 16777216 }
{}
