//! What a script may have, as a law: the contract of a function with an empty body.

ghost use Rattle.std.specs.Prelude.{◌≡◌};
ghost use Rattle.ss_script.specs.declared.TheConstants.{LINES, SCRIPT_BYTES, CLIENTS};

/// The limits, as numbers.
pub fn limits()
    ensures { (LINES ≡ 100000) × (SCRIPT_BYTES ≡ 16777216) × (CLIENTS ≡ 8) }
{}
