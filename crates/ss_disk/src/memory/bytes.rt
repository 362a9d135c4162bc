// The bytes of a file in memory.
ghost use Rattle.std.specs.Prelude.{◌≡◌, ◌≤◌, IfOk, OnOk, OnErr, length, vec_len};
ghost use Rattle.ss_device.specs.Disk.{Holds};

use super::way::Way;
use std::alloc::{AllocError, Global};

/// Puts bytes into a file from `at` on. Where they pass its end the file grows.
pub(super) fn overwrite(file: &mut Vec<u8>, at: usize, bytes: &[u8]) -> Result<(), AllocError>
    requires { at ≤ vec_len file.old }
    ensures ok { OnOk result (Holds at bytes.now file.old.items file.new.items) }
    ensures err { OnErr result (file.new.items ≡ file.old.items) }
{
    let inside = bytes.len().min(file.len() - at);
    file.extend_from_slice(&bytes[inside..])?;
    file[at..at + inside].copy_from_slice(&bytes[..inside]);
    Ok(())
}

/// What a write of these bytes leaves that goes this way.
pub(super) fn cut_short(alloc: Global, bytes: &[u8], way: Way) -> Result<Vec<u8>, AllocError>
    ensures { IfOk result (λ left. length left.items ≤ length bytes.now) }
{
    match way {
        Way::Absent => Ok(Vec::new(alloc)),
        Way::Whole => bytes.to_vec(alloc),
        Way::Half => bytes[..bytes.len() / 2].to_vec(alloc),
        Way::Filled { byte } => vec![in alloc; byte; bytes.len()],
    }
}
