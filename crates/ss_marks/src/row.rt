//! One row.
ghost use Rattle.std.specs.Prelude.{◌≡◌, ◌<◌, length, option_map};
ghost use Rattle.ss_marks.specs.declared.colour.Colour.TheVariants.{White};
ghost use Rattle.ss_marks.specs.Rows.{with_colour, whitened_rows};

use crate::colour::Colour;
use ss_cid::Cid;

/// A CID with its colour.
#[derive(Clone, Copy, Debug)]
pub(crate) struct Row {
    pub(crate) cid: Cid,
    /// None where the row is vacant; its CID is then that of the last block that had it.
    pub(crate) colour: Option<Colour>,
}

/// Gives a row another colour.
pub(crate) fn recolour(rows: &mut [Row], row: u32, colour: Option<Colour>)
    requires { row < length rows.old }
    ensures { rows.new ≡ with_colour rows.old row colour }
{
    let row = &mut rows[row as usize];
    row.colour = colour;
}

/// Makes all rows white that are not vacant.
pub(crate) fn whiten(rows: &mut [Row])
    ensures { rows.new ≡ whitened_rows rows.old }
{
    for row in rows.iter_mut() {
        row.colour = whitened(row.colour);
    }
}

/// White, where there is a colour.
fn whitened(colour: Option<Colour>) -> Option<Colour>
    ensures { result ≡ option_map (λ _. White) colour }
{
    colour.map(|_| Colour::White)
}
