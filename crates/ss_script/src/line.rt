//! The lines of a script that hold a call.

ghost use Rattle.std.specs.Prelude.{◌≡◌, ◌<◌, ◌↔◌, [], Some, length, slice_get, IsTrue};
ghost use Rattle.std.specs.Vec.Iter.{into_iter_items};

use crate::call::ScriptCall;
use std::marker::Model;
use std::vec::IntoIter;

/// A line that holds a call.
#[derive(Debug, Drop)]
pub struct Line {
    /// The client that calls, from 0 to 7.
    pub client: u8,
    /// The line's number, from 1.
    pub line: u32,
    /// What the client asks for.
    pub call: ScriptCall,
}

impl Model for Line {
    ghost use Rattle.std.specs.Prelude.{◌<◌};
    ghost use Rattle.ss_script.specs.Asked.{Asked};

    ghost Value = { Asked };

    ghost view = { λ l. record { client = l.client; line = l.line; call = l.call } };

    ghost invariant = { λ l. l.client < 8 };
}

/// The lines of a script that hold a call, in order.
#[derive(Debug, Drop)]
pub struct Lines {
    lines: Vec<Line>,
}

impl Model for Lines {
    ghost use Rattle.std.specs.Prelude.{List};
    ghost use Rattle.ss_script.specs.Asked.{Asked};

    ghost Value = { List Asked };

    ghost view = { λ l. l.lines.items };
}

impl Lines {
    /// How many lines there are.
    pub fn len(&self) -> usize
        ensures { result ≡ length self.now }
    {
        self.lines.len()
    }

    /// Whether there is no line.
    pub fn is_empty(&self) -> bool
        ensures { IsTrue result ↔ (self.now ≡ []) }
    {
        self.lines.is_empty()
    }

    /// The line at index `i`, counted from 0.
    pub fn at(&self, i: usize) -> &Line
        requires { i < length self.now }
        ensures { slice_get self.now i ≡ Some result.now }
    {
        &self.lines[i]
    }
}

impl From<Vec<Line>> for Lines {
    ghost from_gives = { λ vec lines. lines ≡ vec.items };

    fn from(lines: Vec<Line>) -> Lines {
        Lines { lines }
    }
}

impl IntoIterator for Lines {
    type Item = Line;

    type IntoIter = IntoIter<Line>;

    ghost into_iter_gives = { λ lines iterator. into_iter_items iterator ≡ lines };

    fn into_iter(self) -> IntoIter<Line> {
        let Lines { lines } = self;
        lines.into_iter()
    }
}
