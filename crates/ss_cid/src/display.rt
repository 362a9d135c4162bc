//! CIDs and lists print CIDs as their texts.
ghost use Rattle.std.specs.Prelude.{Some};
ghost use Rattle.ss_cid.specs.Text.{cid_text};

use crate::cid::Cid;
use std::{fmt, str};

impl fmt::Display for Cid {
    ghost output = { λ c. Some (cid_text c) };

    fn fmt<W: fmt::Write>(&self, f: &mut fmt::Formatter<W>) -> fmt::Result {
        let mut text = [0; 120];
        let len = self.write_text(&mut text);
        match str::from_utf8(&text[..len]) {
            Ok(text) => f.pad(text),
            Err(_) => unreachable!(),
        }
    }
}

impl fmt::Debug for Cid {
    fn fmt<W: fmt::Write>(&self, f: &mut fmt::Formatter<W>) -> fmt::Result {
        fmt::Display::fmt(self, f)
    }
}
