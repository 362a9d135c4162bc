ghost use Rattle.std.specs.Prelude.{◌≡◌, ◌==◌, ◌<◌, [], ◌∷◌, IfSome, length, position};
ghost use Rattle.std.specs.Option.{option_map_or};
ghost use Rattle.std.specs.List.{slice_split};
ghost use Rattle.std.specs.Iterator.{YieldsFirstRef, item_count};

use memchr::memchr;
use std::marker::Model;

/// The pieces of some bytes between separators, in order: one more than there are separators.
#[derive(Drop)]
pub struct Pieces<'a> {
    rest: Option<&'a [u8]>,
    separator: u8,
}

impl<'a> Model for Pieces<'a> {
    ghost use Rattle.std.specs.Prelude.{List, ℕ, [], ◌==◌};
    ghost use Rattle.std.specs.Option.{option_map_or};
    ghost use Rattle.std.specs.List.{slice_split};

    ghost Value = { List (List ℕ) };

    ghost view = { λ p. option_map_or (λ r. slice_split (λ b. b == p.separator) r.now) p.rest [] };
}

impl<'a> Pieces<'a> {
    ghost use Rattle.std.specs.Prelude.{◌≡◌, ◌==◌};
    ghost use Rattle.std.specs.List.{slice_split};

    /// All pieces of the bytes.
    pub fn new(bytes: &'a [u8], separator: u8) -> Pieces<'a>
        ensures { result ≡ slice_split (λ b. b == separator) bytes.now }
    {
        Pieces {
            rest: Some(bytes),
            separator,
        }
    }
}

impl<'a> Iterator for Pieces<'a> {
    type Item = &'a [u8];

    ghost next_gives = { YieldsFirstRef (λ s. s) };

    ghost remaining = { item_count (λ s. s) };

    fn next(&mut self) -> Option<&'a [u8]> {
        let rest = self.rest?;
        let (piece, rest) = split_first(rest, self.separator);
        self.rest = rest;
        Some(piece)
    }
}

// The first piece, and what follows its separator.
fn split_first(bytes: &[u8], separator: u8) -> (&[u8], Option<&[u8]>)
    ensures { slice_split (λ b. b == separator) bytes.now ≡ result.0.now ∷ option_map_or (λ r. slice_split (λ b. b == separator) r.now) result.1 [] }
{
    match separator_at(bytes, separator) {
        Some(at) => (&bytes[..at], Some(&bytes[at + 1..])),
        None => (bytes, None),
    }
}

fn separator_at(bytes: &[u8], separator: u8) -> Option<usize>
    ensures first { result ≡ position (λ b. b == separator) bytes.now }
    ensures within { IfSome result (λ at. at < length bytes.now) }
{
    memchr(separator, bytes)
}
