//! The views that are open.
ghost use Rattle.std.specs.Prelude.{◌≡◌, ℕ, ◌<◌, true, false, None, IfSome, length, not, cond};
ghost use Rattle.std.specs.List.{position};
ghost use Rattle.std.specs.FinSet as finite_set;

use std::marker::Model;

/// How many views may be open.
const VIEWS: usize = ss_model::VIEWS as usize;

/// The open views: a set of numbers below 1024. It takes no memory.
#[derive(Drop)]
pub(crate) struct Views {
    open: [bool; VIEWS],
}

impl Model for Views {
    ghost use Rattle.ss_model.specs.State.{ViewSet};
    ghost use Rattle.std.specs.Coded.{coded_ℕ};
    ghost use Rattle.std.specs.FinSet as finite_set;

    ghost Value = { ViewSet };

    ghost coded = { finite_set.code coded_ℕ };

    ghost use Rattle.ss_core.specs.Calls.{marked_from};

    ghost view = { λ v. marked_from 0 v.open };
}

impl Views {
    /// No view is open.
    pub fn new() -> Views
        ensures { result ≡ finite_set.empty }
    {
        Views {
            open: [false; VIEWS],
        }
    }

    /// Whether the view of this number is open.
    pub fn contains(&self, view: u32) -> bool
        ensures { result ≡ finite_set.contains self.now view }
    {
        (view as usize) < VIEWS && self.open[view as usize]
    }

    /// Opens the view of the least number that is not open; None where all are.
    pub fn open(&mut self) -> Option<u32>
        ensures all { result ≡ None → (self.new ≡ self.old) × ((n : ℕ) → n < 1024 → finite_set.contains self.old n ≡ true) }
        ensures least { IfSome result (λ view. (view < 1024) × (finite_set.contains self.old view ≡ false) × ((n : ℕ) → n < view → finite_set.contains self.old n ≡ true)) }
        ensures opened { IfSome result (λ view. self.new ≡ finite_set.insert self.old view) }
    {
        let view = first_closed(&self.open)?;
        self.open[view] = true;
        Some(view as u32)
    }

    /// Closes a view, and answers whether it was open.
    pub fn close(&mut self, view: u32) -> bool
        ensures open { result ≡ finite_set.contains self.old view }
        ensures closed { self.new ≡ finite_set.remove self.old view }
        ensures still { result ≡ false → self.new ≡ self.old }
    {
        let open = self.contains(view);
        if open {
            self.open[view as usize] = false;
        }
        open
    }

    /// How many views are open.
    pub fn count(&self) -> u32
        ensures { result ≡ finite_set.len self.now }
    {
        let mut count = 0;
        for open in &self.open {
            count += ones(*open);
        }
        count
    }
}

fn first_closed(open: &[bool]) -> Option<usize>
    ensures first { result ≡ position (λ o. not o) open.now }
    ensures within { IfSome result (λ at. at < length open.now) }
{
    open.iter().position(|open| !open)
}

// How many views one mark counts.
fn ones(open: bool) -> u32
    ensures { result ≡ cond «open» 1 0 }
{
    if open { 1 } else { 0 }
}
