//! Marks.
ghost use Rattle.std.specs.Prelude.{◌≡◌, ◌≢◌, ℕ, ◌+◌, ◌-◌, ◌/◌, ◌<◌, ◌≤◌, ◌^◌, ◌↔◌, max, List, Option, None, Some, Ok, Err, OnOk, OnErr, MatchOption, option_map};
ghost use Rattle.std.specs.FinMap as finite_map;
ghost use Rattle.ss_marks.specs.declared.colour.Colour.TheVariants as colour;
ghost use Rattle.ss_marks.specs.Marks.{row_of, colour_of, mark_of, IsLive, IsColoured, NoneIs, Recolours, coloured, whitened, count_in};

use crate::colour::Colour;
use crate::fault::RowFault;
use crate::index::Index;
use crate::room::{grow, place_row};
use crate::row::{Row, recolour, whiten};
use crate::stack::Stack;
use ss_cid::Cid;
use std::alloc::Global;
use std::marker::Model;

/// Rows with colours, one for each of some CIDs.
///
/// A row has a number of 32 bits that it keeps until it is removed. Rows are handed out by [`Marks::add`], into room that
/// [`Marks::reserve`] made; no other call takes memory.
#[derive(Debug, Drop)]
pub struct Marks {
    rows: Vec<Row>,
    /// For each row the one under it in its stack.
    links: Vec<u32>,
    index: Index,
    /// The rows without a CID, to be used again.
    vacant: Stack,
    greys: Stack,
    /// How many rows have a CID.
    live: u32,
    /// How many rows are out.
    out: u32,
    limit: u32,
}

impl Model for Marks {
    ghost use Rattle.ss_marks.specs.Marks.{MarkTable, table_code};

    ghost Value = { MarkTable };

    ghost coded = { table_code };

    ghost use Rattle.ss_marks.specs.Sound.{table_of, IsSound};

    ghost view = { table_of };

    ghost invariant = { IsSound };
}

impl Marks {
    /// No rows, and room for none. There may be `limit` rows at most. It takes no memory.
    pub fn new(alloc: Global, limit: u32) -> Marks
        ensures { result ≡ record { marks = finite_map.empty; spare = 0; limit = limit } }
    {
        Marks {
            rows: Vec::new(alloc),
            links: Vec::new(alloc),
            index: Index::new(alloc),
            vacant: Stack::new(),
            greys: Stack::new(),
            live: 0,
            out: 0,
            limit,
        }
    }

    /// Makes room for `n` more rows: as many calls of [`Marks::add`] then need no memory, whatever is removed between them.
    /// It makes room for no more than these and an eighth of the rows that there was room for.
    ///
    /// `TableFull`, exactly where the live rows and `n` are together more than the limit, with that sum; and else
    /// `NoMemory`, never where there was room for `n` already. A refusal leaves the marks as they were.
    pub fn reserve(&mut self, n: u32) -> Result<(), RowFault>
        ensures ok { OnOk result (n ≤ self.new.spare) }
        ensures grows { OnOk result (self.old.spare ≤ self.new.spare) }
        ensures little { OnOk result (self.new.spare ≤ self.old.spare + n + (self.old.spare + finite_map.len self.old.marks) / 8) }
        ensures same { self.new ≡ record self.old { spare = self.new.spare } }
        ensures err { OnErr result (self.new ≡ self.old) }
        ensures full { (rows : ℕ) → (result ≡ Err (RowFault.TableFull rows)) ↔ ((rows ≡ finite_map.len self.old.marks + n) × (self.old.limit < rows)) }
        ensures reserved { n ≤ self.old.spare → result ≡ Ok tt }
    {
        let rows = u64::from(self.live) + u64::from(n);
        if rows > u64::from(self.limit) {
            return Err(RowFault::TableFull { rows });
        }
        let slots = self.index.slots();
        if rows <= slots as u64 {
            return Ok(());
        }
        let slots = next_slots(slots as u64, rows, u64::from(self.limit));
        grow(&mut self.rows, &mut self.links, &mut self.index, slots)?;
        Ok(())
    }

    /// Adds a row for a CID that has none. It is white, and its number is that of a removed row, if there is one.
    pub fn add(&mut self, cid: Cid) -> u32
        requires room { 0 < self.old.spare }
        requires absent { row_of self.old cid ≡ None }
        ensures added { self.new ≡ record self.old { marks = finite_map.insert self.old.marks cid (record { row = result; colour = colour.White }); spare = self.old.spare - 1 } }
        ensures fresh { (other : List ℕ) → row_of self.old other ≢ Some result }
        ensures within { result < self.old.limit }
    {
        let row = place_row(
            &mut self.rows,
            self.links.as_slice(),
            &mut self.vacant,
            Row {
                cid,
                colour: Some(Colour::White),
            },
        );
        self.index.insert(self.rows.as_slice(), row);
        self.live += 1;
        row
    }

    /// Removes a white row, whose number may be used again. The room stays, and is one row more.
    pub fn remove(&mut self, row: u32)
        requires { IsColoured self.old row colour.White }
        ensures { (cid : List ℕ) → row_of self.old cid ≡ Some row → self.new ≡ record self.old { marks = finite_map.remove self.old.marks cid; spare = self.old.spare + 1 } }
    {
        self.index.remove(self.rows.as_slice(), row);
        recolour(self.rows.as_mut_slice(), row, None);
        self.vacant.push(self.links.as_mut_slice(), row);
        self.live -= 1;
    }

    /// The row of a CID, or None where it has none.
    pub fn row(&self, cid: &Cid) -> Option<u32>
        ensures { result ≡ row_of self.now cid.now }
    {
        self.index.find(self.rows.as_slice(), cid)
    }

    /// The CID of a live row.
    pub fn cid(&self, row: u32) -> Cid
        requires { IsLive self.now row }
        ensures value { row_of self.now result ≡ Some row }
        ensures only { (cid : List ℕ) → row_of self.now cid ≡ Some row → cid ≡ result }
    {
        self.rows[row as usize].cid
    }

    /// The colour of a live row.
    pub fn colour(&self, row: u32) -> Colour
        requires { IsLive self.now row }
        ensures { (cid : List ℕ) → row_of self.now cid ≡ Some row → colour_of self.now cid ≡ Some result }
    {
        match self.rows[row as usize].colour {
            Some(colour) => colour,
            None => unreachable!(),
        }
    }

    /// Makes all rows white. None is grey or out afterwards.
    pub fn whiten(&mut self)
        ensures white { (cid : List ℕ) → mark_of self.new cid ≡ option_map whitened (mark_of self.old cid) }
        ensures same { self.new ≡ record self.old { marks = self.new.marks } }
    {
        whiten(self.rows.as_mut_slice());
        self.greys = Stack::new();
        self.out = 0;
    }

    /// Makes a white row grey, and leaves a live row of another colour.
    pub fn shade(&mut self, row: u32)
        requires { IsLive self.old row }
        ensures white { (cid : List ℕ) → mark_of self.old cid ≡ Some (record { row = row; colour = colour.White }) → self.new ≡ coloured self.old cid row colour.Grey }
        ensures other { (cid : List ℕ) (other : Colour) → mark_of self.old cid ≡ Some (record { row = row; colour = other }) → other ≢ colour.White → self.new ≡ self.old }
    {
        let Colour::White = self.colour(row) else {
            return;
        };
        recolour(self.rows.as_mut_slice(), row, Some(Colour::Grey));
        self.greys.push(self.links.as_mut_slice(), row);
    }

    /// Takes a grey row to be read: it is out. None, and no change, exactly where no row is grey.
    pub fn pop_grey(&mut self) -> Option<u32>
        ensures { MatchOption result (NoneIs colour.Grey self.old × (self.new ≡ self.old)) (λ row. Recolours self.old self.new row colour.Grey colour.Out) }
    {
        let row = self.greys.pop(self.links.as_slice())?;
        recolour(self.rows.as_mut_slice(), row, Some(Colour::Out));
        self.out += 1;
        Some(row)
    }

    /// Makes a row that is out grey again.
    pub fn put_back(&mut self, row: u32)
        requires { IsColoured self.old row colour.Out }
        ensures { (cid : List ℕ) → row_of self.old cid ≡ Some row → self.new ≡ coloured self.old cid row colour.Grey }
    {
        recolour(self.rows.as_mut_slice(), row, Some(Colour::Grey));
        self.greys.push(self.links.as_mut_slice(), row);
        self.out -= 1;
    }

    /// Makes a row that is out black.
    pub fn blacken(&mut self, row: u32)
        requires { IsColoured self.old row colour.Out }
        ensures { (cid : List ℕ) → row_of self.old cid ≡ Some row → self.new ≡ coloured self.old cid row colour.Black }
    {
        recolour(self.rows.as_mut_slice(), row, Some(Colour::Black));
        self.out -= 1;
    }

    /// How many rows are live, how many of them are grey, and how many are out.
    pub fn counts(&self) -> (u32, u32, u32)
        ensures live { result.0 ≡ finite_map.len self.now.marks }
        ensures grey { result.1 ≡ count_in colour.Grey self.now.marks }
        ensures out { result.2 ≡ count_in colour.Out self.now.marks }
        ensures none_grey { (result.1 ≡ 0) ↔ NoneIs colour.Grey self.now }
        ensures none_out { (result.2 ≡ 0) ↔ NoneIs colour.Out self.now }
    {
        (self.live, self.greys.len(), self.out)
    }

    /// A law, with nothing to run: no two CIDs share a row.
    pub fn each_row_has_one_cid(&self)
        ensures { (a b : List ℕ) (row : ℕ) → row_of self.now a ≡ Some row → row_of self.now b ≡ Some row → a ≡ b }
    {
        let _live = self.live;
    }
}

/// How many slots a table with so many gets that needs `rows`: an eighth more, or as many as are needed.
fn next_slots(slots: u64, rows: u64, limit: u64) -> usize
    requires within { rows ≤ limit }
    requires small { limit < 2 ^ 32 }
    requires few { slots ≤ limit }
    ensures enough { rows ≤ result }
    ensures little { result ≤ max (slots + slots / 8) rows }
    ensures within { result ≤ limit }
{
    (slots + slots / 8).max(rows).min(limit) as usize
}
