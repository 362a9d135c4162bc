//! Room for rows.
ghost use Rattle.std.specs.Prelude.{◌≡◌, ◌≢◌, ℕ, ◌+◌, ◌-◌, ◌<◌, ◌≤◌, ◌^◌, None, OnOk, OnErr, min, length, slice_index, vec_capacity};
ghost use Rattle.ss_marks.specs.Rows.{row_at, IsVacant, IsStack};
ghost use Rattle.ss_marks.specs.Index.{Indexes};

use crate::index::Index;
use crate::row::Row;
use crate::stack::Stack;
use std::alloc::AllocError;

/// Places a row where one is vacant, or else after the last one. The result is its number.
pub(crate) fn place_row(rows: &mut Vec<Row>, links: &[u32], vacant: &mut Stack, row: Row) -> u32
    requires vacant { IsStack (IsVacant rows.old.items) links.now vacant.old.len vacant.old.top }
    requires links { length rows.old.items ≤ length links.now }
    requires room { vacant.old.len ≡ 0 → length rows.old.items < vec_capacity rows.old }
    requires fits { length rows.old.items < 2 ^ 32 }
    ensures was { (row_at rows.old.items result).colour ≡ None }
    ensures at { row_at rows.new.items result ≡ row }
    ensures others { (other : ℕ) → other ≢ result → row_at rows.new.items other ≡ row_at rows.old.items other }
    ensures within { result < length rows.new.items }
    ensures count { length rows.new.items + vacant.old.len ≡ length rows.old.items + vacant.new.len + 1 }
    ensures taken { vacant.new.len ≡ vacant.old.len - 1 }
    ensures vacant { IsStack (IsVacant rows.new.items) links.now vacant.new.len vacant.new.top }
    ensures capacity { vec_capacity rows.new ≡ vec_capacity rows.old }
{
    match vacant.pop(links) {
        Some(number) => {
            rows[number as usize] = row;
            number
        }
        None => {
            let number = rows.len() as u32;
            rows.push_reserved(row);
            number
        }
    }
}

/// Makes room for `slots` rows, and a look-up with so many slots. If it runs out of memory, the look-up is the old one.
pub(crate) fn grow(
    rows: &mut Vec<Row>,
    links: &mut Vec<u32>,
    index: &mut Index,
    slots: usize,
) -> Result<(), AllocError>
    requires within { length rows.old.items ≤ slots }
    requires links { length rows.old.items ≤ length links.old.items }
    requires some { 0 < slots }
    requires fits { slots < 2 ^ 32 }
    ensures rows { rows.new.items ≡ rows.old.items }
    ensures capacity { vec_capacity rows.old ≤ vec_capacity rows.new }
    ensures kept { (row : ℕ) → row < length rows.old.items → slice_index links.new.items row ≡ slice_index links.old.items row }
    ensures links { min (length links.old.items) slots ≤ length links.new.items }
    ensures index { OnOk result (Indexes rows.old.items index.new) }
    ensures slots { OnOk result ((length index.new.heads.items ≡ slots) × (length index.new.below.items ≡ slots)) }
    ensures room { OnOk result ((slots ≤ vec_capacity rows.new) × (slots ≤ length links.new.items)) }
    ensures err { OnErr result (index.new ≡ index.old) }
{
    let alloc = *rows.allocator();
    rows.reserve_exact(slots - rows.len())?;
    links.reserve_exact(slots.saturating_sub(links.len()))?;
    links.resize(slots, 0)?;
    *index = Index::build(alloc, rows.as_slice(), slots)?;
    Ok(())
}
