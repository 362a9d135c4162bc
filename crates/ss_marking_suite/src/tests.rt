ghost use Rattle.std.specs.Prelude.{OnOk};
ghost use Rattle.ss_marking_suite.specs.Rows.{has_block};
ghost use Rattle.ss_txn.specs.Marked.{HasRowsOf, KeepsRows};

mod forms;
mod graph;
mod random;
mod stored;

use forms::{array_of, numbered};
use graph::{random_block, random_link, stored_under};
use random::Random;
use ss_cid::{Cid, Cids, Parcel};
use ss_marks::{Colour, Marks};
use ss_model::reach;
use ss_txn::{ScanReply, Txn};
use std::alloc::Global;
use std::test::Fail;
use stored::{Stored, store};

/// A graph of blocks that grows from a seed: those that were stored of it, and the CIDs that were shown.
#[derive(Drop)]
struct RandomGraph {
    random: Random,
    size: u64,
    kept: Parcel,
    shown: Cids,
}

impl RandomGraph {
    fn new(alloc: Global, seed: u64, size: u64) -> RandomGraph {
        RandomGraph {
            random: Random::new(seed),
            size,
            kept: Parcel::new(alloc),
            shown: Cids::new(alloc),
        }
    }
}

// No blocks, and at most so many rows.
fn nothing(alloc: Global, rows: u32) -> (Marks, Stored)
    ensures { HasRowsOf (has_block result.1.blocks) result.0 }
{
    (Marks::new(alloc, rows), Stored::new(alloc))
}

// Stores the block under a CID, and notes the pair.
fn put(
    alloc: Global,
    marks: &mut Marks,
    blocks: &mut Stored,
    kept: &mut Parcel,
    cid: &Cid,
    block: &[u8],
) -> Result<(), Fail>
    requires { HasRowsOf (has_block blocks.old.blocks) marks.old }
    ensures { OnOk result (HasRowsOf (has_block blocks.new.blocks) marks.new) }
{
    store(alloc, marks, blocks, cid, block)?;
    kept.add(*cid, block)?;
    Ok(())
}

// Reads a grey row, and tells whether there was one.
fn scan(txn: &mut Txn, alloc: Global, marks: &mut Marks, blocks: &mut Stored) -> Result<bool, Fail>
    requires { HasRowsOf (has_block blocks.old.blocks) marks.old }
    ensures { HasRowsOf (has_block blocks.new.blocks) marks.new }
{
    match txn.scan_one(alloc, marks, blocks) {
        ScanReply::Scanned => Ok(true),
        ScanReply::NothingGrey => Ok(false),
        ScanReply::Fault => Err("a fault".into()),
        ScanReply::NoMemory => Err("no memory".into()),
    }
}

// Reads up to so many grey rows.
fn scan_some(
    txn: &mut Txn,
    alloc: Global,
    marks: &mut Marks,
    blocks: &mut Stored,
    most: u64,
) -> Result<(), Fail>
    requires { HasRowsOf (has_block blocks.old.blocks) marks.old }
    ensures { OnOk result (HasRowsOf (has_block blocks.new.blocks) marks.new) }
{
    for _scanned in 0..most {
        if !scan(txn, alloc, marks, blocks)? {
            break;
        }
    }
    Ok(())
}

// Stores a random block of a graph under this CID.
fn put_random(
    alloc: Global,
    marks: &mut Marks,
    blocks: &mut Stored,
    graph: &mut RandomGraph,
    cid: &Cid,
) -> Result<(), Fail>
    requires { HasRowsOf (has_block blocks.old.blocks) marks.old }
    ensures { OnOk result (HasRowsOf (has_block blocks.new.blocks) marks.new) }
{
    let block = random_block(alloc, &mut graph.random, graph.size)?;
    put(alloc, marks, blocks, &mut graph.kept, cid, block.as_slice())
}

// Stores the first blocks of a graph.
fn put_first(
    alloc: Global,
    marks: &mut Marks,
    blocks: &mut Stored,
    graph: &mut RandomGraph,
    first: u64,
) -> Result<(), Fail>
    requires { HasRowsOf (has_block blocks.old.blocks) marks.old }
    ensures { OnOk result (HasRowsOf (has_block blocks.new.blocks) marks.new) }
{
    for number in 0..first {
        put_random(alloc, marks, blocks, graph, &stored_under(number)?)?;
    }
    Ok(())
}

// Shows a CID.
fn show(txn: &Txn, marks: &mut Marks, shown: &mut Cids, cid: &Cid) -> Result<(), Fail>
    ensures { KeepsRows marks.old marks.new }
{
    txn.protect(marks, cid);
    shown.push(*cid)?;
    Ok(())
}

// The number of the next block that is put: now and then that of an earlier one, which gets another block.
fn next_number(graph: &mut RandomGraph, number: u64) -> u64 {
    if graph.random.below(4) == 0 {
        graph.random.below(graph.size.max(1))
    } else {
        number
    }
}

// Reads some rows, stores a block and shows its CID, and now and then another.
fn put_next(
    alloc: Global,
    txn: &mut Txn,
    marks: &mut Marks,
    blocks: &mut Stored,
    graph: &mut RandomGraph,
    number: u64,
) -> Result<(), Fail>
    requires { HasRowsOf (has_block blocks.old.blocks) marks.old }
    ensures { OnOk result (HasRowsOf (has_block blocks.new.blocks) marks.new) }
{
    scan_some(txn, alloc, marks, blocks, graph.random.below(4))?;
    let cid = stored_under(next_number(graph, number))?;
    put_random(alloc, marks, blocks, graph, &cid)?;
    show(txn, marks, &mut graph.shown, &cid)?;
    if graph.random.below(3) == 0 {
        let cid = random_link(alloc, &mut graph.random, graph.size)?;
        show(txn, marks, &mut graph.shown, &cid)?;
    }
    Ok(())
}

// Stores the other blocks of a graph and shows CIDs, between scans.
fn put_others(
    alloc: Global,
    txn: &mut Txn,
    marks: &mut Marks,
    blocks: &mut Stored,
    graph: &mut RandomGraph,
    first: u64,
) -> Result<(), Fail>
    requires { HasRowsOf (has_block blocks.old.blocks) marks.old }
    ensures { OnOk result (HasRowsOf (has_block blocks.new.blocks) marks.new) }
{
    for number in first..graph.size {
        put_next(alloc, txn, marks, blocks, graph, number)?;
    }
    Ok(())
}

fn colour(marks: &Marks, cid: &Cid) -> Option<Colour> {
    let row = marks.row(cid)?;
    Some(marks.colour(row))
}

// How many pairs are of black and of white rows, if the black ones are exactly those that the search reaches.
fn compare(
    alloc: Global,
    marks: &Marks,
    edge: u64,
    kept: &Parcel,
    shown: &Cids,
) -> Result<Option<(usize, usize)>, Fail> {
    let reached = reach(alloc, edge, kept, shown)?;
    let mut black = 0usize;
    let mut white = 0usize;
    for i in 0..kept.len() {
        let (cid, _) = kept.at(i);
        let is_reached = reached.as_slice().binary_search(&cid).is_ok();
        match colour(marks, &cid) {
            Some(Colour::Black) if is_reached => black = black.saturating_add(1),
            Some(Colour::White) if !is_reached => white = white.saturating_add(1),
            _ => return Ok(None),
        }
    }
    Ok(Some((black, white)))
}

// Adds up to three random roots.
fn add_roots(alloc: Global, graph: &mut RandomGraph) -> Result<(), Fail> {
    for _root in 0..graph.random.below(4) {
        let root = random_link(alloc, &mut graph.random, graph.size)?;
        graph.shown.push(root)?;
    }
    Ok(())
}

// Marks a graph while its blocks are put, and compares.
fn mark_graph(
    alloc: Global,
    graph: &mut RandomGraph,
    edge: u64,
) -> Result<Option<(usize, usize)>, Fail> {
    let (mut marks, mut blocks) = nothing(alloc, 100);
    let first = graph.random.below(graph.size.max(1));
    put_first(alloc, &mut marks, &mut blocks, graph, first)?;
    add_roots(alloc, graph)?;
    let mut txn = Txn::begin(&mut marks, edge, &graph.shown);
    put_others(alloc, &mut txn, &mut marks, &mut blocks, graph, first)?;
    scan_some(&mut txn, alloc, &mut marks, &mut blocks, 1000)?;
    if !txn.quiet(&marks) {
        return Ok(None);
    }
    compare(alloc, &marks, txn.edge(), &graph.kept, &graph.shown)
}

#[test]
fn marks_agree_with_a_search(rt: HostRuntime) -> Result<(), Fail> {
    let mut black = 0usize;
    let mut white = 0usize;
    for seed in 0..400u64 {
        let mut graph = RandomGraph::new(rt.alloc(), seed, seed % 40 + 1);
        let Some(counts) = mark_graph(rt.alloc(), &mut graph, seed % 6)? else {
            panic!(rt; "seed {seed}: the marks are not those that the search reaches");
        };
        black = black.saturating_add(counts.0);
        white = white.saturating_add(counts.1);
    }
    assert!(rt; black > 1000 && white > 1000);
    Ok(())
}

// Reads the block of a grey row elsewhere, which is of this CID and has this link alone, and tells the colours of both.
fn accept_one(
    alloc: Global,
    marks: &mut Marks,
    from: Cid,
    to: Cid,
) -> Result<(Option<Colour>, Option<Colour>), Fail> {
    let mut roots = Cids::new(alloc);
    roots.push(from)?;
    let mut links = Cids::new(alloc);
    links.push(to)?;
    let mut txn = Txn::begin(marks, 0, &roots);
    if let Some(row) = marks.pop_grey() {
        txn.accept(marks, row, &links);
    }
    Ok((colour(marks, &from), colour(marks, &to)))
}

// Marks what was stored, from a root, and compares.
fn mark_all(
    alloc: Global,
    marks: &mut Marks,
    blocks: &mut Stored,
    kept: &Parcel,
    root: Cid,
) -> Result<Option<(usize, usize)>, Fail>
    requires { HasRowsOf (has_block blocks.old.blocks) marks.old }
{
    let mut roots = Cids::new(alloc);
    roots.push(root)?;
    let mut txn = Txn::begin(marks, 0, &roots);
    scan_some(&mut txn, alloc, marks, blocks, 1_000_000)?;
    compare(alloc, marks, 0, kept, &roots)
}

// Stores so many blocks, each an array of a link to the next one.
fn put_chain(
    alloc: Global,
    marks: &mut Marks,
    blocks: &mut Stored,
    kept: &mut Parcel,
    len: u32,
) -> Result<(), Fail>
    requires { HasRowsOf (has_block blocks.old.blocks) marks.old }
    ensures { OnOk result (HasRowsOf (has_block blocks.new.blocks) marks.new) }
{
    for number in 0..len {
        let block = array_of(alloc, &[numbered(number.saturating_add(1), false)?])?;
        let cid = numbered(number, false)?;
        put(alloc, marks, blocks, kept, &cid, block.as_slice())?;
    }
    Ok(())
}

// The CIDs of a chain of so many blocks.
fn links_to(alloc: Global, len: u32) -> Result<Vec<Cid>, Fail> {
    let mut links = Vec::new(alloc);
    for number in 0..len {
        links.push(numbered(number, false)?)?;
    }
    Ok(links)
}

// What is counted in a chain of so many blocks beside a block with a link to each of them, from that one or from the chain's
// first.
fn mark_large(alloc: Global, len: u32, is_fan: bool) -> Result<Option<(usize, usize)>, Fail> {
    let (mut marks, mut blocks) = nothing(alloc, 200_000);
    let mut kept = Parcel::new(alloc);
    put_chain(alloc, &mut marks, &mut blocks, &mut kept, len)?;
    let fan = numbered(len, false)?;
    let block = array_of(alloc, &links_to(alloc, len)?)?;
    put(
        alloc,
        &mut marks,
        &mut blocks,
        &mut kept,
        &fan,
        block.as_slice(),
    )?;
    let root = if is_fan { fan } else { numbered(0, false)? };
    mark_all(alloc, &mut marks, &mut blocks, &kept, root)
}

#[test]
fn links_that_were_read_elsewhere_are_accepted(rt: HostRuntime) -> Result<(), Fail> {
    let (mut marks, mut blocks) = nothing(rt.alloc(), 2);
    let mut kept = Parcel::new(rt.alloc());
    put_chain(rt.alloc(), &mut marks, &mut blocks, &mut kept, 2)?;
    let colours = accept_one(
        rt.alloc(),
        &mut marks,
        numbered(0, false)?,
        numbered(1, false)?,
    )?;
    assert!(rt; colours == (Some(Colour::Black), Some(Colour::Grey)));
    Ok(())
}

#[test]
fn a_chain_of_100000_blocks(rt: HostRuntime) -> Result<(), Fail> {
    assert!(rt; mark_large(rt.alloc(), 100_000, false)? == Some((100_001, 0)));
    Ok(())
}

#[test]
fn a_fan_of_100000_links(rt: HostRuntime) -> Result<(), Fail> {
    assert!(rt; mark_large(rt.alloc(), 100_000, true)? == Some((100_001, 0)));
    Ok(())
}
