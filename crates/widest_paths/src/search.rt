//! The search for widest paths from the ends of paths on, the widest first.

ghost use Rattle.std.specs.Prelude.{◌≡◌, ◌<◌, ◌≤◌, ℕ, true, length, slice_get, slice_index};
ghost use Rattle.std.specs.Prelude.{Some, IfOk, MatchOption, OnOk, []};
ghost use Rattle.std.specs.BinaryHeap.{heap_items};
ghost use Rattle.widest_paths.specs.WidestPaths.{AreWidest, IsFanEdge, IsInFan, is_labelled};
ghost use Rattle.widest_paths.specs.Searches.{IsFromSome, IsNodeTaken, Widens};

use crate::graph::{Fan, Graph, number_at};
use lists::Rows;
use std::alloc::{AllocError, Global};
use std::collections::BinaryHeap;

fn narrower(a: usize, b: usize) -> usize
    ensures first { result ≤ a }
    ensures second { result ≤ b }
    ensures wide { (level : ℕ) → level < a → level < b → level < result }
{
    if a < b { a } else { b }
}

/// A path of some width is found that begins with an edge from a node: the node waits where that is
/// wider than what was found of it before.
fn widen(
    g: &Graph,
    widths: &mut Rows<usize>,
    waiting: &mut BinaryHeap<(usize, usize)>,
    i: usize,
    width: usize,
) -> Result<(), AllocError>
    requires { length widths.old ≡ length g.now.levels }
    ensures { OnOk result (Widens g.now (λ x level. (x ≡ i) × (level < width)) widths.old
        (heap_items waiting.old) widths.new (heap_items waiting.new)) }
{
    let put = narrower(width, number_at(&g.levels, i));
    if i < widths.len() && number_at(widths, i) < put {
        widths.set(i, put);
        waiting.push((put, i))?;
    }
    Ok(())
}

/// The same of the edge of a fan that leaves a node, where one does.
fn widen_from(
    g: &Graph,
    widths: &mut Rows<usize>,
    waiting: &mut BinaryHeap<(usize, usize)>,
    turn: usize,
    i: usize,
    width: usize,
) -> Result<(), AllocError>
    requires { length widths.old ≡ length g.now.levels }
    ensures { OnOk result (Widens g.now
        (λ x level. (x ≡ i) × (turn < slice_index g.now.turns i) × (level < width)) widths.old
        (heap_items waiting.old) widths.new (heap_items waiting.new)) }
{
    if turn < number_at(&g.turns, i) {
        widen(g, widths, waiting, i, width)
    } else {
        Ok(())
    }
}

/// The same of all edges of a fan.
fn widen_fan(
    g: &Graph,
    widths: &mut Rows<usize>,
    waiting: &mut BinaryHeap<(usize, usize)>,
    fan: Fan,
    width: usize,
) -> Result<(), AllocError>
    requires { length widths.old ≡ length g.now.levels }
    ensures { OnOk result (Widens g.now (λ x level. IsInFan g.now fan x × (level < width))
        widths.old (heap_items waiting.old) widths.new (heap_items waiting.new)) }
{
    for i in fan.first..fan.last {
        widen_from(g, widths, waiting, fan.turn, i, width)?;
    }
    Ok(())
}

fn fan_at(fans: &Rows<Fan>, t: usize) -> Fan
    requires { t < length fans.now }
    ensures { slice_get fans.now t ≡ Some result }
{
    match fans.get(t) {
        Some(fan) => *fan,
        None => unreachable!(),
    }
}

/// The same of all edges of some fans.
fn widen_fans(
    g: &Graph,
    widths: &mut Rows<usize>,
    waiting: &mut BinaryHeap<(usize, usize)>,
    fans: &Rows<Fan>,
    width: usize,
) -> Result<(), AllocError>
    requires { length widths.old ≡ length g.now.levels }
    ensures { OnOk result (Widens g.now
        (λ x level. IsFromSome g.now fans.now (length fans.now) x × (level < width)) widths.old
        (heap_items waiting.old) widths.new (heap_items waiting.new)) }
{
    for t in 0..fans.len() {
        let fan = fan_at(fans, t);
        widen_fan(g, widths, waiting, fan, width)?;
    }
    Ok(())
}

/// The fans of the edges to a node.
fn fans_to(g: &Graph, k: usize) -> &Rows<Fan>
    requires { k < length g.now.into.items }
    ensures { slice_get g.now.into.items k ≡ Some result.now }
{
    match g.into.get(k) {
        Some(fans) => fans,
        None => unreachable!(),
    }
}

/// The same of all edges to a node.
fn widen_sources(
    g: &Graph,
    widths: &mut Rows<usize>,
    waiting: &mut BinaryHeap<(usize, usize)>,
    k: usize,
    width: usize,
) -> Result<(), AllocError>
    requires { length widths.old ≡ length g.now.levels }
    ensures { OnOk result (Widens g.now (λ x level. IsFanEdge g.now x k × (level < width))
        widths.old (heap_items waiting.old) widths.new (heap_items waiting.new)) }
{
    if k < g.into.len() {
        let fans = fans_to(g, k);
        widen_fans(g, widths, waiting, fans, width)
    } else {
        Ok(())
    }
}

fn is_labelled(labels: &[u8], label: u8, i: usize) -> bool
    ensures { result ≡ is_labelled label (slice_get labels.now i) }
{
    match labels.get(i) {
        Some(l) => *l == label,
        None => false,
    }
}

/// A node waits, with its level, where it has the label.
fn begin_at(
    g: &Graph,
    widths: &mut Rows<usize>,
    waiting: &mut BinaryHeap<(usize, usize)>,
    i: usize,
    labelled: bool,
) -> Result<(), AllocError>
    requires { length widths.old ≡ length g.now.levels }
    ensures { OnOk result (Widens g.now (λ x level. (x ≡ i) × (labelled ≡ true)) widths.old
        (heap_items waiting.old) widths.new (heap_items waiting.new)) }
{
    if labelled {
        widen(g, widths, waiting, i, number_at(&g.levels, i))
    } else {
        Ok(())
    }
}

/// The nodes that have the label wait.
fn begin(
    g: &Graph,
    widths: &mut Rows<usize>,
    waiting: &mut BinaryHeap<(usize, usize)>,
    labels: &[u8],
    label: u8,
) -> Result<(), AllocError>
    requires { length widths.old ≡ length g.now.levels }
    ensures { OnOk result (Widens g.now
        (λ x level. is_labelled label (slice_get labels.now x) ≡ true) widths.old
        (heap_items waiting.old) widths.new (heap_items waiting.new)) }
{
    for i in 0..labels.len() {
        let labelled = is_labelled(labels, label, i);
        begin_at(g, widths, waiting, i, labelled)?;
    }
    Ok(())
}

/// Takes the node that waits with the greatest width.
fn next(waiting: &mut BinaryHeap<(usize, usize)>) -> Option<usize>
    ensures { MatchOption result (heap_items waiting.old ≡ [])
        (λ k. IsNodeTaken (heap_items waiting.old) k (heap_items waiting.new)) }
{
    match waiting.pop() {
        Some((_width, k)) => Some(k),
        None => None,
    }
}

/// For each node how many of the levels from 0 on are below all nodes of some path from it to a
/// node that has the label: 0 where there is no such path. That is the width of the widest one, of
/// which the least level of a path's nodes is its width.
pub fn widest(alloc: Global, g: &Graph, labels: &[u8], label: u8) -> Result<Rows<usize>, AllocError>
    ensures { IfOk result (AreWidest g.now labels.now label) }
{
    let mut widths = Rows::from_vec(vec![in alloc; 0; g.levels.len()]?);
    let mut waiting = BinaryHeap::new(alloc);
    begin(g, &mut widths, &mut waiting, labels, label)?;
    while let Some(k) = next(&mut waiting) {
        let width = number_at(&widths, k);
        widen_sources(g, &mut widths, &mut waiting, k, width)?;
    }
    Ok(widths)
}
