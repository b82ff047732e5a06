// The shapes of a table's rules, laid flat: each cell names cells before it.
ghost use Rattle.std.specs.Prelude.{◌≡◌, ℕ, ◌<◌, ◌≤◌, ◌^◌, ◌+◌, [], ◌∷◌, ◌++◌, length, map, IfOk};
ghost use Rattle.rw_grammar.specs.Parts.{end};
ghost use Rattle.rw_grammar.specs.Shapes.{before, all_parts};
ghost use Rattle.rw_grammar.specs.Cells.{NamesBelow, AreCells, AreLaid, Lays, grown, shape_at, rules_at, cell_at};

use crate::shape::Shape;
use rw_base::{Mem, NoMemory};
use sqlite_items::Items;
use std::alloc::Global;

/// A list of shapes: the first of them, and the cell of those behind it.
#[derive(Drop)]
pub(crate) enum Cell {
    End,
    One(u16, u32),
    Rule(u16, u32),
    Choice(Items<u32>, u32),
    Opt(u32, u32),
    Many(u32, u32),
}

/// Appends a cell, and answers its number.
fn add(cells: &mut Vec<Cell>, cell: Cell) -> Mem<u32>
    requires cells { AreCells cells.old.items }
    requires named { NamesBelow (length cells.old.items) cell }
    ensures number { IfOk result (λ n. n ≡ length cells.old.items) }
    ensures lays { IfOk result (λ n. Lays cells.old.items cells.new.items n (grown (shape_at cells.old.items) cell)) }
{
    let n = cells.len();
    if n >= u32::MAX as usize {
        return Err(NoMemory);
    }
    cells.push(cell)?;
    Ok(n as u32)
}

/// Appends the cells of a shape that stands in front of a cell, and answers the first of them.
fn lay(alloc: Global, shape: &Shape, next: u32, cells: &mut Vec<Cell>) -> Mem<u32>
    requires next { next < length cells.old.items }
    requires cells { AreCells cells.old.items }
    requires end { shape_at cells.old.items 0 ≡ end }
    ensures { let shapes = before shape.now (shape_at cells.old.items next) in
        IfOk result (λ n. Lays cells.old.items cells.new.items n shapes) }
{
    match shape {
        Shape::Leaf(class) => add(cells, Cell::One(*class, next)),
        Shape::Rule(rule) => add(cells, Cell::Rule(*rule, next)),
        Shape::Seq(row) => {
            let parts = row.as_slice();
            let mut first = next;
            let mut i = parts.len();
            while i > 0 {
                i -= 1;
                first = lay(alloc, &parts[i], first, cells)?;
            }
            Ok(first)
        }
        Shape::Choice(several) => {
            let mut alternatives = Vec::new(alloc);
            for part in several.as_slice() {
                let y = lay(alloc, part, 0, cells)?;
                alternatives.push(y)?;
            }
            add(cells, Cell::Choice(Items::from_vec(alternatives), next))
        }
        Shape::Opt(part) => {
            let x = lay(alloc, part.get(), 0, cells)?;
            add(cells, Cell::Opt(x, next))
        }
        Shape::Many(part) => {
            let x = lay(alloc, part.get(), 0, cells)?;
            add(cells, Cell::Many(x, next))
        }
    }
}

/// Appends the cells of all rules, and the first cell of each to `roots`.
pub(crate) fn lay_all(
    alloc: Global,
    rules: &[Shape],
    cells: &mut Vec<Cell>,
    roots: &mut Vec<u32>,
) -> Mem<()>
    requires cells { cells.old.items ≡ [] }
    requires roots { roots.old.items ≡ [] }
    ensures laid { IfOk result (λ _. AreLaid cells.new.items roots.new.items) }
    ensures rules { IfOk result (λ _. rules_at cells.new.items roots.new.items ≡ all_parts rules.now) }
{
    add(cells, Cell::End)?;
    for rule in rules {
        roots.push(lay(alloc, rule, 0, cells)?)?;
    }
    Ok(())
}

/// A number above each class of the cells.
pub(crate) fn class_count(cells: &[Cell]) -> u32
    ensures few { result ≤ u16.MAX + 1 }
    ensures above { (n c k : ℕ) → n < length cells.now → cell_at cells.now n ≡ Cell.One c k → c < result }
{
    let mut count = 0;
    for cell in cells {
        if let Cell::One(class, _) = cell {
            if count <= *class as u32 {
                count = *class as u32 + 1;
            }
        }
    }
    count
}
