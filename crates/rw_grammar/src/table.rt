// Tables of rules.
ghost use Rattle.std.specs.Prelude.{◌≡◌, ℕ, ◌<◌, ◌≤◌, length, IfOk};
ghost use Rattle.rw_grammar.specs.Shapes.{all_parts};
ghost use Rattle.rw_grammar.specs.Parts.{rule_of};
ghost use Rattle.rw_grammar.specs.Begins.{CanBeEmpty, CanBegin};
ghost use Rattle.rw_grammar.specs.Faults.{IsSound, IsLeastFault};
ghost use Rattle.rw_grammar.specs.Cells.{AreLaid, Tells, column_at, rules_at};

use crate::cells::{Cell, class_count, lay_all};
use crate::faults::least_fault;
use crate::known::{Asked, settled};
use crate::shape::Shape;
use rw_base::{Mem, NoMemory};
use sqlite_items::Items;
use std::alloc::Global;
use std::marker::Model;

/// The most rules that a table may have: a rule's number is a `u16`.
pub const MOST_RULES: usize = 65_536;

/// Rules without a fault. A rule's number is its position.
#[derive(Drop)]
pub struct Table {
    pub(crate) cells: Vec<Cell>,
    pub(crate) roots: Vec<u32>,
    pub(crate) empty: Vec<bool>,
    pub(crate) columns: Vec<Items<bool>>,
}

impl Model for Table {
    ghost use Rattle.std.specs.Prelude.{List};
    ghost use Rattle.std.specs.Coded.{coded_list};
    ghost use Rattle.rw_grammar.specs.Parts.{Parts};
    ghost use Rattle.rw_grammar.specs.PartsCode.{parts_code};
    ghost use Rattle.rw_grammar.specs.Cells.{IsTable, rules_at};

    ghost Value = { List Parts };

    ghost coded = { coded_list parts_code };

    ghost view = { λ t. rules_at t.cells.items t.roots.items };

    ghost invariant = { λ t. IsTable t.cells.items t.roots.items t.empty.items t.columns.items };
}

/// Why rules are no table: the least rule with a fault, and its least fault; or memory was refused.
#[derive(Clone, Copy, Debug, PartialEq, Eq)]
pub enum TableFault {
    /// 1: two alternatives share a first class. 2: two alternatives can be empty. 3: a repeated or optional part can be
    /// empty. 4: left recursion. 5: a rule number that isn't there.
    Wrong { number: u8, rule: u16 },
    NoMemory,
}

impl From<NoMemory> for TableFault {
    ghost use Rattle.std.specs.Prelude.{◌≡◌};
    ghost use Rattle.rw_grammar.specs.declared.table.TableFault.TheVariants as fault;

    ghost from_gives = { λ _ e. e ≡ fault.NoMemory };

    fn from(_: NoMemory) -> Self {
        TableFault::NoMemory
    }
}

/// For each class and cell whether the class can begin it.
fn columns_of(alloc: Global, cells: &[Cell], roots: &[u32], empty: &[bool]) -> Mem<Vec<Items<bool>>>
    requires laid { AreLaid cells.now roots.now }
    requires empties { Tells cells.now (CanBeEmpty (rule_of (rules_at cells.now roots.now))) empty.now }
    ensures { let rules = rules_at cells.now roots.now in
        IfOk result (λ columns. (c : ℕ) → Tells cells.now (CanBegin (rule_of rules) c) (column_at columns.items c)) }
{
    let mut columns = Vec::new(alloc);
    let count = class_count(cells);
    for class in 0..count {
        let column = settled(alloc, cells, roots, empty, Asked::Class(class as u16))?;
        columns.push(Items::from_vec(column))?;
    }
    Ok(columns)
}

impl Table {
    /// The table of these rules, if they have no fault.
    pub fn checked(alloc: Global, rules: Items<Shape>) -> Result<Table, TableFault>
        requires { length rules ≤ MOST_RULES }
        ensures rules { IfOk result (λ t. t ≡ all_parts rules) }
        ensures sound { IfOk result (λ t. IsSound t) }
        ensures wrong { (number rule : _) → result ≡ Err (TableFault.Wrong number rule)
            → IsLeastFault (all_parts rules) number rule }
    {
        let mut cells = Vec::new(alloc);
        let mut roots = Vec::new(alloc);
        lay_all(alloc, rules.as_slice(), &mut cells, &mut roots)?;
        let (cells_of, roots_of) = (cells.as_slice(), roots.as_slice());
        let empty = settled(alloc, cells_of, roots_of, &[], Asked::Empty)?;
        let columns = columns_of(alloc, cells_of, roots_of, empty.as_slice())?;
        if let Some((number, rule)) = least_fault(
            alloc,
            cells_of,
            roots_of,
            empty.as_slice(),
            columns.as_slice(),
        )? {
            return Err(TableFault::Wrong { number, rule });
        }
        Ok(Table {
            cells,
            roots,
            empty,
            columns,
        })
    }
}
