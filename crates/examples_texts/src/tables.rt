// Tables of rules.
ghost use Rattle.std.specs.Prelude.{◌<◌, ◌≤◌, length, IfSome};

use crate::codes::spell_rules;
use crate::rules::codes_in_line;
use examples_base::Answer;
use rw_grammar::{Shape, Table, TableFault, shapes};
use sqlite_items::Items;
use std::alloc::Global;

// The rules that codes spell, of which there is one at least.
fn rules_of(alloc: Global, codes: &[u16], out: &mut Answer) -> Option<Items<Shape>>
    ensures some { IfSome result (λ rules. 0 < length rules) }
    ensures few { IfSome result (λ rules. length rules ≤ u16.MAX) }
{
    if spell_rules(codes) {
        if let Ok(rules) = shapes(alloc, codes) {
            if rules.len() > 0 {
                return Some(rules);
            }
        }
    }
    out.refuse("rules");
    None
}

/// The table that codes spell.
pub fn table_of(alloc: Global, codes: &[u16], out: &mut Answer) -> Option<Table>
    ensures { IfSome result (λ table. 0 < length table) }
{
    if let Some(rules) = rules_of(alloc, codes, out) {
        if let Ok(table) = Table::checked(alloc, rules) {
            return Some(table);
        }
    }
    out.refuse("table");
    None
}

// Writes that rules are a table, or the number and the rule of their fault.
fn put_checked(done: Result<Table, TableFault>, out: &mut Answer) {
    match done {
        Ok(_) => out.put("sound"),
        Err(TableFault::Wrong { number, rule }) => {
            out.put("Wrong ");
            out.put_number(number as usize);
            out.put(" in rule ");
            out.put_number(rule as usize);
        }
        Err(TableFault::NoMemory) => out.refuse("memory"),
    }
}

/// Writes whether rules are a table, and if not, the number and the rule of their fault.
pub fn put_fault(alloc: Global, case: &str, out: &mut Answer) {
    let codes = codes_in_line(alloc, case, out);
    if let Some(rules) = rules_of(alloc, &codes, out) {
        put_checked(Table::checked(alloc, rules), out);
    }
}
