// YAML files read as trees.
ghost use Rattle.std.specs.Prelude.{◌≡◌, length, Ok, Err, IfOk};
ghost use Rattle.rw_base.specs.declared.place.Refused.{Refused};
ghost use Rattle.rw_base.specs.Arena.{end_of};
ghost use Rattle.yaml_tree.specs.Reading.{IsYamlOutcome};

use crate::kind::Kind;
use crate::table::YAML;
use rw_base::{Mem, NoMemory, ReadFault, Tree};
use rw_grammar::{Table, TableFault, closed_rows_show_a_sound_table, read_by, shapes, too_large};
use std::alloc::Global;
use std::marker::Model;
use yaml_lex::yaml_leaves;

/// The rule of a whole file.
pub const STREAM: u16 = Kind::Stream as u16;

/// Reads YAML files. One reader does for any number of files.
#[derive(Drop)]
pub struct YamlReader {
    table: Table,
}

impl Model for YamlReader {
    ghost use Rattle.std.specs.Prelude.{◌≡◌};
    ghost use Rattle.yaml_tree.specs.Reading.{yaml_rules};

    ghost Value = { Unit {0} };

    ghost view = { λ _. tt };

    ghost invariant = { λ r. r.table ≡ yaml_rules };
}

impl YamlReader {
    /// A reader.
    pub fn new(alloc: Global) -> Mem<YamlReader> {
        closed_rows_show_a_sound_table();
        match Table::checked(alloc, shapes(alloc, &YAML)?) {
            Ok(table) => Ok(YamlReader { table }),
            Err(TableFault::NoMemory) => Err(NoMemory),
            Err(TableFault::Wrong { number: _, rule: _ }) => unreachable!(),
        }
    }

    /// The tree of a YAML file, or the place and the cause of its refusal.
    pub fn read(&self, alloc: Global, bytes: &[u8]) -> Result<Tree, ReadFault>
        ensures tree { IfOk result (λ t. IsYamlOutcome bytes.now (Ok t)) }
        ensures whole { IfOk result (λ t. end_of t ≡ length bytes.now) }
        ensures refused { (r : Refused) → result ≡ Err (ReadFault.Refused r) → IsYamlOutcome bytes.now (Err r) }
    {
        if let Some(refused) = too_large(bytes) {
            return Err(ReadFault::Refused(refused));
        }
        let cut = yaml_leaves(alloc, bytes)?;
        read_by(alloc, &self.table, STREAM, bytes, cut)
    }
}
