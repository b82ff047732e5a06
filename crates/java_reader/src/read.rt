// Reading Java.
ghost use Rattle.std.specs.Prelude.{◌≡◌, ◌≢◌, ℕ, ◌+◌, ◌<◌, ◌≤◌, length, Ok, Err, IfOk};
ghost use Rattle.rw_base.specs.declared.place.Refused.{Refused};
ghost use Rattle.rw_base.specs.Arena.{end_of};
ghost use Rattle.java_lex.specs.Tiles.{AreTiles};
ghost use Rattle.java_reader.specs.Kinds.{AreKinds};
ghost use Rattle.java_reader.specs.Units.{HasFewNodes};
ghost use Rattle.java_reader.specs.Reading.{java_rules, IsJavaCut, IsJavaRead, AreReadSteps};

use crate::kind::Kind;
use crate::laws::{cuts_are_one, cuts_tile, java_rules_are_sound};
use crate::table::java_codes;
use java_lex::{java_leaves, mark};
use rw_base::{Leaf, Leaves, MOST_BYTES, Mem, NoMemory, ReadFault, Tree};
use rw_grammar::{Table, TableFault, read_by, shapes, too_large};
use rw_host::Steps;
use std::alloc::Global;
use std::marker::Model;
use std::sync::ledger::Ledger;

/// The rule of a file.
pub const UNIT: u16 = Kind::Unit as u16;

/// The rule of a member that stands alone.
pub const MEMBER_ROOT: u16 = Kind::MemberRoot as u16;

/// The rule of an expression that stands alone.
pub const EXPR_ROOT: u16 = Kind::ExprRoot as u16;

/// Reads Java 8. It keeps the table, which is checked once.
#[derive(Drop)]
pub struct JavaReader {
    alloc: Global,
    table: Table,
}

impl Model for JavaReader {
    ghost use Rattle.std.specs.Prelude.{◌≡◌};
    ghost use Rattle.java_reader.specs.Kinds.{AreKinds};
    ghost use Rattle.java_reader.specs.Units.{HasFewNodes};
    ghost use Rattle.java_reader.specs.Reading.{java_rules};

    ghost Value = { Unit {0} };

    ghost view = { λ _. tt };

    ghost invariant = { λ r. r.table ≡ java_rules };
}

// The table of Java, which has no fault.
fn java_table(alloc: Global) -> Mem<Table>
    ensures { IfOk result (λ t. t ≡ java_rules) }
{
    java_rules_are_sound();
    match Table::checked(alloc, shapes(alloc, java_codes())?) {
        Ok(table) => Ok(table),
        Err(TableFault::NoMemory) => Err(NoMemory),
        Err(TableFault::Wrong { .. }) => unreachable!(),
    }
}

// The leaves of a text, which get their marks.
fn marked_leaves(alloc: Global, bytes: &[u8]) -> Mem<Leaves>
    requires { length bytes.now ≤ MOST_BYTES }
    ensures { IfOk result (λ r. IsJavaCut bytes.now r.leaves.items r.bad) }
{
    let Leaves { mut leaves, bad } = java_leaves(alloc, bytes)?;
    mark(alloc, leaves.as_mut_slice(), bytes)?;
    Ok(Leaves { leaves, bad })
}

// The same, and how they lie.
fn tiled_leaves(alloc: Global, bytes: &[u8]) -> Mem<Leaves>
    requires { length bytes.now ≤ MOST_BYTES }
    ensures cut { IfOk result (λ r. IsJavaCut bytes.now r.leaves.items r.bad) }
    ensures tiles { IfOk result (λ r. AreTiles bytes.now r.leaves.items r.bad) }
{
    cuts_tile();
    marked_leaves(alloc, bytes)
}

// One step for each leaf.
fn tick_each<L: Ledger>(leaves: &[Leaf], steps: &mut Steps<L>)
    ensures { steps.new ≡ steps.old + length leaves.now }
{
    for _ in 0..leaves.len() {
        steps.tick();
    }
}

// What comes of a text by a rule of the table.
fn read_from<L: Ledger>(
    alloc: Global,
    table: &Table,
    start: u16,
    bytes: &[u8],
    steps: &mut Steps<L>,
) -> Result<Tree, ReadFault>
    requires table { table.now ≡ java_rules }
    requires start { start < length java_rules }
    ensures tree { IfOk result (λ t. IsJavaRead start bytes.now (Ok t)) }
    ensures whole { IfOk result (λ t. end_of t ≡ length bytes.now) }
    ensures few { IfOk result (λ t. HasFewNodes t) }
    ensures kinds { IfOk result (λ t. AreKinds t.nodes) }
    ensures refused { (r : Refused) → result ≡ Err (ReadFault.Refused r) → IsJavaRead start bytes.now (Err r) }
    ensures steps { result ≢ Err ReadFault.NoMemory → AreReadSteps bytes.now steps.old steps.new }
    ensures at_most { (most : ℕ) → AreReadSteps bytes.now steps.old most → steps.new ≤ most }
{
    if let Some(refused) = too_large(bytes) {
        return Err(ReadFault::Refused(refused));
    }
    cuts_are_one(bytes);
    java_rules_are_sound();
    let cut = tiled_leaves(alloc, bytes)?;
    tick_each(cut.leaves.as_slice(), steps);
    match read_by(alloc, table, start, bytes, cut) {
        Ok(tree) => {
            let _ = tree.root();
            Ok(tree)
        }
        Err(fault) => Err(fault),
    }
}

impl JavaReader {
    /// The reader. It fails only where memory is wanting.
    pub fn new(alloc: Global) -> Mem<JavaReader> {
        let table = java_table(alloc)?;
        Ok(JavaReader { alloc, table })
    }

    /// The tree of a file, one step for each leaf.
    pub fn read<L: Ledger>(&self, bytes: &[u8], steps: &mut Steps<L>) -> Result<Tree, ReadFault>
        ensures tree { IfOk result (λ t. IsJavaRead UNIT bytes.now (Ok t)) }
        ensures whole { IfOk result (λ t. end_of t ≡ length bytes.now) }
        ensures few { IfOk result (λ t. HasFewNodes t) }
        ensures kinds { IfOk result (λ t. AreKinds t.nodes) }
        ensures refused { (r : Refused) → result ≡ Err (ReadFault.Refused r) → IsJavaRead UNIT bytes.now (Err r) }
        ensures steps { result ≢ Err ReadFault.NoMemory → AreReadSteps bytes.now steps.old steps.new }
        ensures at_most { (most : ℕ) → AreReadSteps bytes.now steps.old most → steps.new ≤ most }
    {
        read_from(self.alloc, &self.table, UNIT, bytes, steps)
    }

    /// The tree of a member of a type that stands alone: its root has two parts, the member and the end.
    pub fn read_member<L: Ledger>(
        &self,
        bytes: &[u8],
        steps: &mut Steps<L>,
    ) -> Result<Tree, ReadFault>
        ensures tree { IfOk result (λ t. IsJavaRead MEMBER_ROOT bytes.now (Ok t)) }
        ensures whole { IfOk result (λ t. end_of t ≡ length bytes.now) }
        ensures few { IfOk result (λ t. HasFewNodes t) }
        ensures kinds { IfOk result (λ t. AreKinds t.nodes) }
        ensures refused { (r : Refused) → result ≡ Err (ReadFault.Refused r)
            → IsJavaRead MEMBER_ROOT bytes.now (Err r) }
        ensures steps { result ≢ Err ReadFault.NoMemory → AreReadSteps bytes.now steps.old steps.new }
        ensures at_most { (most : ℕ) → AreReadSteps bytes.now steps.old most → steps.new ≤ most }
    {
        read_from(self.alloc, &self.table, MEMBER_ROOT, bytes, steps)
    }

    /// The tree of an expression that stands alone: its root has two parts, the expression and the end.
    pub fn read_expr<L: Ledger>(
        &self,
        bytes: &[u8],
        steps: &mut Steps<L>,
    ) -> Result<Tree, ReadFault>
        ensures tree { IfOk result (λ t. IsJavaRead EXPR_ROOT bytes.now (Ok t)) }
        ensures whole { IfOk result (λ t. end_of t ≡ length bytes.now) }
        ensures few { IfOk result (λ t. HasFewNodes t) }
        ensures kinds { IfOk result (λ t. AreKinds t.nodes) }
        ensures refused { (r : Refused) → result ≡ Err (ReadFault.Refused r)
            → IsJavaRead EXPR_ROOT bytes.now (Err r) }
        ensures steps { result ≢ Err ReadFault.NoMemory → AreReadSteps bytes.now steps.old steps.new }
        ensures at_most { (most : ℕ) → AreReadSteps bytes.now steps.old most → steps.new ≤ most }
    {
        read_from(self.alloc, &self.table, EXPR_ROOT, bytes, steps)
    }
}
