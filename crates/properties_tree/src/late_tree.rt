// Trees of properties files that are made when they are asked for.
ghost use Rattle.std.specs.Prelude.{◌≡◌, ◌<◌, ◌≤◌, length, Err, IfOk, OnOk};
ghost use Rattle.rw_base.specs.Arena.{end_of};
ghost use Rattle.rw_base.specs.declared.leaves.TheConstants.{MOST_BYTES};
ghost use Rattle.rw_base.specs.declared.place.Refused.{Refused};
ghost use Rattle.properties_tree.specs.Layout.{tree_of};
ghost use Rattle.properties_tree.specs.Refusal.{too_large, IsTooLarge};

use crate::reader::{read_properties, refuse_large};
use rw_base::{Mem, NoMemory, ReadFault, Shared, Text, Tree};
use std::alloc::Global;
use std::fmt;
use std::fmt::{Debug, Formatter, Write};
use std::marker::Model;

/// The tree of a properties file. It keeps one owner more of the file's bytes and no tree: a tree takes some ten times
/// the bytes, and most files of a repository have nothing that a recipe looks for, which their bytes tell. Contracts
/// see the tree.
#[derive(Drop)]
pub struct PropertiesTree {
    bytes: Shared<Text>,
}

impl Model for PropertiesTree {
    ghost use Rattle.std.specs.Prelude.{◌≤◌, length};
    ghost use Rattle.rw_base.specs.Arena.{Arena};
    ghost use Rattle.rw_base.specs.declared.leaves.TheConstants.{MOST_BYTES};
    ghost use Rattle.properties_tree.specs.Layout.{tree_of};

    ghost Value = { Arena };

    ghost view = { λ t. tree_of t.bytes };

    ghost invariant = { λ t. length t.bytes ≤ MOST_BYTES };
}

impl PropertiesTree {
    /// The tree of a file of these bytes, refused exactly as by `read_properties`. Takes no memory.
    #[tactic(auto, using(crate::proofs::InTree::in_tree))]
    pub fn read(bytes: &Shared<Text>) -> Result<PropertiesTree, ReadFault>
        ensures tree { IfOk result (λ tree. tree ≡ tree_of bytes.now) }
        ensures size { IfOk result (λ tree. length bytes.now ≡ end_of tree) }
        ensures fits { OnOk result (length bytes.now ≤ MOST_BYTES) }
        ensures refused { (why : Refused) → result ≡ Err (ReadFault.Refused why) → IsTooLarge bytes.now why }
        ensures too_large { MOST_BYTES < length bytes.now → result ≡ Err (ReadFault.Refused (too_large bytes.now)) }
    {
        refuse_large(bytes.get().as_slice())?;
        let Ok(bytes) = bytes.copy() else {
            return Err(ReadFault::NoMemory);
        };
        Ok(PropertiesTree { bytes })
    }

    /// The tree, made anew at each call, in the time and memory of `read_properties`.
    pub fn made(&self, alloc: Global) -> Mem<Tree>
        ensures { IfOk result (λ tree. tree ≡ self.now) }
    {
        match read_properties(alloc, self.bytes.get().as_slice()) {
            Ok(tree) => Ok(tree),
            Err(_) => Err(NoMemory),
        }
    }
}

impl Debug for PropertiesTree {
    fn fmt<W: Write>(&self, f: &mut Formatter<W>) -> fmt::Result {
        f.debug_tuple("PropertiesTree").field(&self.bytes).finish()
    }
}
