// The methods that no other hides.
ghost use Rattle.std.specs.Prelude.{◌≡◌, ◌++◌, ◌∷◌, [], IfOk, OnOk, if◌then◌else◌};
ghost use Rattle.j_names.specs.Calls.{hides, is_hidden, candidates, types_eq};

use crate::places::is_name;
use jtypes::{JType, MethodSig, are_same_types};
use rw_base::Mem;
use sqlite_items::Items;
use std::alloc::Global;

fn is_same_list(types: &[JType], others: &[JType]) -> bool
    ensures { result ≡ types_eq types.now others.now }
{
    are_same_types(types, others)
}

fn hides(m: &MethodSig, n: &MethodSig) -> bool
    ensures { result ≡ hides m.now n.now }
{
    !is_name(&m.owner, &n.owner)
        && is_name(&m.name, &n.name)
        && is_same_list(m.params.as_slice(), n.params.as_slice())
}

fn is_hidden(earlier: &[MethodSig], m: &MethodSig) -> bool
    ensures { result ≡ is_hidden earlier.now m.now }
{
    for e in earlier {
        if hides(e, m) {
            return true;
        }
    }
    false
}

/// Puts a method, unless one of some earlier ones hides it.
fn put_unless_hidden(earlier: &[MethodSig], m: &MethodSig, all: &mut Items<MethodSig>) -> Mem<()>
    ensures { OnOk result (all.new ≡ all.old ++ (if is_hidden earlier.now m.now then [] else m.now ∷ [])) }
{
    if !is_hidden(earlier, m) {
        all.push(m.copy()?)?;
    }
    Ok(())
}

/// The candidates among the methods of a walk (JLS 8.4.8, 15.12.2.1), in order: those whose name and erased parameters
/// no earlier one of another class has.
pub fn candidates(alloc: Global, methods: &[MethodSig]) -> Mem<Items<MethodSig>>
    ensures value { IfOk result (λ all. all ≡ candidates methods.now) }
{
    let mut all = Items::new(alloc);
    for at in 0..methods.len() {
        put_unless_hidden(&methods[..at], &methods[at], &mut all)?;
    }
    Ok(all)
}
