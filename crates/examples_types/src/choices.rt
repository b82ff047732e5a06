// Choices among the methods `p.A.f` of a world. A case is the types of a call's arguments in parentheses, in which `->`
// is a lambda or a method reference.
use crate::questions::put_asks;
use crate::types::{put_types, two_names, type_in};
use examples_base::Answer;
use j_overload::{ArgType, Choice, choose, choose_asking};
use jtypes::{Asks, Classes, ListWorld, MethodSig};
use rw_base::Mem;
use std::alloc::Global;

// The argument of a word.
fn argument(alloc: Global, word: &str, out: &mut Answer) -> ArgType {
    if word == "->" {
        ArgType::Function
    } else {
        ArgType::Known(type_in(alloc, word, out))
    }
}

/// The arguments of a call.
pub fn arguments(alloc: Global, case: &str, out: &mut Answer) -> Vec<ArgType> {
    let mut args = Vec::new(alloc);
    for word in case.split_whitespace() {
        if word == "(" || word == ")" {
            continue;
        }
        if args.push(argument(alloc, word, out)).is_err() {
            out.refuse("memory");
        }
    }
    args
}

// Writes a choice, with the parameters of a method that is chosen.
fn put_choice(candidates: &[MethodSig], choice: Choice, out: &mut Answer) {
    let Choice::Method(at) = choice else {
        out.put_debug(&choice);
        return;
    };
    let Some(method) = candidates.get(at) else {
        out.refuse("method");
        return;
    };
    out.put("Method ");
    out.put_number(at);
    out.put(" (");
    put_types(method.params.as_slice(), out);
    out.put(")");
}

// The same, unless memory was refused.
fn put_made(candidates: &[MethodSig], choice: Mem<Choice>, out: &mut Answer) {
    match choice {
        Ok(choice) => put_choice(candidates, choice, out),
        Err(_) => out.refuse("memory"),
    }
}

/// Writes which method a call means.
pub fn put_chosen(alloc: Global, world: &ListWorld, case: &str, out: &mut Answer) {
    if let Some((owner, name)) = two_names(alloc, "p.A", "f", out) {
        let candidates = world.methods(&owner, &name);
        let args = arguments(alloc, case, out);
        put_made(candidates, choose(alloc, candidates, &args, world), out);
    }
}

// Writes which of these methods a call means, and the questions that the choice puts.
fn put_asked(
    alloc: Global,
    world: &ListWorld,
    candidates: &[MethodSig],
    args: &[ArgType],
    out: &mut Answer,
) {
    let mut asks = Asks::new(alloc);
    let choice = choose_asking(alloc, candidates, args, world, &mut asks);
    put_made(candidates, choice, out);
    out.put(", asks ");
    put_asks(alloc, asks, out);
}

/// Writes which method a call means, and the questions that the choice puts.
pub fn put_asking(alloc: Global, world: &ListWorld, case: &str, out: &mut Answer) {
    if let Some((owner, name)) = two_names(alloc, "p.A", "f", out) {
        let candidates = world.methods(&owner, &name);
        let args = arguments(alloc, case, out);
        put_asked(alloc, world, candidates, &args, out);
    }
}
