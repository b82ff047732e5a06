// Shapes from the codes that spell them.
ghost use Rattle.std.specs.Prelude.{◌≡◌, ◌≤◌, ◌++◌, true, drop, length, reverse, IfOk};
ghost use Rattle.rw_grammar.specs.Shapes.{all_parts};
ghost use Rattle.rw_grammar.specs.Codes.{spelled, spells_rules, parts_spelled};
ghost use Rattle.rw_grammar.specs.Words.{written, written_all, asked, BeginWithWord, SpellSome, IsMade, AreStacked};

use crate::shape::Shape;
use rw_base::Mem;
use sqlite_items::{Boxed, Items};
use std::alloc::Global;

/// A code of a shape, with the number behind it.
#[derive(Clone, Copy)]
pub(crate) enum Word {
    Leaf(u16),
    Rule(u16),
    Seq(u16),
    Choice(u16),
    Opt,
    Many,
}

/// The word that stands in front, and the codes behind it.
fn first_word(codes: &[u16]) -> (Word, &[u16])
    requires { BeginWithWord codes.now }
    ensures { codes.now ≡ written result.0 ++ result.1.now }
{
    match codes[0] {
        0 => (Word::Leaf(codes[1]), &codes[2..]),
        1 => (Word::Rule(codes[1]), &codes[2..]),
        2 => (Word::Seq(codes[1]), &codes[2..]),
        3 => (Word::Choice(codes[1]), &codes[2..]),
        4 => (Word::Opt, &codes[1..]),
        _ => (Word::Many, &codes[1..]),
    }
}

/// The words of codes.
fn words_of(alloc: Global, codes: &[u16]) -> Mem<Items<Word>>
    requires { SpellSome codes.now }
    ensures { IfOk result (λ words. codes.now ≡ written_all words) }
{
    let mut words = Items::new(alloc);
    let mut rest = codes;
    while rest.len() > 0 {
        let (word, behind) = first_word(rest);
        words.push(word)?;
        rest = behind;
    }
    Ok(words)
}

/// Takes so many shapes from the end, the last of them first.
fn last_of(alloc: Global, stack: &mut Items<Shape>, count: usize) -> Mem<Items<Shape>>
    requires { count ≤ length stack.old }
    ensures taken { IfOk result (λ parts. reverse stack.old ≡ parts ++ reverse stack.new) }
    ensures count { IfOk result (λ parts. length parts ≡ count) }
{
    let mut parts = Items::new(alloc);
    for _ in 0..count {
        parts.push(stack.pop().unwrap())?;
    }
    Ok(parts)
}

/// The shape of a word, whose parts are taken from the end of `stack`.
fn made(alloc: Global, word: Word, stack: &mut Items<Shape>) -> Mem<Shape>
    requires { asked word ≤ length stack.old }
    ensures { IfOk result (λ shape. IsMade word stack.old stack.new shape) }
{
    match word {
        Word::Leaf(class) => Ok(Shape::Leaf(class)),
        Word::Rule(rule) => Ok(Shape::Rule(rule)),
        Word::Seq(count) => Ok(Shape::Seq(last_of(alloc, stack, count as usize)?)),
        Word::Choice(count) => Ok(Shape::Choice(last_of(alloc, stack, count as usize)?)),
        Word::Opt => Ok(Shape::Opt(Boxed::new(alloc, stack.pop().unwrap())?)),
        Word::Many => Ok(Shape::Many(Boxed::new(alloc, stack.pop().unwrap())?)),
    }
}

/// The shapes of these words, the last of them first.
fn stacked(alloc: Global, words: Items<Word>) -> Mem<Items<Shape>>
    requires { SpellSome (written_all words) }
    ensures { IfOk result (λ stack. AreStacked (written_all words) stack) }
{
    let mut words = words;
    let mut stack = Items::new(alloc);
    while let Some(word) = words.pop() {
        let shape = made(alloc, word, &mut stack)?;
        stack.push(shape)?;
    }
    Ok(stack)
}

/// The rules that codes spell: their number, and then each. A shape is spelled by 0 and the class of a leaf; 1 and a
/// rule; 2, the number of parts and the parts of a row; 3 and the same of a choice; 4 and the part that may be missing;
/// 5 and the part that is repeated.
pub fn shapes(alloc: Global, codes: &[u16]) -> Mem<Items<Shape>>
    requires { spells_rules codes.now ≡ true }
    ensures spelled { IfOk result (λ rules. codes.now ≡ spelled rules) }
    ensures parts { IfOk result (λ rules. all_parts rules ≡ parts_spelled codes.now) }
    ensures few { IfOk result (λ rules. length rules ≤ u16.MAX) }
{
    let words = words_of(alloc, &codes[1..])?;
    let mut stack = stacked(alloc, words)?;
    let count = stack.len();
    last_of(alloc, &mut stack, count)
}
