// What scalars say.
ghost use Rattle.std.specs.Prelude.{◌≡◌, Some, None, MatchOption, IfOk};
ghost use Rattle.yaml_texts.specs.Texts.{scalar_text};

use crate::block::block_text;
use crate::quoted::quoted_text;
use rw_base::Mem;
use std::alloc::Global;
use yaml_lex::class::BLOCK;

/// The text that a KEY, SCALAR, FSCALAR or BLOCK leaf stands for, by its class and its bytes. A block scalar's text
/// depends on two things more, which no other leaf looks at: the column of the innermost block collection around the
/// leaf, if there is one, where a digit says how much indentation the lines lose; and the rest of the file behind the
/// leaf, where `+` keeps the blank lines that follow. None for folded scalars, for quoted ones over several lines, and
/// where a backslash in double quotes begins another escape than `\"`, `\\`, `\/`, `\n`, `\t`, `\r` and `\u` with four
/// hex digits that name no surrogate.
pub fn decoded(
    alloc: Global,
    class: u16,
    column: Option<u32>,
    text: &[u8],
    rest: &[u8],
) -> Mem<Option<Vec<u8>>>
    ensures { let said = scalar_text class column text.now rest.now in
        IfOk result (λ r. MatchOption r (said ≡ None) (λ v. said ≡ Some v.items)) }
{
    if class == BLOCK {
        return block_text(alloc, column, text, rest);
    }
    match text {
        [b'\'' | b'"', ..] => quoted_text(alloc, text),
        _ => Ok(Some(Vec::from_slice(alloc, text)?)),
    }
}
