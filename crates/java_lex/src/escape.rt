// Escapes that are refused.
ghost use Rattle.std.specs.Prelude.{◌≡◌, ◌⊎◌, MatchOption};
ghost use Rattle.java_lex.specs.Escapes.{IsFirstRefused, NoneRefused};
ghost use Rattle.java_lex.specs.Scanning.{IsEscape, escape_of};

use crate::automaton::longest;

/// The first refused escape in a literal or a comment, by the automaton's state before such an escape.
pub fn first_refused(text: &[u8], escape: u8) -> Option<usize>
    requires { IsEscape escape }
    ensures { let refused = escape_of escape in
        MatchOption result (NoneRefused refused text.now) (IsFirstRefused refused text.now) }
{
    let mut at = 0;
    while at < text.len() {
        if text[at] == b'\\' {
            if longest(&text[at..], escape).class != 0 {
                return Some(at);
            }
            // What stands behind a backslash begins no escape.
            at += 2;
        } else {
            at += 1;
        }
    }
    None
}
