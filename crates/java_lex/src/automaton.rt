// The longest text of the automaton.
ghost use Rattle.std.specs.Prelude.{◌≡◌, ◌≤◌, ◌<◌};
ghost use Rattle.java_lex.specs.Scanning.{IsStart, IsLongestOf, next_state, state_class};

use crate::table::{CLASS, COLUMN, DEAD, NEXT, STATES};

/// What a text begins with: the class and the bytes of the longest front that the automaton knows, both 0 where it
/// knows none, and whether the whole text could become a longer one with more behind it.
#[derive(Clone, Copy)]
pub struct Found {
    pub class: u16,
    pub size: usize,
    pub open: bool,
}

// The state behind a byte.
#[inline(always)]
#[tactic(auto, unfolding(crate::specs::Scanning::next_state))]
fn next_state(state: u8, b: u8) -> u8
    requires { state < STATES }
    ensures value { result ≡ next_state state b }
    ensures inside { result < STATES }
{
    NEXT[state as usize][COLUMN[b as usize] as usize]
}

// The class of a text that leads to a state, or 0.
#[inline(always)]
#[tactic(auto, unfolding(crate::specs::Scanning::state_class))]
fn state_class(state: u8) -> u16
    requires { state < STATES }
    ensures { result ≡ state_class state }
{
    CLASS[state as usize]
}

/// The longest front of a text by the automaton, from a state where it begins.
pub fn longest(text: &[u8], start: u8) -> Found
    requires { IsStart start }
    ensures { IsLongestOf start text.now result }
{
    let mut state = start;
    let mut class = 0;
    let mut size = 0;
    for (at, b) in text.iter().enumerate() {
        state = next_state(state, *b);
        if state == DEAD {
            return Found {
                class,
                size,
                open: false,
            };
        }
        let found = state_class(state);
        if found != 0 {
            class = found;
            size = at + 1;
        }
    }
    Found {
        class,
        size,
        open: true,
    }
}
