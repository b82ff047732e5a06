// White space and comments.
ghost use Rattle.std.specs.Prelude.{◌≡◌, ◌≤◌, ◌<◌, true, length, MatchOption};
ghost use Rattle.java_lex.specs.Blanks.{is_line_end, is_white, begins_line_comment, begins_block_comment};
ghost use Rattle.java_lex.specs.Blanks.{IsLineComment, IsBlockComment, IsOpenComment};
ghost use Rattle.java_lex.specs.Scanning.{IsWhite};

fn is_line_end(b: u8) -> bool
    ensures { result ≡ is_line_end b }
{
    b == b'\n' || b == b'\r'
}

fn is_white(b: u8) -> bool
    ensures { result ≡ is_white b }
{
    b == b' ' || b == b'\t' || b == 0x0c || is_line_end(b)
}

/// The bytes of white space that a text begins with.
pub fn white_size(text: &[u8]) -> usize
    ensures { IsWhite text.now result }
{
    for (at, b) in text.iter().enumerate() {
        if !is_white(*b) {
            return at;
        }
    }
    text.len()
}

/// The bytes of the comment from `//` on that a text begins with.
pub fn line_comment_size(text: &[u8]) -> usize
    requires { begins_line_comment text.now ≡ true }
    ensures { IsLineComment text.now result }
{
    for (at, b) in text.iter().enumerate() {
        if is_line_end(*b) {
            return at;
        }
    }
    text.len()
}

/// The bytes of the comment from `/*` on that a text begins with, or none where it isn't closed.
pub fn block_comment_size(text: &[u8]) -> Option<usize>
    requires { begins_block_comment text.now ≡ true }
    ensures { MatchOption result (IsOpenComment text.now) (IsBlockComment text.now) }
{
    let mut at = 3;
    while at < text.len() {
        if text[at] == b'/' && text[at - 1] == b'*' {
            return Some(at + 1);
        }
        at += 1;
    }
    None
}
