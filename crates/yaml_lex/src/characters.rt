// Characters that YAML treats in a way of their own.
ghost use Rattle.std.specs.Prelude.{◌≡◌};
ghost use Rattle.yaml_lex.specs.Characters.{is_line_end, is_blank, is_white, is_flow_sign, is_indicator, needs_more};
ghost use Rattle.yaml_lex.specs.Characters.{is_name_mark, is_block_mark, is_quote, is_gap, is_colon_gap};
ghost use Rattle.yaml_lex.specs.Characters.{is_continuation};

pub fn is_line_end(b: u8) -> bool
    ensures { result ≡ is_line_end b }
{
    b == b'\n' || b == b'\r'
}

pub fn is_blank(b: u8) -> bool
    ensures { result ≡ is_blank b }
{
    b == b' ' || b == b'\t'
}

pub fn is_white(b: u8) -> bool
    ensures { result ≡ is_white b }
{
    is_blank(b) || is_line_end(b)
}

/// A byte of UTF-8 that goes on with a character which began before it.
pub fn is_continuation(b: u8) -> bool
    ensures { result ≡ is_continuation b }
{
    128 <= b && b <= 191
}

#[tactic(auto, unfolding(crate::specs::Characters::is_flow_sign))]
pub fn is_flow_sign(b: u8) -> bool
    ensures { result ≡ is_flow_sign b }
{
    b == b',' || b == b'[' || b == b']' || b == b'{' || b == b'}'
}

/// A character with which no plain scalar begins.
#[tactic(auto, unfolding(crate::specs::Characters::is_indicator))]
pub fn is_indicator(b: u8) -> bool
    ensures { result ≡ is_indicator b }
{
    is_flow_sign(b)
        || b == b'#'
        || b == b'&'
        || b == b'*'
        || b == b'!'
        || b == b'|'
        || b == b'>'
        || b == b'\''
        || b == b'"'
        || b == b'%'
        || b == b'@'
        || b == b'`'
}

/// A character with which a plain scalar begins only where more stands behind it.
pub fn needs_more(b: u8) -> bool
    ensures { result ≡ needs_more b }
{
    b == b'-' || b == b'?' || b == b':'
}

pub fn is_name_mark(b: u8) -> bool
    ensures { result ≡ is_name_mark b }
{
    b == b'&' || b == b'*'
}

pub fn is_block_mark(b: u8) -> bool
    ensures { result ≡ is_block_mark b }
{
    b == b'|' || b == b'>'
}

pub fn is_quote(b: u8) -> bool
    ensures { result ≡ is_quote b }
{
    b == b'\'' || b == b'"'
}

/// A blank, a line end or the end stands here.
pub fn is_gap(text: &[u8]) -> bool
    ensures { result ≡ is_gap text.now }
{
    match text {
        [] => true,
        [b, ..] => is_white(*b),
    }
}

/// `:` before a blank, a line end or the end.
pub fn is_colon_gap(text: &[u8]) -> bool
    ensures { result ≡ is_colon_gap text.now }
{
    match text {
        [] => false,
        [b, rest @ ..] => *b == b':' && is_gap(rest),
    }
}
