// What single bytes mean.
ghost use Rattle.std.specs.Prelude.{◌≡◌};
ghost use Rattle.properties_tree.specs.Characters.{is_line_end, is_blank, is_comment_mark, is_separator, ends_key};
ghost use Rattle.properties_tree.specs.Plain.{is_plain, is_plain_in_key};

pub fn is_line_end(b: u8) -> bool
    ensures { result ≡ is_line_end b }
{
    b == b'\n' || b == b'\r'
}

pub fn is_blank(b: u8) -> bool
    ensures { result ≡ is_blank b }
{
    b == b' ' || b == b'\t' || b == 12
}

pub fn is_comment_mark(b: u8) -> bool
    ensures { result ≡ is_comment_mark b }
{
    b == b'#' || b == b'!'
}

pub fn is_separator(b: u8) -> bool
    ensures { result ≡ is_separator b }
{
    b == b'=' || b == b':'
}

pub fn ends_key(b: u8) -> bool
    ensures { result ≡ ends_key b }
{
    is_separator(b) || is_blank(b)
}

pub fn is_plain(b: u8) -> bool
    ensures { result ≡ is_plain b }
{
    !(is_line_end(b) || b == b'\\')
}

pub fn is_plain_in_key(b: u8) -> bool
    ensures { result ≡ is_plain_in_key b }
{
    !(is_line_end(b) || b == b'\\' || ends_key(b))
}
