// Where the bytes of a path stop being those of one that an entry may have.
ghost use Rattle.std.specs.Prelude.{◌≡◌, ◌≤◌, ◌<◌, ◌+◌, ℕ, List, ◌++◌, length, take, drop, slice_index, true, false};
ghost use Rattle.std.specs.Str.{IsValidUpTo};
ghost use Rattle.std.specs.Str.Lossy.{second_byte_min, second_byte_max};
ghost use Rattle.rw_host.specs.Path.{is_part};
ghost use Rattle.journal_text.specs.Stops.{StopsAt, no_control, is_below, Utf8Front, PartsFront, PathFront, IsBefore};

fn control_stop(line: &[u8]) -> usize
    ensures inside { result ≤ length line.now }
    ensures stops { (before : List ℕ) → StopsAt before line.now result }
    ensures front { no_control (take result line.now) ≡ true }
{
    for (i, b) in line.iter().enumerate() {
        if *b < 32 {
            return i;
        }
    }
    line.len()
}

fn order_stop(before: &[u8], line: &[u8]) -> usize
    ensures inside { result ≤ length line.now }
    ensures stops { StopsAt before.now line.now result }
    ensures front { is_below before.now (take result line.now) ≡ false }
{
    for (i, b) in line.iter().enumerate() {
        if i == before.len() {
            return line.len();
        }
        if before[i] < *b {
            return line.len();
        }
        if *b < before[i] {
            return i;
        }
    }
    line.len()
}

fn is_part(part: &[u8]) -> bool
    ensures { result ≡ is_part part.now }
{
    match part {
        [] => false,
        [a] => *a != b'.',
        [a, b] => !(*a == b'.' && *b == b'.'),
        _ => true,
    }
}

fn parts_stop(line: &[u8]) -> usize
    ensures inside { result ≤ length line.now }
    ensures stops { (before : List ℕ) → StopsAt before line.now result }
    ensures front { PartsFront (take result line.now) }
    ensures slash { result < length line.now → slice_index line.now result ≡ 47 }
{
    let mut start = 0;
    for (i, b) in line.iter().enumerate() {
        if *b == b'/' {
            if !is_part(&line[start..i]) {
                return i;
            }
            start = i + 1;
        }
    }
    line.len()
}

fn second_least(first: u8) -> u8
    ensures { result ≡ second_byte_min first }
{
    match first {
        0xE0 => 0xA0,
        0xF0 => 0x90,
        _ => 0x80,
    }
}

fn second_most(first: u8) -> u8
    ensures { result ≡ second_byte_max first }
{
    match first {
        0xED => 0x9F,
        0xF4 => 0x8F,
        _ => 0xBF,
    }
}

// How many of the bytes behind a text can begin a character, where no whole one stands.
fn pending_len(line: &[u8], at: usize) -> usize
    requires { IsValidUpTo line.now at }
    ensures inside { at + result ≤ length line.now }
    ensures stops { (before : List ℕ) → StopsAt before line.now (at + result) }
    ensures front { Utf8Front (take (at + result) line.now) }
{
    let first = line[at];
    if first < 0xC2 {
        return 0;
    }
    if 0xF4 < first {
        return 0;
    }
    if line.len() == at + 1 {
        return 1;
    }
    if line[at + 1] < second_least(first) {
        return 1;
    }
    if second_most(first) < line[at + 1] {
        return 1;
    }
    if line.len() == at + 2 {
        return 2;
    }
    if line[at + 2] < 0x80 {
        return 2;
    }
    if 0xBF < line[at + 2] {
        return 2;
    }
    3
}

fn utf8_stop(line: &[u8]) -> usize
    ensures inside { result ≤ length line.now }
    ensures stops { (before : List ℕ) → StopsAt before line.now result }
    ensures front { Utf8Front (take result line.now) }
{
    match str::from_utf8(line) {
        Ok(_) => line.len(),
        Err(fault) => {
            let at = fault.valid_up_to();
            at + pending_len(line, at)
        }
    }
}

/// How far the line can be the beginning of a path that an entry behind that path may have.
pub fn path_stop(before: &[u8], line: &[u8]) -> usize
    requires { IsBefore before.now }
    ensures stops { StopsAt before.now line.now result }
    ensures front { PathFront before.now (take result line.now) }
{
    let shown = &line[..control_stop(line)];
    let ordered = &shown[..order_stop(before, shown)];
    let text = &ordered[..utf8_stop(ordered)];
    parts_stop(text)
}
