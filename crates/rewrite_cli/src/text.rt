// Lines of text.
ghost use Rattle.std.specs.Prelude.{◌≡◌, ◌++◌, OnOk, decimal};
ghost use Rattle.rewrite_cli.specs.Checking.{name_of, refused_line};

use itoa::Buffer;
use rw_base::{Cause, Mem, Place};

pub fn name_of(cause: Cause) -> &'static [u8]
    ensures { result.now ≡ name_of cause }
{
    match cause {
        Cause::NotUtf8 => b"NotUtf8",
        Cause::BadLeaf => b"BadLeaf",
        Cause::Unexpected => b"Unexpected",
        Cause::Unfinished => b"Unfinished",
        Cause::TooLarge => b"TooLarge",
        Cause::TooDeep => b"TooDeep",
    }
}

pub fn put_number(text: &mut Vec<u8>, number: u64) -> Mem<()>
    ensures { OnOk result (text.new.items ≡ text.old.items ++ decimal number) }
{
    let mut buffer = Buffer::new();
    text.extend_from_slice(buffer.format(number).as_bytes())?;
    Ok(())
}

/// Appends the line of a file that is refused.
#[tactic(auto, using(crate::proofs::FoundInFile::joined))]
pub fn put_refusal(text: &mut Vec<u8>, path: &str, place: Place, cause: Cause) -> Mem<()>
    ensures { OnOk result (
        text.new.items ≡ text.old.items ++ refused_line path.now (record { place = place; cause = cause })) }
{
    text.extend_from_slice(b"refused ")?;
    text.extend_from_slice(path.as_bytes())?;
    text.extend_from_slice(b" ")?;
    put_number(text, place.line as u64)?;
    text.extend_from_slice(b":")?;
    put_number(text, place.column as u64)?;
    text.extend_from_slice(b" ")?;
    text.extend_from_slice(name_of(cause))?;
    text.extend_from_slice(b"\n")?;
    Ok(())
}
