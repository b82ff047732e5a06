// The text of a journal, made.
ghost use Rattle.std.specs.Prelude.{◌≡◌, ◌++◌, codes, IfOk, OnOk};
ghost use Rattle.hex.specs.Hex.{encode_lower};
ghost use Rattle.sha2.specs.Sha256.{sha256};
ghost use Rattle.journal_text.specs.Changes.{change_of, changes_of, IsPathText, ArePaths};
ghost use Rattle.journal_text.specs.Numerals.{numeral};
ghost use Rattle.journal_text.specs.Text.{entry_text, entries_text, head_text, body_text, journal_text};

use crate::batch::{Batch, Entry};
use crate::length::journal_len;
use itoa::Buffer;
use rw_base::Mem;
use sha2::{Digest, Sha256};
use std::alloc::{AllocError, Global};

fn push_number(out: &mut Vec<u8>, n: u64) -> Result<(), AllocError>
    ensures { OnOk result (out.new.items ≡ out.old.items ++ numeral n) }
{
    let mut buffer = Buffer::new();
    out.extend_from_slice(buffer.format(n).as_bytes())
}

fn push_removal(out: &mut Vec<u8>, path: &str) -> Result<(), AllocError>
    ensures { OnOk result (out.new.items ≡ out.old.items ++ entry_text (path.now, None)) }
{
    out.extend_from_slice(b"del ")?;
    out.extend_from_slice(path.as_bytes())?;
    out.extend_from_slice(b"\n")
}

fn push_file(out: &mut Vec<u8>, path: &str, bytes: &[u8]) -> Result<(), AllocError>
    ensures { OnOk result (out.new.items ≡ out.old.items ++ entry_text (path.now, Some bytes.now)) }
{
    out.extend_from_slice(b"put ")?;
    push_number(out, bytes.len() as u64)?;
    out.extend_from_slice(b" ")?;
    out.extend_from_slice(path.as_bytes())?;
    out.extend_from_slice(b"\n")?;
    out.extend_from_slice(bytes)?;
    out.extend_from_slice(b"\n")
}

fn push_entry(out: &mut Vec<u8>, entry: &Entry) -> Result<(), AllocError>
    ensures text { OnOk result (out.new.items ≡ out.old.items ++ entry_text (change_of entry.now)) }
    ensures path { IsPathText entry.now.path }
{
    let path = entry.path.as_str();
    match &entry.bytes {
        None => push_removal(out, path),
        Some(bytes) => push_file(out, path, bytes),
    }
}

fn push_entries(out: &mut Vec<u8>, entries: &[Entry]) -> Result<(), AllocError>
    ensures text { OnOk result (out.new.items ≡ out.old.items ++ entries_text (changes_of entries.now)) }
    ensures paths { OnOk result (ArePaths (changes_of entries.now)) }
{
    for entry in entries {
        push_entry(out, entry)?;
    }
    Ok(())
}

// The digits of a digest, in lower case.
fn digits_of(digest: &[u8; 32]) -> [u8; 64]
    ensures { result ≡ encode_lower digest.now }
{
    let mut digits = [0; 64];
    hex::encode_to_slice(digest, &mut digits).unwrap();
    digits
}

/// The digits of the digest of a text, in lower case.
pub fn digest_digits(text: &[u8]) -> [u8; 64]
    ensures { result ≡ encode_lower (sha256 text.now) }
{
    digits_of(&Sha256::digest(text))
}

fn push_head(out: &mut Vec<u8>, count: u64) -> Result<(), AllocError>
    ensures { OnOk result (out.new.items ≡ out.old.items ++ head_text count) }
{
    out.extend_from_slice(b"rewrite-journal 1\n")?;
    push_number(out, count)?;
    out.extend_from_slice(b"\n")
}

fn push_body(out: &mut Vec<u8>, entries: &[Entry]) -> Result<(), AllocError>
    ensures text { OnOk result (out.new.items ≡ out.old.items ++ body_text (changes_of entries.now)) }
    ensures paths { OnOk result (ArePaths (changes_of entries.now)) }
{
    push_head(out, entries.len() as u64)?;
    push_entries(out, entries)
}

// The last line, with the digits of a digest.
fn push_digest(out: &mut Vec<u8>, digits: &[u8; 64]) -> Result<(), AllocError>
    ensures { OnOk result (out.new.items ≡ out.old.items ++ (codes "sha256 " ++ digits.now ++ codes "\n")) }
{
    out.extend_from_slice(b"sha256 ")?;
    out.extend_from_slice(digits)?;
    out.extend_from_slice(b"\n")
}

/// The whole journal of a batch, in one vector whose room is taken before.
pub fn journal_of(alloc: Global, batch: &Batch) -> Mem<Vec<u8>>
    ensures text { IfOk result (λ text. text.items ≡ journal_text (changes_of batch.now.entries.items)) }
    ensures paths { IfOk result (λ text. ArePaths (changes_of batch.now.entries.items)) }
{
    let mut text = Vec::with_capacity(alloc, journal_len(batch) as usize)?;
    push_body(&mut text, &batch.entries)?;
    let digits = digest_digits(&text);
    push_digest(&mut text, &digits)?;
    Ok(text)
}

/// The SHA-256 of the whole journal of a batch, its last line included. Each byte is taken once: the digest in the last
/// line is that of what the hasher has taken until then.
pub fn journal_digest(alloc: Global, batch: &Batch) -> Mem<[u8; 32]>
    ensures digest { IfOk result (λ digest. digest ≡ sha256 (journal_text (changes_of batch.now.entries.items))) }
    ensures paths { IfOk result (λ digest. ArePaths (changes_of batch.now.entries.items)) }
{
    let mut body = Vec::with_capacity(alloc, journal_len(batch) as usize)?;
    push_body(&mut body, &batch.entries)?;
    let mut hasher = Sha256::new();
    hasher.update(&body[..]);
    let before_line = hasher.clone()?;
    let mut line = Vec::with_capacity(alloc, 72)?;
    push_digest(&mut line, &digits_of(&before_line.finalize()))?;
    hasher.update(&line[..]);
    Ok(hasher.finalize())
}
