//! Domains as intervals.

ghost use Rattle.std.specs.Prelude.{◌≡◌, ◌++◌, codes, OnOk};
ghost use Rattle.fd_model.specs.Lines.{domain_text, interval_text};
ghost use Rattle.answer_text.specs.Pieces.{interval_of_span, separator_at, spans_text};

use crate::numbers::put_number;
use domain_ranges::Domain;
use fd_language::NoMemory;

/// Appends an interval, `lo..hi`, or its only number.
fn put_interval(text: &mut Vec<u8>, span: (u32, u32)) -> Result<(), NoMemory>
    ensures { OnOk result (text.new.items
        ≡ text.old.items ++ interval_text (interval_of_span span)) }
{
    put_number(text, u64::from(span.0))?;
    if span.0 != span.1 {
        text.extend_from_slice(b"..")?;
        put_number(text, u64::from(span.1))?;
    }
    Ok(())
}

/// Appends what stands before the text of this index, where texts are joined.
pub(crate) fn put_separator(
    text: &mut Vec<u8>,
    index: usize,
    separator: &[u8],
) -> Result<(), NoMemory>
    ensures { OnOk result (text.new.items ≡ text.old.items ++ separator_at index separator.now) }
{
    if index == 0 {
        return Ok(());
    }
    text.extend_from_slice(separator)?;
    Ok(())
}

/// Appends intervals joined by `:`.
fn put_spans(text: &mut Vec<u8>, spans: &[(u32, u32)]) -> Result<(), NoMemory>
    ensures { OnOk result (text.new.items ≡ text.old.items ++ spans_text spans.now) }
{
    for (index, span) in spans.iter().enumerate() {
        put_separator(text, index, b":")?;
        put_interval(text, *span)?;
    }
    Ok(())
}

/// Appends a domain in parentheses: its intervals joined by `:`.
pub(crate) fn put_domain(text: &mut Vec<u8>, domain: &Domain) -> Result<(), NoMemory>
    ensures { OnOk result (text.new.items
        ≡ text.old.items ++ (codes "(" ++ (domain_text domain.now ++ codes ")"))) }
{
    text.push(b'(')?;
    put_spans(text, domain.spans())?;
    text.push(b')')?;
    Ok(())
}
