//! The report as text, a page at a time: the first line, and then page after page. A page is filled from its end, because
//! the last digit of a number is the first that is known; the text is then what the page ends in.
#![tactic(auto)]

ghost use Rattle.std.specs.Prelude.{◌≡◌, ◌+◌, ◌-◌, ◌^◌, ◌<◌, length, OnOk};
ghost use Rattle.std.specs.Int.{div_ceil};
ghost use Rattle.std.specs.Io.KnownBytes.{Appends};
ghost use Rattle.reporting.specs.Report.{report};
ghost use Rattle.reporting.specs.Pages.{first_line, line_count, page as page_text, pages_from, page_lines, page_size, ending_in};

use crate::report_lines::put_lines;
use crate::text::{put_bytes, put_number};
use acceptance::open_tables;
use model::{ItemRow, SubjectRow};
use std::io;
use std::io::Write;
use tables::Tables;

mod report_lines;
mod text;

/// How many bytes a page has.
pub const PAGE: usize = 65536;

/// How many lines a page has at most. So many of the longest lines would still fit: three numbers of up to twenty digits,
/// two spaces and the end of the line.
pub const PAGE_LINES: u64 = 1040;

/// Checks an image, and writes its report. The image is checked once, and the text is written a page at a time.
pub fn write_report<W: Write>(out: &mut W, image: &[u8]) -> io::Result<()>
    ensures { OnOk result (Appends (W.contents out.old) (W.contents out.new) (report image.now)) }
{
    let mut page = [0u8; PAGE];
    match open_tables(image) {
        Ok(tables) => {
            write_first(out, 0, &mut page)?;
            write_lines(out, &tables, &mut page)
        }
        Err(refusal) => write_first(out, refusal.number(), &mut page),
    }
}

/// Writes the first line.
fn write_first<W: Write>(out: &mut W, number: u32, page: &mut [u8; PAGE]) -> io::Result<()>
    ensures { OnOk result (Appends (W.contents out.old) (W.contents out.new) (first_line number)) }
{
    let start = first_line(number, page);
    out.write_all(&page[start..])
}

/// Writes all other lines, page after page.
fn write_lines<W: Write>(out: &mut W, tables: &Tables<'_>, page: &mut [u8; PAGE]) -> io::Result<()>
    ensures { let t = tables.now in
        OnOk result (Appends (W.contents out.old) (W.contents out.new)
        (pages_from t 0 (div_ceil (line_count t) page_lines))) }
{
    let pages = line_count(tables).div_ceil(PAGE_LINES);
    for number in 0..pages {
        let start = lines_page(tables, number * PAGE_LINES, page);
        out.write_all(&page[start..])?;
    }
    Ok(())
}

/// Writes the report's first line: the heading where the check of the image answered number 0, and the refusal otherwise.
/// Answers the offset in the page at which the line starts.
pub fn first_line(number: u32, page: &mut [u8; PAGE]) -> usize
    ensures value { result ≡ page_size - length (first_line number) }
    ensures page_after { page.new ≡ ending_in page.old (first_line number) }
{
    if number == 0 {
        return put_bytes(page, PAGE, b"subject item set\n");
    }
    let word_end = put_number(page, PAGE, u64::from(number), b'\n');
    put_bytes(page, word_end, b"refused ")
}

/// How many lines come after the first: one for each subject and item. The second `ensures` lets callers add the lines of a
/// page to a line's number without a test for overflow.
pub fn line_count(tables: &Tables<'_>) -> u64
    ensures value { result ≡ line_count tables.now }
    ensures result_bound { result + 2 ^ 32 < 2 ^ 64 }
    ensures subjects_bound { length tables.now.subjects < 2 ^ 32 }
{
    u64::from(tables.count::<SubjectRow>()) * u64::from(tables.count::<ItemRow>())
}

/// Writes the lines from number `first` on, as many as a page has. Lines are numbered through all subjects, so a page may
/// begin within a subject's lines, and few items do not make small pages. Answers the offset in the page at which the lines
/// start, which is the end of the page where no line is left.
#[tactic(auto, using(crate::proofs::Filling::ends_at, crate::proofs::Filling::ends_in, crate::proofs::Filling::page_of))]
pub fn lines_page(tables: &Tables<'_>, first: u64, page: &mut [u8; PAGE]) -> usize
    ensures value { result ≡ page_size - length (page_text tables.now first) }
    ensures page_after { page.new ≡ ending_in page.old (page_text tables.now first) }
{
    let left = line_count(tables).saturating_sub(first);
    put_lines(tables, first, left.min(PAGE_LINES), page)
}
