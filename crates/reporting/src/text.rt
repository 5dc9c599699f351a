//! Text put into a page so that it ends before an offset. Each function answers where its text starts, which is where the
//! text in front of it ends. Page and end go side by side, as `itoa::write_digits` takes them.
ghost use Rattle.std.specs.Prelude.{◌≡◌, ◌+◌, ◌≤◌, length};
ghost use Rattle.reporting.specs.Report.{ended_by};
ghost use Rattle.reporting.specs.Pages.{Put};

pub fn put_bytes(page: &mut [u8], end: usize, text: &[u8]) -> usize
    requires { (length text.now ≤ end) × (end ≤ length page.old) }
    ensures { Put page.old end text.now page.new result }
{
    let start = end - text.len();
    page[start..end].copy_from_slice(text);
    start
}

/// A number in decimal, and behind it one byte.
pub fn put_number(page: &mut [u8], end: usize, number: u64, behind: u8) -> usize
    requires { (21 ≤ end) × (end ≤ length page.old) }
    ensures put { Put page.old end (ended_by behind number) page.new result }
    ensures end_bound { end ≤ result + 21 }
{
    page[end - 1] = behind;
    itoa::write_digits(number, page, end - 1)
}
